//! A walk over the entries of a map by rising key, from a key on, which visits stored nodes alone.

ghost use Rattle.std.specs.Prelude.{◌≡◌, ℕ, ◌+◌, ◌*◌, ◌%◌, ◌^◌, ◌<◌, ◌≤◌, ◌∷◌, List, [], ◌++◌};
ghost use Rattle.std.specs.Prelude.{MatchOption, IfNone, IfSome};
ghost use Rattle.radix_map.specs.Entries.{raised, entries_from, entries_behind, part, single, block};
ghost use Rattle.radix_map.specs.Entries.{edited_all, Rises, keys_end};
ghost use Rattle.radix_map.specs.Pending.{IsPast};
ghost use Rattle.radix_map.specs.Levels.{root_entries};
ghost use Rattle.std.specs.Iterator.{YieldsFirstBy, item_count};
ghost use Rattle.radix_map.specs.Inner.{inner_sound};
ghost use Rattle.radix_map.specs.Walks.{root_left, root_sound, behind_first};

use crate::level::{Edit, Leaf, Level, Node, slot};
use crate::levels::{ROOT_SHIFT, Root, RootWalk};
use crate::pending::{edits_from, set_value};
use std::cmp::Ordering;
use std::marker::Model;

/// The entries of a map that were not yet given, by rising key: those of its tree, and over them
/// the edits that it has noted.
#[derive(Drop)]
pub struct Entries<'a, V> {
    tree: TreeEntries<'a, V>,
    pending: &'a [Edit<V>],
}

impl<'a, V> Model for Entries<'a, V> {
    ghost use Rattle.std.specs.Prelude.{ℕ, List};
    ghost use Rattle.radix_map.specs.Entries.{edited_all, Rises, keys_end};

    ghost Value = { List (ℕ × V) };

    ghost view = { λ e. edited_all e.tree e.pending.now };

    ghost invariant = { λ e. Rises 0 keys_end e.tree × Rises 0 keys_end e.pending.now };
}

impl<'a, V: Drop> Entries<'a, V> {
    /// The entries of the tree after the edits whose key is at least `from`.
    pub(crate) fn of(root: &'a Root<V>, pending: &'a [Edit<V>], from: u32) -> Entries<'a, V>
        requires { Rises 0 keys_end pending.now }
        ensures { result ≡ entries_from from (edited_all (root_entries root.now) pending.now) }
    {
        Entries {
            tree: TreeEntries::of(root, from),
            pending: edits_from(pending, from),
        }
    }
}

impl<'a, V: Drop> Iterator for Entries<'a, V> {
    type Item = (u32, &'a V);

    ghost next_gives = { YieldsFirstBy (λ p. (p.0, p.1.now)) (λ s. s) };

    ghost remaining = { item_count (λ s. s) };

    fn next(&mut self) -> Option<(u32, &'a V)> {
        first_edited(&mut self.tree, &mut self.pending)
    }
}

// The first entry of the tree after the edits.
fn first_edited<'a, V: Drop>(
    tree: &mut TreeEntries<'a, V>,
    pending: &mut &'a [Edit<V>],
) -> Option<(u32, &'a V)>
    requires tree { Rises 0 keys_end tree.old }
    requires edits { Rises 0 keys_end pending.old.now }
    ensures first { MatchOption result ((edited_all tree.old pending.old.now ≡ [])
        × (edited_all tree.new pending.new.now ≡ []))
        (λ p. edited_all tree.old pending.old.now
        ≡ (p.0, p.1.now) ∷ edited_all tree.new pending.new.now) }
    ensures tree { Rises 0 keys_end tree.new }
    ensures edits { Rises 0 keys_end pending.new.now }
{
    while let Some((edit, later)) = pending.split_first() {
        match tree.next_before(edit.0) {
            Some(entry) => return Some(entry),
            None => {}
        }
        *pending = later;
        match set_value(&edit.1) {
            Some(value) => return Some((edit.0, value)),
            None => {}
        }
    }
    tree.next()
}

/// The entries of a tree that were not yet given, the first of which may wait here.
#[derive(Drop)]
struct TreeEntries<'a, V> {
    first: Option<(u32, &'a V)>,
    walk: RootWalk<'a, V>,
}

impl<'a, V> Model for TreeEntries<'a, V> {
    ghost use Rattle.std.specs.Prelude.{ℕ, List};
    ghost use Rattle.radix_map.specs.Walks.{root_left, root_sound, behind_first};

    ghost Value = { List (ℕ × V) };

    ghost view = { λ e. behind_first e.first (root_left e.walk) };

    ghost invariant = { λ e. root_sound e.walk };
}

impl<'a, V: Drop> TreeEntries<'a, V> {
    fn of(root: &'a Root<V>, from: u32) -> TreeEntries<'a, V>
        ensures { result ≡ entries_from from (root_entries root.now) }
    {
        TreeEntries {
            first: None,
            walk: Walk::begin(root, 0, from, ROOT_SHIFT),
        }
    }

    // The first entry.
    fn next(&mut self) -> Option<(u32, &'a V)>
        ensures { MatchOption result ((self.old ≡ []) × (self.new ≡ []))
            (λ p. self.old ≡ (p.0, p.1.now) ∷ self.new) }
    {
        first_of(self.first.take(), &mut self.walk)
    }

    // The first entry, where its key is below this one. An entry at this key is dropped.
    fn next_before(&mut self, key: u32) -> Option<(u32, &'a V)>
        ensures none { IfNone result (IsPast key self.old self.new) }
        ensures some { IfSome result
            (λ p. (p.0 < key) × (self.old ≡ (p.0, p.1.now) ∷ self.new)) }
    {
        let entry = first_of(self.first.take(), &mut self.walk)?;
        match entry.0.cmp(&key) {
            Ordering::Less => Some(entry),
            Ordering::Equal => None,
            Ordering::Greater => {
                self.first = Some(entry);
                None
            }
        }
    }
}

// The entry that waits, if there is one, and the first of the walk else.
fn first_of<'a, V: Drop>(
    waiting: Option<(u32, &'a V)>,
    walk: &mut RootWalk<'a, V>,
) -> Option<(u32, &'a V)>
    requires { root_sound walk.old }
    ensures first { MatchOption result
        ((behind_first waiting.entry (root_left walk.old) ≡ []) × (root_left walk.new ≡ []))
        (λ p. behind_first waiting.entry (root_left walk.old)
        ≡ (p.0, p.1.now) ∷ root_left walk.new) }
    ensures sound { root_sound walk.new }
{
    match waiting {
        Some(entry) => Some(entry),
        None => walk.step(ROOT_SHIFT),
    }
}

/// A walk over the entries of a node of one level.
pub(crate) trait Walk<'a, V, L: Level<V>>: Drop {
    ghost left: { Self → List (ℕ × V) };

    ghost sound: { Self → Type 0 };

    /// A walk over the entries of the node whose keys, as its block counts them, are at least what
    /// the low bits of `from` say. It counts keys from `base`.
    fn begin(node: &'a L, base: u32, from: u32, shift: u32) -> Self
        requires level { shift ≡ L.bits }
        requires small { shift ≤ 28 }
        requires fits { base + block L.bits ≤ keys_end }
        ensures left { left result
            ≡ raised base (entries_from (from % (block L.bits)) (L.entries node.now)) }
        ensures sound { sound result };

    /// The first entry that is left.
    fn step(&mut self, shift: u32) -> Option<(u32, &'a V)>
        requires level { shift ≡ L.bits }
        requires small { shift ≤ 28 }
        requires sound { sound self.old }
        ensures first { MatchOption result ((left self.old ≡ []) × (left self.new ≡ []))
            (λ p. left self.old ≡ (p.0, p.1.now) ∷ left self.new) }
        ensures sound { sound self.new };
}

/// A walk over a leaf: the values at slot `at` and behind it are left.
#[derive(Drop)]
pub(crate) struct LeafWalk<'a, V> {
    leaf: &'a Leaf<V>,
    at: u32,
    base: u32,
}

/// A walk over a node: what is left of one child, and the children at slot `at` and behind it.
#[derive(Drop)]
pub(crate) struct NodeWalk<'a, L, W> {
    node: &'a Node<L>,
    at: u32,
    base: u32,
    inner: Option<W>,
}

impl<'a, V: Drop> Walk<'a, V, Leaf<V>> for LeafWalk<'a, V> {
    ghost left = { λ w. entries_behind single 1 w.base w.at w.leaf.now.slots };

    ghost sound = { λ w. (w.base + 16 ≤ keys_end) × (w.at ≤ 16) };

    fn begin(node: &'a Leaf<V>, base: u32, from: u32, _shift: u32) -> Self {
        LeafWalk {
            leaf: node,
            at: from & 15,
            base,
        }
    }

    fn step(&mut self, _shift: u32) -> Option<(u32, &'a V)> {
        match self.leaf.slots.next(self.at) {
            Some((n, value)) => {
                self.at = n + 1;
                Some((self.base + n, value))
            }
            None => None,
        }
    }
}

impl<'a, V: Drop, L: Level<V>, W: Walk<'a, V, L>> Walk<'a, V, Node<L>> for NodeWalk<'a, L, W> {
    ghost left = { λ w. part W.left w.inner
        ++ entries_behind L.entries (2 ^ (L.bits + 4)) w.base w.at w.node.now.slots };

    ghost sound = { λ w. (w.base + 16 * 2 ^ (L.bits + 4) ≤ keys_end)
        × (w.at ≤ 16) × inner_sound W.sound w.inner };

    fn begin(node: &'a Node<L>, base: u32, from: u32, shift: u32) -> Self {
        let at = slot(from, shift);
        NodeWalk {
            node,
            at: at + 1,
            base,
            inner: match node.slots.get(at) {
                Some(child) => Some(child_walk(child, base, at, from, shift)),
                None => None,
            },
        }
    }

    fn step(&mut self, shift: u32) -> Option<(u32, &'a V)> {
        loop {
            match step_inner(&mut self.inner, shift - 4) {
                Some(entry) => return Some(entry),
                None => {}
            }
            match self.node.slots.next(self.at) {
                Some((n, child)) => {
                    self.inner = Some(child_walk(child, self.base, n, 0, shift));
                    self.at = n + 1;
                }
                None => return None,
            }
        }
    }
}

// The first entry that is left of a child.
fn step_inner<'a, V, L: Level<V>, W: Walk<'a, V, L>>(
    inner: &mut Option<W>,
    shift: u32,
) -> Option<(u32, &'a V)>
    requires level { shift ≡ L.bits }
    requires small { shift ≤ 28 }
    requires sound { inner_sound W.sound inner.old }
    ensures first { MatchOption result
        ((part W.left inner.old ≡ []) × (part W.left inner.new ≡ []))
        (λ p. part W.left inner.old ≡ (p.0, p.1.now) ∷ part W.left inner.new) }
    ensures sound { inner_sound W.sound inner.new }
{
    match inner {
        Some(inner) => inner.step(shift),
        None => None,
    }
}

// A walk over the child in slot `n` of a node whose keys are counted from `base`: its entries from
// the key on that the low bits of `from` say.
fn child_walk<'a, V, L: Level<V>, W: Walk<'a, V, L>>(
    child: &'a L,
    base: u32,
    n: u32,
    from: u32,
    shift: u32,
) -> W
    requires level { shift ≡ L.bits + 4 }
    requires small { shift ≤ 28 }
    requires slot { n < 16 }
    requires fits { base + 16 * 2 ^ shift ≤ keys_end }
    ensures left { W.left result ≡ raised (base + n * 2 ^ shift)
        (entries_from (from % (block L.bits)) (L.entries child.now)) }
    ensures sound { W.sound result }
{
    W::begin(child, first_key(base, n, shift), from, shift - 4)
}

fn first_key(base: u32, n: u32, shift: u32) -> u32
    requires small { shift ≤ 28 }
    requires slot { n < 16 }
    requires fits { base + 16 * 2 ^ shift ≤ keys_end }
    ensures { result ≡ base + n * 2 ^ shift }
{
    base + (n << shift)
}
