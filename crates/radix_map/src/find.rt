//! Look-ups of many keys, which keep the path to the last one and the leaf at its end.

ghost use Rattle.std.specs.Prelude.{◌≡◌, ℕ, ◌/◌, ◌%◌, ◌≤◌, List, option_copied, map, Option};
ghost use Rattle.std.specs.Iterator.{YieldsFirstBy, item_count};
ghost use Rattle.radix_map.specs.Entries.{value_at, edited_all, node_map, block, part, Rises, keys_end};
ghost use Rattle.radix_map.specs.Inner.{IsFingerOf, IsLeafOf};
ghost use Rattle.radix_map.specs.Levels.{leaf_entries, root_entries};
ghost use Rattle.radix_map.specs.Fingers.{root_found, root_sound, IsKeptOf};

use crate::level::{Edit, Leaf, Level, Node, slot};
use crate::levels::{Node1, ROOT_SHIFT, Root, RootFinger};
use crate::pending::{edit_at, set_value};
use std::marker::Model;

/// The values at keys that were not yet looked up, in the order of the keys: `None` where a map
/// has no value. It is cheapest where the keys rise.
#[derive(Drop)]
pub struct FindAll<'a, 'k, V> {
    tree: TreeFinger<'a, V>,
    pending: &'a [Edit<V>],
    keys: &'k [u32],
}

impl<'a, 'k, V> Model for FindAll<'a, 'k, V> {
    ghost use Rattle.std.specs.Prelude.{List, Option, map};
    ghost use Rattle.radix_map.specs.Entries.{value_at, edited_all, Rises, keys_end};

    ghost Value = { List (Option V) };

    ghost view = { λ a. map (λ k. value_at k (edited_all a.tree a.pending.now)) a.keys.now };

    ghost invariant = { λ a. Rises 0 keys_end a.tree × Rises 0 keys_end a.pending.now };
}

impl<'a, 'k, V: Drop> FindAll<'a, 'k, V> {
    pub(crate) fn of(
        root: &'a Root<V>,
        pending: &'a [Edit<V>],
        keys: &'k [u32],
    ) -> FindAll<'a, 'k, V>
        requires { Rises 0 keys_end pending.now }
        ensures { result ≡ map
            (λ k. value_at k (edited_all (root_entries root.now) pending.now)) keys.now }
    {
        FindAll {
            tree: TreeFinger::of(root),
            pending,
            keys,
        }
    }
}

impl<'a, 'k, V: Drop> Iterator for FindAll<'a, 'k, V> {
    type Item = Option<&'a V>;

    ghost next_gives = { YieldsFirstBy option_copied (λ s. s) };

    ghost remaining = { item_count (λ s. s) };

    fn next(&mut self) -> Option<Option<&'a V>> {
        match self.keys.split_first() {
            Some((key, later)) => {
                self.keys = later;
                Some(find(&mut self.tree, self.pending, *key))
            }
            None => None,
        }
    }
}

// The value at the key, where the edits count before what the tree has.
#[inline(always)]
fn find<'a, V: Drop>(
    tree: &mut TreeFinger<'a, V>,
    pending: &'a [Edit<V>],
    key: u32,
) -> Option<&'a V>
    requires tree { Rises 0 keys_end tree.old }
    requires edits { Rises 0 keys_end pending.now }
    ensures value { option_copied result ≡ value_at key (edited_all tree.old pending.now) }
    ensures same { tree.new ≡ tree.old }
{
    match edit_at(pending, key) {
        Some(value) => set_value(value),
        None => tree.find(key),
    }
}

/// A tree, the path to the key that was looked up last, and the leaf of that key's block: it is
/// kept since most keys of a list lie in the block of the key before.
#[derive(Drop)]
struct TreeFinger<'a, V> {
    path: RootFinger<'a, V>,
    kept: Option<BlockLeaf<'a, V>>,
}

/// The leaf of a block of sixteen keys, if there is one.
#[derive(Drop)]
struct BlockLeaf<'a, V> {
    /// The keys without their lowest four bits.
    block: u32,
    leaf: Option<&'a Leaf<V>>,
}

impl<'a, V> Model for TreeFinger<'a, V> {
    ghost use Rattle.std.specs.Prelude.{ℕ, List};
    ghost use Rattle.radix_map.specs.Fingers.{root_found, root_sound, IsKeptOf};

    ghost Value = { List (ℕ × V) };

    ghost view = { λ t. root_found t.path };

    ghost invariant = { λ t. root_sound t.path × IsKeptOf (root_found t.path) t.kept };
}

impl<'a, V: Drop> TreeFinger<'a, V> {
    fn of(root: &'a Root<V>) -> TreeFinger<'a, V>
        ensures { result ≡ root_entries root.now }
    {
        TreeFinger {
            path: Finger::begin(root),
            kept: None,
        }
    }

    // The value at the key.
    #[inline(always)]
    fn find(&mut self, key: u32) -> Option<&'a V>
        ensures value { option_copied result ≡ value_at key self.old }
        ensures same { self.new ≡ self.old }
    {
        value_in(self.leaf_of(key), key)
    }

    // The leaf of the key's block.
    #[inline(always)]
    fn leaf_of(&mut self, key: u32) -> Option<&'a Leaf<V>>
        ensures leaf { IsLeafOf keys_end self.old (key / 16) (option_copied result) }
        ensures same { self.new ≡ self.old }
    {
        let block = key >> 4;
        match &self.kept {
            Some(kept) => {
                if kept.block == block {
                    return kept.leaf;
                }
            }
            None => {}
        }
        let leaf = self.path.find(key, ROOT_SHIFT);
        self.kept = Some(BlockLeaf { block, leaf });
        leaf
    }
}

// The value at the key in the leaf of its block.
#[inline(always)]
fn value_in<'a, V: Drop>(leaf: Option<&'a Leaf<V>>, key: u32) -> Option<&'a V>
    ensures { option_copied result
        ≡ value_at (key % 16) (part leaf_entries (option_copied leaf.entry)) }
{
    match leaf {
        Some(leaf) => leaf.get(key, 0),
        None => None,
    }
}

/// The path to the key that was looked up last in a node of one level.
pub(crate) trait Finger<'a, V, L: Level<V>>: Drop {
    ghost found: { Self → List (ℕ × V) };

    ghost sound: { Self → Type 0 };

    fn begin(node: &'a L) -> Self
        ensures found { found result ≡ L.entries node.now }
        ensures sound { sound result };

    /// The leaf of the key's block.
    fn find(&mut self, key: u32, shift: u32) -> Option<&'a Leaf<V>>
        requires level { shift ≡ L.bits }
        requires small { shift ≤ 28 }
        requires sound { sound self.old }
        ensures leaf { IsLeafOf (block L.bits) (found self.old) (key / 16) (option_copied result) }
        ensures same { found self.new ≡ found self.old }
        ensures sound { sound self.new };
}

/// A node, and the path below its child at slot `at`.
#[derive(Drop)]
pub(crate) struct NodeFinger<'a, L, F> {
    node: &'a Node<L>,
    at: u32,
    inner: Option<F>,
}

// A path ends at a node whose children are leaves: the last of them is kept beside the path.
impl<'a, V: Drop> Finger<'a, V, Node1<V>> for &'a Node1<V> {
    ghost found = { λ f. node_map leaf_entries 0 f.now.slots };

    ghost sound = { λ _. Unit {0} };

    fn begin(node: &'a Node1<V>) -> Self {
        node
    }

    #[inline(always)]
    fn find(&mut self, key: u32, shift: u32) -> Option<&'a Leaf<V>> {
        let node = *self;
        node.slots.get(slot(key, shift))
    }
}

impl<'a, V: Drop, L: Level<V>, F: Finger<'a, V, L>> Finger<'a, V, Node<L>>
    for NodeFinger<'a, L, F> {
    ghost found = { λ f. node_map L.entries L.bits f.node.now.slots };

    ghost sound = { λ f. IsFingerOf F.sound F.found L.entries f.node.now.slots f.at f.inner };

    fn begin(node: &'a Node<L>) -> Self {
        NodeFinger {
            node,
            at: 0,
            inner: None,
        }
    }

    #[inline(always)]
    fn find(&mut self, key: u32, shift: u32) -> Option<&'a Leaf<V>> {
        let node = self.node;
        let at = slot(key, shift);
        if at == self.at {
            match &mut self.inner {
                Some(inner) => return inner.find(key, shift - 4),
                None => {}
            }
        }
        match node.slots.get(at) {
            Some(child) => {
                let mut inner: F = F::begin(child);
                let found = inner.find(key, shift - 4);
                self.inner = Some(inner);
                self.at = at;
                found
            }
            None => None,
        }
    }
}
