//! The levels of the tree: a leaf holds values, and a node holds nodes of the level below.

ghost use Rattle.std.specs.Prelude.{◌≡◌, ℕ, ◌+◌, ◌*◌, ◌/◌, ◌%◌, ◌^◌, ◌<◌, ◌≤◌, List, [], length, take, drop};
ghost use Rattle.std.specs.Prelude.{IfOk, OnOk, OnErr, IsSome, IfNone, IfSome, Some, None, Option};
ghost use Rattle.std.specs.Prelude.{option_copied, option_map, true};
ghost use Rattle.std.specs.Arc.{arc_value};
ghost use Rattle.radix_map.specs.Slots.{item_at};
ghost use Rattle.radix_map.specs.Entries.{value_at, edited_within, Rises, part, leaf_map, node_map, block, keys_end};
ghost use Rattle.radix_map.specs.Entries.{InSlot, IsEdited, IsFirstRun, KeysFit, Counts};
ghost use Rattle.radix_map.specs.Pending.{IsCarried};

use crate::carry::carry_run;
use crate::leaf_edits::edit_value;
use crate::pending::Note;
use crate::slots::Slots;
use grid_core::Memory;
use std::alloc::Global;
use std::sync::Arc;

/// One edit of a map: a key, and the value that it is set to, or `None` where it is removed.
pub(crate) type Edit<V> = (u32, Option<Arc<V>>);

/// How many keys some edits added and removed.
#[derive(Clone, Copy)]
pub(crate) struct Tally {
    pub(crate) added: usize,
    pub(crate) removed: usize,
}

/// A level of the tree as a finite map. A node places a key by the four bits from `shift` on, and
/// has the keys of one block of `16 * 2 ^ shift`, counted from the block's first.
pub(crate) trait Level<V>: Drop {
    ghost bits: { ℕ };

    ghost entries: { Self → List (ℕ × V) };

    /// Nothing is in it.
    fn empty(alloc: Global) -> Self
        ensures { entries result ≡ [] };

    /// No slot is taken.
    fn is_empty(&self) -> bool
        ensures { result ≡ true → entries self.now ≡ [] };

    /// The value at the key.
    fn get(&self, key: u32, shift: u32) -> Option<&V>
        requires level { shift ≡ bits }
        requires small { shift ≤ 28 }
        ensures { option_copied result ≡ value_at (key % (block bits)) (entries self.now) };

    /// A copy that has what lies below it in common, with room for up to `more` items.
    fn copy(&self, alloc: Global, more: usize) -> Result<Self, Memory>
        ensures { IfOk result (λ c. entries c ≡ entries self.now) };

    /// Each edit in turn. What nobody else holds is changed where it is, and what others hold is
    /// copied. After want of memory any of several edits may be done, and one edit alone is not.
    fn edit(&mut self, alloc: Global, edits: &[Edit<V>], shift: u32) -> Result<Tally, Memory>
        requires level { shift ≡ bits }
        requires small { shift ≤ 28 }
        ensures ok { IfOk result (λ t. IsEdited (block bits) (entries self.old)
            (entries self.new) edits.now t.added t.removed) }
        ensures alone { length edits.now ≤ 1
            → OnErr result (entries self.new ≡ entries self.old) }
        ensures fit { OnOk result (KeysFit edits.now) };

    /// Carries the next `count` noted edits. What nobody else holds is changed where it is and takes
    /// the values over, and what others hold is copied. After want of memory the first of them are
    /// carried, and the others are noted still.
    fn carry(
        &mut self,
        alloc: Global,
        note: &mut Note<V>,
        count: usize,
        shift: u32,
    ) -> Result<Tally, Memory>
        requires level { shift ≡ bits }
        requires small { shift ≤ 28 }
        requires count { count ≤ length note.old }
        ensures ok { OnOk result (entries self.new
            ≡ edited_within (block bits) (entries self.old) (take count note.old)) }
        ensures rest { OnOk result (note.new ≡ drop count note.old) }
        ensures err { OnErr result (IsCarried (block bits) (entries self.old) (entries self.new)
            count note.old note.new) }
        ensures counted { IfOk result (λ t. Counts (length (entries self.old))
            (length (entries self.new)) t.added t.removed) }
        ensures few { IfOk result (λ t. (t.added ≤ count) × (t.removed ≤ count)) };

    ghost rises: { (x : Self) → Rises 0 (block bits) (entries x) };
}

/// A node of the lowest level: a value for each of sixteen keys.
#[derive(Drop)]
pub(crate) struct Leaf<V> {
    pub(crate) slots: Slots<V>,
}

/// A node above: a subtree for each of sixteen parts of the keys.
#[derive(Drop)]
pub(crate) struct Node<L> {
    pub(crate) slots: Slots<L>,
}

impl<V: Drop> Level<V> for Leaf<V> {
    ghost use Rattle.radix_map.specs.Rising.{leaf_rises};

    ghost bits = { 0 };

    ghost entries = { λ x. leaf_map x.slots };

    fn empty(alloc: Global) -> Self {
        Leaf {
            slots: Slots::empty(alloc),
        }
    }

    fn is_empty(&self) -> bool {
        self.slots.is_empty()
    }

    #[inline(always)]
    fn get(&self, key: u32, _shift: u32) -> Option<&V> {
        self.slots.get(key & 15)
    }

    fn copy(&self, alloc: Global, more: usize) -> Result<Self, Memory> {
        let slots = self.slots.copy(alloc, more)?;
        Ok(Leaf { slots })
    }

    fn edit(&mut self, _alloc: Global, edits: &[Edit<V>], _shift: u32) -> Result<Tally, Memory> {
        let mut tally = Tally {
            added: 0,
            removed: 0,
        };
        for edit in edits {
            let one = edit_value(&mut self.slots, edit.0, &edit.1)?;
            tally.added += one.added;
            tally.removed += one.removed;
        }
        Ok(tally)
    }

    fn carry(
        &mut self,
        _alloc: Global,
        note: &mut Note<V>,
        count: usize,
        _shift: u32,
    ) -> Result<Tally, Memory> {
        let mut tally = Tally {
            added: 0,
            removed: 0,
        };
        for _done in 0..count {
            let one = note.carry_first(&mut self.slots)?;
            tally.added += one.added;
            tally.removed += one.removed;
        }
        Ok(tally)
    }

    ghost rises = { λ x. leaf_rises x.slots };
}

impl<V: Drop, L: Level<V>> Level<V> for Node<L> {
    ghost use Rattle.radix_map.specs.Rising.{node_rises};

    ghost bits = { L.bits + 4 };

    ghost entries = { λ x. node_map L.entries L.bits x.slots };

    fn empty(alloc: Global) -> Self {
        Node {
            slots: Slots::empty(alloc),
        }
    }

    fn is_empty(&self) -> bool {
        self.slots.is_empty()
    }

    #[inline(always)]
    fn get(&self, key: u32, shift: u32) -> Option<&V> {
        match self.slots.get(slot(key, shift)) {
            Some(child) => child.get(key, shift - 4),
            None => None,
        }
    }

    fn copy(&self, alloc: Global, more: usize) -> Result<Self, Memory> {
        let slots = self.slots.copy(alloc, more)?;
        Ok(Node { slots })
    }

    fn edit(&mut self, alloc: Global, edits: &[Edit<V>], shift: u32) -> Result<Tally, Memory> {
        let mut tally = Tally {
            added: 0,
            removed: 0,
        };
        let mut rest = edits;
        loop {
            match next_run(rest, shift) {
                Some(run) => {
                    let one = edit_run(&mut self.slots, alloc, run.at, run.edits, shift)?;
                    tally.added += one.added;
                    tally.removed += one.removed;
                    rest = run.rest;
                }
                None => return Ok(tally),
            }
        }
    }

    fn carry(
        &mut self,
        alloc: Global,
        note: &mut Note<V>,
        count: usize,
        shift: u32,
    ) -> Result<Tally, Memory> {
        let mut tally = Tally {
            added: 0,
            removed: 0,
        };
        let mut done = 0;
        while done < count {
            let (at, n) = first_run(&note.rest()[..count - done], shift);
            let one = carry_run(&mut self.slots, alloc, at, note, n, shift)?;
            tally.added += one.added;
            tally.removed += one.removed;
            done += n;
        }
        Ok(tally)
    }

    ghost rises = { λ x. node_rises L.entries L.bits L.rises x.slots };
}

// The slot of a key: its four bits from `shift` on.
#[inline(always)]
pub(crate) fn slot(key: u32, shift: u32) -> u32
    requires { shift ≤ 28 }
    ensures value { result ≡ key / 2 ^ shift % 16 }
    ensures small { result < 16 }
    ensures fits { key < keys_end }
{
    key >> shift & 15
}

// The first edits, which all lie in one slot, and those behind them.
#[derive(Drop)]
struct Run<'a, V> {
    at: u32,
    edits: &'a [Edit<V>],
    rest: &'a [Edit<V>],
}

fn next_run<'a, V>(edits: &'a [Edit<V>], shift: u32) -> Option<Run<'a, V>>
    requires { shift ≤ 28 }
    ensures none { IfNone result (edits.now ≡ []) }
    ensures some { IfSome result
        (λ r. IsFirstRun (2 ^ shift) edits.now r.at r.edits.now r.rest.now) }
{
    let (first, later) = edits.split_first()?;
    let at = slot(first.0, shift);
    let n = run_length(later, at, shift) + 1;
    let (run, rest) = edits.split_at(n);
    Some(Run {
        at,
        edits: run,
        rest,
    })
}

// The slot of the first edit, and how many edits from it on lie there.
fn first_run<V>(edits: &[Edit<V>], shift: u32) -> (u32, usize)
    requires small { shift ≤ 28 }
    requires some { 0 < length edits.now }
    ensures slot { result.0 < 16 }
    ensures within { InSlot (2 ^ shift) result.0 (take result.1 edits.now) }
    ensures some { 0 < result.1 }
    ensures few { result.1 ≤ length edits.now }
{
    let at = slot(edits[0].0, shift);
    (at, run_length(&edits[1..], at, shift) + 1)
}

// How many of the first edits lie in slot `at`.
fn run_length<V>(edits: &[Edit<V>], at: u32, shift: u32) -> usize
    requires { shift ≤ 28 }
    ensures within { result ≤ length edits.now }
    ensures all { InSlot (2 ^ shift) at (take result edits.now) }
    ensures fit { KeysFit (take result edits.now) }
{
    for (n, edit) in edits.iter().enumerate() {
        if slot(edit.0, shift) != at {
            return n;
        }
    }
    edits.len()
}

// Edits the child at one slot, or makes one where there is none.
fn edit_run<V, L: Level<V>>(
    slots: &mut Slots<L>,
    alloc: Global,
    at: u32,
    run: &[Edit<V>],
    shift: u32,
) -> Result<Tally, Memory>
    requires level { shift ≡ L.bits + 4 }
    requires small { shift ≤ 28 }
    requires at { at < 16 }
    requires run { InSlot (2 ^ shift) at run.now }
    ensures ok { IfOk result (λ t. IsEdited (block (L.bits + 4))
        (node_map L.entries L.bits slots.old) (node_map L.entries L.bits slots.new)
        run.now t.added t.removed) }
    ensures alone { length run.now ≤ 1 → OnErr result (node_map L.entries L.bits slots.new
        ≡ node_map L.entries L.bits slots.old) }
{
    if slots.get(at).is_some() {
        edit_run_here(slots, alloc, at, run, shift)
    } else {
        edit_run_anew(slots, alloc, at, run, shift)
    }
}

// Edits the child at one slot where it is, and drops it where it has become empty.
fn edit_run_here<V, L: Level<V>>(
    slots: &mut Slots<L>,
    alloc: Global,
    at: u32,
    run: &[Edit<V>],
    shift: u32,
) -> Result<Tally, Memory>
    requires level { shift ≡ L.bits + 4 }
    requires small { shift ≤ 28 }
    requires at { at < 16 }
    requires taken { IsSome (item_at slots.old at) }
    requires run { InSlot (2 ^ shift) at run.now }
    ensures ok { IfOk result (λ t. IsEdited (block (L.bits + 4))
        (node_map L.entries L.bits slots.old) (node_map L.entries L.bits slots.new)
        run.now t.added t.removed) }
    ensures alone { length run.now ≤ 1 → OnErr result (node_map L.entries L.bits slots.new
        ≡ node_map L.entries L.bits slots.old) }
{
    let tally = slots.edit_child(alloc, at, run, shift)?;
    drop_empty(slots, at);
    Ok(tally)
}

// Makes a child of the edits at a free slot, unless they leave none.
fn edit_run_anew<V, L: Level<V>>(
    slots: &mut Slots<L>,
    alloc: Global,
    at: u32,
    run: &[Edit<V>],
    shift: u32,
) -> Result<Tally, Memory>
    requires level { shift ≡ L.bits + 4 }
    requires small { shift ≤ 28 }
    requires at { at < 16 }
    requires free { item_at slots.old at ≡ None }
    requires wide { length slots.old ≡ 16 }
    requires run { InSlot (2 ^ shift) at run.now }
    ensures ok { IfOk result (λ t. IsEdited (block (L.bits + 4))
        (node_map L.entries L.bits slots.old) (node_map L.entries L.bits slots.new)
        run.now t.added t.removed) }
    ensures err { OnErr result (node_map L.entries L.bits slots.new
        ≡ node_map L.entries L.bits slots.old) }
{
    // A copy of the empty node has room for as many items as the run may add.
    let mut child = L::empty(alloc).copy(alloc, run.len())?;
    let tally = child.edit(alloc, run, shift - 4)?;
    let item = shared(alloc, child)?;
    slots.put(at, item)?;
    Ok(tally)
}

// Frees slot `at` where its child is empty.
pub(crate) fn drop_empty<V, L: Level<V>>(slots: &mut Slots<L>, at: u32)
    requires { at < 16 }
    ensures { node_map L.entries L.bits slots.new
        ≡ node_map L.entries L.bits slots.old }
{
    if is_empty_child(slots.get(at)) {
        slots.clear(at);
    }
}

fn is_empty_child<V, L: Level<V>>(child: Option<&L>) -> bool
    ensures { result ≡ true → part L.entries (option_copied child.entry) ≡ [] }
{
    match child {
        Some(child) => child.is_empty(),
        None => true,
    }
}

/// Edits a node behind a shared pointer where it is, or a copy of it where others hold it.
pub(crate) fn edit_shared<V, L: Level<V>>(
    node: &mut Arc<L>,
    alloc: Global,
    edits: &[Edit<V>],
    shift: u32,
) -> Result<Tally, Memory>
    requires level { shift ≡ L.bits }
    requires small { shift ≤ 28 }
    ensures ok { IfOk result (λ t. IsEdited (block L.bits) (L.entries (arc_value node.old))
        (L.entries (arc_value node.new)) edits.now t.added t.removed) }
    ensures alone { length edits.now ≤ 1
        → OnErr result (L.entries (arc_value node.new) ≡ L.entries (arc_value node.old)) }
{
    match Arc::get_mut(node) {
        Some(own) => own.edit(alloc, edits, shift),
        None => {
            let mut copy = node.copy(alloc, edits.len())?;
            let tally = copy.edit(alloc, edits, shift)?;
            *node = Arc::new(alloc, copy)?;
            Ok(tally)
        }
    }
}

// The node to be shared, unless it is empty.
fn shared<V, L: Level<V>>(alloc: Global, node: L) -> Result<Option<Arc<L>>, Memory>
    ensures { IfOk result (λ o. part L.entries (option_map arc_value o) ≡ L.entries node) }
{
    if node.is_empty() {
        return Ok(None);
    }
    Ok(Some(Arc::new(alloc, node)?))
}
