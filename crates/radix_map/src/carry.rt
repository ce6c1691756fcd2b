//! How noted edits are carried into the children of a node.

ghost use Rattle.std.specs.Prelude.{◌≡◌, ◌+◌, ◌^◌, ◌<◌, ◌≤◌, length, take, drop};
ghost use Rattle.std.specs.Prelude.{IfOk, OnOk, OnErr, IsSome, None};
ghost use Rattle.std.specs.Arc.{arc_value};
ghost use Rattle.radix_map.specs.Slots.{item_at};
ghost use Rattle.radix_map.specs.Entries.{edited_within, node_map, block, InSlot, Counts};
ghost use Rattle.radix_map.specs.Pending.{IsCarried};

use crate::level::{Level, Tally, drop_empty};
use crate::pending::Note;
use crate::slots::Slots;
use grid_core::Memory;
use std::alloc::Global;
use std::sync::Arc;

/// Carries the next `count` noted edits, which all go to slot `at`, into the child there, or into a
/// new one where there is none.
pub(crate) fn carry_run<V: Drop, L: Level<V>>(
    slots: &mut Slots<L>,
    alloc: Global,
    at: u32,
    note: &mut Note<V>,
    count: usize,
    shift: u32,
) -> Result<Tally, Memory>
    requires level { shift ≡ L.bits + 4 }
    requires small { shift ≤ 28 }
    requires at { at < 16 }
    requires count { count ≤ length note.old }
    requires run { InSlot (2 ^ shift) at (take count note.old) }
    ensures ok { OnOk result (node_map L.entries L.bits slots.new ≡ edited_within
        (block (L.bits + 4)) (node_map L.entries L.bits slots.old) (take count note.old)) }
    ensures rest { OnOk result (note.new ≡ drop count note.old) }
    ensures err { OnErr result (IsCarried (block (L.bits + 4))
        (node_map L.entries L.bits slots.old) (node_map L.entries L.bits slots.new)
        count note.old note.new) }
    ensures counted { IfOk result (λ t. Counts (length (node_map L.entries L.bits slots.old))
        (length (node_map L.entries L.bits slots.new)) t.added t.removed) }
    ensures few { IfOk result (λ t. (t.added ≤ count) × (t.removed ≤ count)) }
{
    open_slot(slots, alloc, at, count)?;
    let carried = slots.carry_child(alloc, at, note, count, shift);
    drop_empty(slots, at);
    carried
}

// Slot `at` has a child then: an empty one where it was free, with room for `more` items.
fn open_slot<V, L: Level<V>>(
    slots: &mut Slots<L>,
    alloc: Global,
    at: u32,
    more: usize,
) -> Result<(), Memory>
    requires at { at < 16 }
    ensures same { node_map L.entries L.bits slots.new ≡ node_map L.entries L.bits slots.old }
    ensures taken { OnOk result (IsSome (item_at slots.new at)) }
{
    if slots.get(at).is_some() {
        Ok(())
    } else {
        fill_empty(slots, alloc, at, more)
    }
}

// Puts an empty child in a free slot.
fn fill_empty<V, L: Level<V>>(
    slots: &mut Slots<L>,
    alloc: Global,
    at: u32,
    more: usize,
) -> Result<(), Memory>
    requires at { at < 16 }
    requires free { item_at slots.old at ≡ None }
    requires wide { length slots.old ≡ 16 }
    ensures same { node_map L.entries L.bits slots.new ≡ node_map L.entries L.bits slots.old }
    ensures taken { OnOk result (IsSome (item_at slots.new at)) }
{
    // A copy of the empty node has the room.
    let child = L::empty(alloc).copy(alloc, more)?;
    slots.put(at, Some(Arc::new(alloc, child)?))?;
    Ok(())
}

/// Carries the next `count` noted edits into a node behind a shared pointer where it is, or into a
/// copy of it where others hold it.
pub(crate) fn carry_shared<V: Drop, L: Level<V>>(
    node: &mut Arc<L>,
    alloc: Global,
    note: &mut Note<V>,
    count: usize,
    shift: u32,
) -> Result<Tally, Memory>
    requires level { shift ≡ L.bits }
    requires small { shift ≤ 28 }
    requires count { count ≤ length note.old }
    ensures ok { OnOk result (L.entries (arc_value node.new)
        ≡ edited_within (block L.bits) (L.entries (arc_value node.old)) (take count note.old)) }
    ensures rest { OnOk result (note.new ≡ drop count note.old) }
    ensures err { OnErr result (IsCarried (block L.bits) (L.entries (arc_value node.old))
        (L.entries (arc_value node.new)) count note.old note.new) }
    ensures counted { IfOk result (λ t. Counts (length (L.entries (arc_value node.old)))
        (length (L.entries (arc_value node.new))) t.added t.removed) }
    ensures few { IfOk result (λ t. (t.added ≤ count) × (t.removed ≤ count)) }
{
    match Arc::get_mut(node) {
        Some(own) => own.carry(alloc, note, count, shift),
        None => {
            let mut copy = node.copy(alloc, count)?;
            let tally = copy.edit(alloc, &note.rest()[..count], shift)?;
            *node = Arc::new(alloc, copy)?;
            note.skip(count);
            Ok(tally)
        }
    }
}
