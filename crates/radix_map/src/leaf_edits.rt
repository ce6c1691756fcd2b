//! How an edit changes the slots of a leaf: its value is shared, or moves there.

ghost use Rattle.std.specs.Prelude.{◌≡◌, ◌%◌, ◌<◌, ◌≤◌, length, option_map, slice_set};
ghost use Rattle.std.specs.Prelude.{IfOk, OnOk, OnErr, cond, not, ◌&&◌};
ghost use Rattle.std.specs.Arc.{arc_value};
ghost use Rattle.radix_map.specs.Entries.{edited, leaf_map, Counts, keys_end};

use crate::level::{Edit, Tally};
use crate::slots::Slots;
use grid_core::Memory;
use std::sync::Arc;

/// Sets or removes a value of a leaf, which others may hold as well.
pub(crate) fn edit_value<V: Drop>(
    slots: &mut Slots<V>,
    key: u32,
    value: &Option<Arc<V>>,
) -> Result<Tally, Memory>
    ensures ok { OnOk result (leaf_map slots.new
        ≡ edited (leaf_map slots.old) (key % 16) (option_map arc_value value.now)) }
    ensures err { OnErr result (slots.new ≡ slots.old) }
    ensures counted { IfOk result (λ t. Counts (length (leaf_map slots.old))
        (length (leaf_map slots.new)) t.added t.removed) }
    ensures few { IfOk result (λ t. (t.added ≤ 1) × (t.removed ≤ 1)) }
    ensures fits { key < keys_end }
{
    let mut own = (key, share_value(value)?);
    move_value(slots, &mut own)
}

pub(crate) fn share_value<V: Drop>(value: &Option<Arc<V>>) -> Result<Option<Arc<V>>, Memory>
    ensures { IfOk result (λ o. option_map arc_value o ≡ option_map arc_value value.now) }
{
    match value {
        Some(value) => Ok(Some(Arc::try_clone(value)?)),
        None => Ok(None),
    }
}

/// Moves the value that an edit sets into a leaf's slots, or removes its key. After want of memory
/// both are as before.
#[inline(always)]
pub(crate) fn move_value<V: Drop>(slots: &mut Slots<V>, edit: &mut Edit<V>) -> Result<Tally, Memory>
    ensures ok { OnOk result (leaf_map slots.new
        ≡ edited (leaf_map slots.old) (edit.old.0 % 16) (option_map arc_value edit.old.1)) }
    ensures err { OnErr result (slots.new ≡ slots.old) }
    ensures kept { OnErr result (edit.new ≡ edit.old) }
    ensures counted { IfOk result (λ t. Counts (length (leaf_map slots.old))
        (length (leaf_map slots.new)) t.added t.removed) }
    ensures few { IfOk result (λ t. (t.added ≤ 1) × (t.removed ≤ 1)) }
{
    let at = edit.0 & 15;
    let is_taken = slots.get(at).is_some();
    let is_set = edit.1.is_some();
    move_item(slots, at, &mut edit.1)?;
    Ok(Tally {
        added: one_if(is_set, is_taken),
        removed: one_if(is_taken, is_set),
    })
}

// 1 where only the first holds.
fn one_if(is: bool, other: bool) -> usize
    ensures { result ≡ cond (is && not other) 1 0 }
{
    usize::from(is && !other)
}

// Slot `at` has the item then, and is free where there is none. Want of memory leaves both.
#[inline(always)]
fn move_item<T: Drop>(
    slots: &mut Slots<T>,
    at: u32,
    item: &mut Option<Arc<T>>,
) -> Result<(), Memory>
    requires { at < 16 }
    ensures ok { OnOk result
        (slots.new ≡ slice_set slots.old at (option_map arc_value item.old)) }
    ensures err { OnErr result (slots.new ≡ slots.old) }
    ensures kept { OnErr result (item.new ≡ item.old) }
{
    match item.take() {
        Some(taken) => match slots.fill(at, taken) {
            Ok(()) => Ok(()),
            Err(failed) => {
                *item = Some(failed.value);
                Err(Memory)
            }
        },
        None => {
            slots.clear(at);
            Ok(())
        }
    }
}
