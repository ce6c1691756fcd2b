//! The sixteen slots of a node: a digit for each, and the items of the taken ones in order.

ghost use Rattle.std.specs.Prelude.{◌≡◌, ℕ, ◌+◌, ◌/◌, ◌^◌, ◌<◌, ◌≤◌, ◌++◌, map, length, replicate};
ghost use Rattle.std.specs.Prelude.{slice_set, IfNone, IfSome, IsSome, IfOk, IfErr, OnOk, OnErr, Some, None};
ghost use Rattle.std.specs.Prelude.{option_copied, option_map, true, take, drop};
ghost use Rattle.std.specs.Arc.{arc_value};
ghost use Rattle.std.specs.Int.{bit_at};
ghost use Rattle.radix_map.specs.Entries.{edited_within, node_map, block, InSlot, IsEdited, Counts};
ghost use Rattle.radix_map.specs.Pending.{IsCarried};
ghost use Rattle.radix_map.specs.Slots.{item_at, taken, digit_of, Replaces, IsNext, IsNextDigit};

use crate::carry::carry_shared;
use crate::level::{Edit, Level, Tally, edit_shared};
use crate::pending::Note;
use grid_core::Memory;
use std::alloc::{AllocFailed, Global};
use std::marker::Model;
use std::sync::Arc;

/// Sixteen slots, each free or taken by a shared item.
#[derive(Drop)]
pub(crate) struct Slots<T> {
    digits: u16,
    items: Vec<Arc<T>>,
}

impl<T> Model for Slots<T> {
    ghost use Rattle.std.specs.Prelude.{◌≡◌, List, Option, map, length};
    ghost use Rattle.std.specs.Arc.{arc_value};
    ghost use Rattle.radix_map.specs.Slots.{slots_of, taken};

    ghost Value = { List (Option T) };

    ghost view = { λ p. slots_of 16 p.digits (map arc_value p.items.items) };

    ghost invariant = { λ p. length p.items.items ≡ taken 16 p.digits };
}

impl<T> Slots<T> {
    /// No slot is taken.
    pub(crate) fn empty(alloc: Global) -> Slots<T>
        ensures { result ≡ replicate 16 None }
    {
        Slots {
            digits: 0,
            items: Vec::new(alloc),
        }
    }

    /// The item at slot `at`.
    #[inline(always)]
    pub(crate) fn get(&self, at: u32) -> Option<&T>
        requires { at < 16 }
        ensures value { option_copied result ≡ item_at self.now at }
        ensures wide { length self.now ≡ 16 }
    {
        if digit(self.digits, at) == 0 {
            return None;
        }
        let item: &T = &self.items[rank(self.digits, at)];
        Some(item)
    }

    /// The first item at or behind slot `at`, and its slot.
    #[inline(always)]
    pub(crate) fn next(&self, at: u32) -> Option<(u32, &T)>
        requires { at ≤ 16 }
        ensures none { IfNone result
            ((k : ℕ) → at ≤ k → k < 16 → item_at self.now k ≡ None) }
        ensures some { IfSome result (λ p. IsNext self.now at p.0 p.1.now) }
        ensures wide { length self.now ≡ 16 }
    {
        match next_taken(self.digits, at) {
            Some(n) => {
                let item: &T = &self.items[rank(self.digits, n)];
                Some((n, item))
            }
            None => None,
        }
    }
}

impl<T: Drop> Slots<T> {
    /// A copy that shares the items, with room for up to `more` of them.
    pub(crate) fn copy(&self, alloc: Global, more: usize) -> Result<Slots<T>, Memory>
        ensures { IfOk result (λ p. p ≡ self.now) }
    {
        let room = self.items.len().saturating_add(more).min(16);
        let mut items = Vec::with_capacity(alloc, room)?;
        share(&mut items, &self.items)?;
        Ok(Slots {
            digits: self.digits,
            items,
        })
    }

    /// No slot is taken.
    pub(crate) fn is_empty(&self) -> bool
        ensures { result ≡ true → self.now ≡ replicate 16 None }
    {
        self.digits == 0
    }

    /// Slot `at` has `item` then, and is free where there is none.
    pub(crate) fn put(&mut self, at: u32, item: Option<Arc<T>>) -> Result<(), Memory>
        requires { at < 16 }
        ensures ok { OnOk result (self.new ≡ slice_set self.old at (option_map arc_value item)) }
        ensures err { OnErr result (self.new ≡ self.old) }
    {
        match item {
            Some(item) => Ok(self.fill(at, item)?),
            None => {
                self.clear(at);
                Ok(())
            }
        }
    }

    /// Edits the child at slot `at`, which all edits go to, where it is, or a copy of it where
    /// others hold it.
    pub(crate) fn edit_child<V>(
        &mut self,
        alloc: Global,
        at: u32,
        run: &[Edit<V>],
        shift: u32,
    ) -> Result<Tally, Memory>
    where
        T: Level<V>,
        requires level { shift ≡ T.bits + 4 }
        requires small { shift ≤ 28 }
        requires at { at < 16 }
        requires taken { IsSome (item_at self.old at) }
        requires run { InSlot (2 ^ shift) at run.now }
        ensures ok { IfOk result (λ t. IsEdited (block (T.bits + 4))
            (node_map T.entries T.bits self.old) (node_map T.entries T.bits self.new)
            run.now t.added t.removed) }
        ensures alone { length run.now ≤ 1 → OnErr result (node_map T.entries T.bits self.new
            ≡ node_map T.entries T.bits self.old) }
    {
        let low = rank(self.digits, at);
        edit_shared(&mut self.items[low], alloc, run, shift - 4)
    }

    /// Carries the next `count` noted edits, which all go to slot `at`, into the child there where
    /// it is, or into a copy of it where others hold it.
    pub(crate) fn carry_child<V: Drop>(
        &mut self,
        alloc: Global,
        at: u32,
        note: &mut Note<V>,
        count: usize,
        shift: u32,
    ) -> Result<Tally, Memory>
    where
        T: Level<V>,
        requires level { shift ≡ T.bits + 4 }
        requires small { shift ≤ 28 }
        requires at { at < 16 }
        requires taken { IsSome (item_at self.old at) }
        requires count { count ≤ length note.old }
        requires run { InSlot (2 ^ shift) at (take count note.old) }
        ensures ok { OnOk result (node_map T.entries T.bits self.new ≡ edited_within
            (block (T.bits + 4)) (node_map T.entries T.bits self.old) (take count note.old)) }
        ensures rest { OnOk result (note.new ≡ drop count note.old) }
        ensures err { OnErr result (IsCarried (block (T.bits + 4))
            (node_map T.entries T.bits self.old) (node_map T.entries T.bits self.new)
            count note.old note.new) }
        ensures counted { IfOk result (λ t. Counts (length (node_map T.entries T.bits self.old))
            (length (node_map T.entries T.bits self.new)) t.added t.removed) }
        ensures few { IfOk result (λ t. (t.added ≤ count) × (t.removed ≤ count)) }
    {
        let low = rank(self.digits, at);
        carry_shared(&mut self.items[low], alloc, note, count, shift - 4)
    }

    /// Slot `at` has `item` then. Want of memory gives it back.
    pub(crate) fn fill(&mut self, at: u32, item: Arc<T>) -> Result<(), AllocFailed<Arc<T>>>
        requires { at < 16 }
        ensures ok { OnOk result (self.new ≡ slice_set self.old at (Some (arc_value item))) }
        ensures err { OnErr result (self.new ≡ self.old) }
        ensures returned { IfErr result (λ e. e.value ≡ item) }
    {
        let low = rank(self.digits, at);
        if digit(self.digits, at) == 0 {
            self.items.insert(low, item)?;
            self.digits = marked(self.digits, at, true);
            return Ok(());
        }
        self.items[low] = item;
        Ok(())
    }

    /// Slot `at` is free then.
    pub(crate) fn clear(&mut self, at: u32)
        requires { at < 16 }
        ensures { self.new ≡ slice_set self.old at None }
    {
        let low = rank(self.digits, at);
        if digit(self.digits, at) == 0 {
            return;
        }
        self.items.remove(low);
        self.digits = marked(self.digits, at, false);
    }
}

// 1 where slot `at` is taken, and 0 where it is free.
#[inline(always)]
fn digit(digits: u16, at: u32) -> u16
    requires { at < 16 }
    ensures { result ≡ bit_at digits at }
{
    digits >> at & 1
}

// The first taken slot at or behind `at`.
#[inline(always)]
fn next_taken(digits: u16, at: u32) -> Option<u32>
    requires { at ≤ 16 }
    ensures none { IfNone result (digits / 2 ^ at ≡ 0) }
    ensures some { IfSome result (IsNextDigit digits at) }
{
    let higher = u32::from(digits) >> at;
    if higher == 0 {
        None
    } else {
        Some(at + higher.trailing_zeros())
    }
}

// How many slots below `at` are taken.
#[inline(always)]
fn rank(digits: u16, at: u32) -> usize
    requires { at < 16 }
    ensures value { result ≡ taken at digits }
    ensures within { result + bit_at digits at ≤ taken 16 digits }
    ensures small { taken 16 digits ≤ 16 }
{
    (digits & ((1 << at) - 1)).count_ones() as usize
}

// The digits with that of slot `at` set where it is taken, and cleared where it is free.
#[inline(always)]
fn marked(digits: u16, at: u32, is_taken: bool) -> u16
    requires { at < 16 }
    ensures { Replaces at (bit_at digits at) (digit_of is_taken) digits result }
{
    if is_taken {
        digits | 1 << at
    } else {
        digits & !(1 << at)
    }
}

// Puts the items of `from`, shared, behind those of `to`.
fn share<T: Drop>(to: &mut Vec<Arc<T>>, from: &[Arc<T>]) -> Result<(), Memory>
    ensures { OnOk result (map arc_value to.new.items
        ≡ map arc_value to.old.items ++ map arc_value from.now) }
{
    for item in from {
        to.push(Arc::try_clone(item)?)?;
    }
    Ok(())
}
