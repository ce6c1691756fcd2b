//! Edits that a map has noted, by strictly rising key: they count before what its tree has.

ghost use Rattle.std.specs.Prelude.{◌≡◌, ◌+◌, ◌<◌, ◌≤◌, ◌++◌, [], true, IfOk, OnOk, OnErr, map, take};
ghost use Rattle.std.specs.Prelude.{drop, length, option_copied, option_map};
ghost use Rattle.std.specs.Arc.{arc_value};
ghost use Rattle.radix_map.specs.Entries.{value_at, entries_from, edited_within, leaf_map};
ghost use Rattle.radix_map.specs.Entries.{Counts, Rises, keys_end};
ghost use Rattle.radix_map.specs.Pending.{plain_edit};

use crate::leaf_edits::{move_value, share_value};
use crate::level::{Edit, Tally};
use crate::slots::Slots;
use grid_core::Memory;
use std::alloc::Global;
use std::marker::Model;
use std::sync::Arc;

/// Whether the keys rise strictly.
pub(crate) fn rise<V>(edits: &[Edit<V>]) -> bool
    ensures { result ≡ true → Rises 0 keys_end edits.now }
{
    let mut low: u64 = 0;
    for edit in edits {
        if u64::from(edit.0) < low {
            return false;
        }
        low = behind(edit.0);
    }
    true
}

// The least number above a key.
fn behind(key: u32) -> u64
    ensures value { result ≡ key + 1 }
    ensures within { result ≤ keys_end }
{
    u64::from(key) + 1
}

/// The edit of the key, if there is one.
#[inline(always)]
pub(crate) fn edit_at<V>(edits: &[Edit<V>], key: u32) -> Option<&Option<Arc<V>>>
    requires { Rises 0 keys_end edits.now }
    ensures { option_copied result ≡ value_at key edits.now }
{
    if edits.is_empty() {
        return None;
    }
    search(edits, key)
}

// The same, by halves.
fn search<V>(edits: &[Edit<V>], key: u32) -> Option<&Option<Arc<V>>>
    requires { Rises 0 keys_end edits.now }
    ensures { option_copied result ≡ value_at key edits.now }
{
    let edit = edits_from(edits, key).first()?;
    if edit.0 == key { Some(&edit.1) } else { None }
}

/// The edits whose key is at least `from`.
pub(crate) fn edits_from<V>(edits: &[Edit<V>], from: u32) -> &[Edit<V>]
    requires { Rises 0 keys_end edits.now }
    ensures { result.now ≡ entries_from from edits.now }
{
    &edits[edits.partition_point(|edit| edit.0 < from)..]
}

/// The value that an edit sets.
pub(crate) fn set_value<V>(value: &Option<Arc<V>>) -> Option<&V>
    ensures { option_copied result ≡ option_map arc_value value.now }
{
    match value {
        Some(value) => {
            let value: &V = value;
            Some(value)
        }
        None => None,
    }
}

/// Edits that a map has noted and not carried into its tree, by strictly rising key.
#[derive(Drop)]
pub(crate) struct Note<V> {
    edits: Vec<Edit<V>>,
    /// How many of them were carried: they have given their values away.
    done: usize,
}

impl<V> Model for Note<V> {
    ghost use Rattle.std.specs.Prelude.{ℕ, ◌≤◌, List, Option, length, drop};
    ghost use Rattle.std.specs.Global.{Global};
    ghost use Rattle.std.specs.declared.sync.Arc.{Arc};

    ghost Value = { List (ℕ × Option (Arc V Global)) };

    ghost view = { λ n. drop n.done n.edits.items };

    ghost invariant = { λ n. n.done ≤ length n.edits.items };
}

impl<V: Drop> Note<V> {
    pub(crate) fn empty(alloc: Global) -> Note<V>
        ensures { result ≡ [] }
    {
        Note {
            edits: Vec::new(alloc),
            done: 0,
        }
    }

    /// No edit is left to carry.
    #[inline(always)]
    pub(crate) fn is_empty(&self) -> bool
        ensures { result ≡ true → self.now ≡ [] }
    {
        self.rest().is_empty()
    }

    /// The edits that are not carried.
    #[inline(always)]
    pub(crate) fn rest(&self) -> &[Edit<V>]
        ensures { result.now ≡ self.now }
    {
        &self.edits[self.done..]
    }

    /// The first `count` of them are no longer noted.
    pub(crate) fn skip(&mut self, count: usize)
        requires { count ≤ length self.old }
        ensures { self.new ≡ drop count self.old }
    {
        self.done += count;
    }

    /// None is noted then. The room for them is kept.
    pub(crate) fn clear(&mut self)
        ensures { self.new ≡ [] }
    {
        self.edits.clear();
        self.done = 0;
    }

    /// Notes the edits where none are noted, and none of them after want of memory.
    pub(crate) fn note(&mut self, edits: &[Edit<V>]) -> Result<(), Memory>
        requires { self.old ≡ [] }
        ensures ok { OnOk result (map plain_edit self.new ≡ map plain_edit edits.now) }
        ensures err { OnErr result (self.new ≡ []) }
    {
        self.edits.clear();
        self.done = 0;
        match share_edits(&mut self.edits, edits) {
            Ok(()) => Ok(()),
            Err(refused) => {
                self.clear();
                Err(refused)
            }
        }
    }

    /// Moves what the first edit sets into a leaf, or removes its key. It stays noted after want of
    /// memory.
    pub(crate) fn carry_first(&mut self, slots: &mut Slots<V>) -> Result<Tally, Memory>
        requires some { 0 < length self.old }
        ensures ok { OnOk result (leaf_map slots.new
            ≡ edited_within 16 (leaf_map slots.old) (take 1 self.old)) }
        ensures rest { OnOk result (self.new ≡ drop 1 self.old) }
        ensures err { OnErr result (slots.new ≡ slots.old) }
        ensures kept { OnErr result (self.new ≡ self.old) }
        ensures counted { IfOk result (λ t. Counts (length (leaf_map slots.old))
            (length (leaf_map slots.new)) t.added t.removed) }
        ensures few { IfOk result (λ t. (t.added ≤ 1) × (t.removed ≤ 1)) }
    {
        let tally = move_value(slots, &mut self.edits[self.done])?;
        self.done += 1;
        Ok(tally)
    }
}

// Puts the edits, whose values are shared, behind those that are there.
fn share_edits<V: Drop>(to: &mut Vec<Edit<V>>, edits: &[Edit<V>]) -> Result<(), Memory>
    ensures { OnOk result (map plain_edit to.new.items
        ≡ map plain_edit to.old.items ++ map plain_edit edits.now) }
{
    to.reserve(edits.len())?;
    for edit in edits {
        to.push((edit.0, share_value(&edit.1)?))?;
    }
    Ok(())
}
