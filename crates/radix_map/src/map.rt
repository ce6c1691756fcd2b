//! The map: the root of its tree, the edits that it has noted, and the number of its entries.

ghost use Rattle.std.specs.Prelude.{◌≡◌, ◌≤◌, [], IfOk, OnOk, OnErr, option_copied, length, map};
ghost use Rattle.std.specs.Arc.{arc_value};
ghost use Rattle.radix_map.specs.Entries.{value_at, with_key, without_key, edited_all, entries_from};
ghost use Rattle.radix_map.specs.Entries.{Rises, keys_end};
ghost use Rattle.radix_map.specs.Levels.{root_entries};

use crate::entries::Entries;
use crate::find::FindAll;
use crate::level::{Edit, Level};
use crate::levels::{ROOT_SHIFT, Root};
use crate::pending::{Note, edit_at, rise, set_value};
use grid_core::Memory;
use std::alloc::Global;
use std::marker::Model;
use std::sync::Arc;

/// A finite map from `u32` keys to shared values. Maps that were made of one another share what
/// they have in common, and none of them changes by what becomes of another.
#[derive(Drop)]
pub struct Map<V> {
    alloc: Global,
    /// How many entries it has, with the edits that are noted.
    len: usize,
    root: Root<V>,
    /// Edits that the tree lacks, by strictly rising key. They count before what it has. There are
    /// none but where want of memory stopped `edit_all` on its way through the tree.
    pending: Note<V>,
}

impl<V> Model for Map<V> {
    ghost use Rattle.std.specs.Prelude.{ℕ, List};
    ghost use Rattle.radix_map.specs.Entries.{edited_all};
    ghost use Rattle.radix_map.specs.Levels.{root_entries};
    ghost use Rattle.radix_map.specs.Map.{IsKept};

    ghost Value = { List (ℕ × V) };

    ghost view = { λ m. edited_all (root_entries m.root) m.pending };

    ghost invariant = { λ m. IsKept m.len m.root m.pending };
}

impl<V: Drop> Map<V> {
    /// The empty map. It takes no memory.
    pub fn open(alloc: Global) -> Map<V>
        ensures { result ≡ [] }
    {
        Map {
            alloc,
            len: 0,
            root: Level::empty(alloc),
            pending: Note::empty(alloc),
        }
    }

    /// The value at the key.
    pub fn get(&self, key: u32) -> Option<&V>
        ensures value { option_copied result ≡ value_at key self.now }
        ensures kept { Rises 0 keys_end self.now }
    {
        match edit_at(self.pending.rest(), key) {
            Some(value) => set_value(value),
            None => self.root.get(key, ROOT_SHIFT),
        }
    }

    /// How many entries it has.
    pub fn len(&self) -> usize
        ensures value { result ≡ length self.now }
        ensures kept { Rises 0 keys_end self.now }
    {
        self.len
    }

    /// The entries by rising key.
    pub fn entries(&self) -> Entries<'_, V>
        ensures value { result ≡ self.now }
        ensures kept { Rises 0 keys_end self.now }
    {
        self.entries_from(0)
    }

    /// The entries whose key is at least `from`, by rising key. One way down the tree leads to the
    /// first of them, however many lie before it.
    pub fn entries_from(&self, from: u32) -> Entries<'_, V>
        ensures value { result ≡ entries_from from self.now }
        ensures kept { Rises 0 keys_end self.now }
    {
        Entries::of(&self.root, self.pending.rest(), from)
    }

    /// The values at the keys, in their order: `None` where the map has none. It is cheapest where
    /// the keys rise, since then each node is entered once.
    pub fn find_all<'a, 'k>(&'a self, keys: &'k [u32]) -> FindAll<'a, 'k, V>
        ensures { result ≡ map (λ k. value_at k self.now) keys.now }
    {
        FindAll::of(&self.root, self.pending.rest(), keys)
    }

    /// The map with the key set to the value.
    pub fn with(&self, key: u32, value: Arc<V>) -> Result<Map<V>, Memory>
        ensures value { IfOk result (λ m. m ≡ with_key self.now key (arc_value value)) }
        ensures kept { IfOk result (λ m. Rises 0 keys_end m) }
    {
        self.with_all(&[(key, Some(value))])
    }

    /// The map without the key.
    pub fn without(&self, key: u32) -> Result<Map<V>, Memory>
        ensures value { IfOk result (λ m. m ≡ without_key self.now key) }
        ensures kept { IfOk result (λ m. Rises 0 keys_end m) }
    {
        self.with_all(&[(key, None)])
    }

    /// The map after each edit in turn: `Some` sets its key, and `None` removes it. It is cheapest
    /// where the keys rise, since then each node is copied once.
    pub fn with_all(&self, edits: &[(u32, Option<Arc<V>>)]) -> Result<Map<V>, Memory>
        ensures value { IfOk result (λ m. m ≡ edited_all self.now edits.now) }
        ensures kept { IfOk result (λ m. Rises 0 keys_end m) }
    {
        let mut root = self.root.copy(self.alloc, edits.len())?;
        // What is noted comes first, and is part of `len` already.
        root.edit(self.alloc, self.pending.rest(), ROOT_SHIFT)?;
        let tally = root.edit(self.alloc, edits, ROOT_SHIFT)?;
        Ok(Map {
            alloc: self.alloc,
            len: self.len + tally.added - tally.removed,
            root,
            pending: Note::empty(self.alloc),
        })
    }

    /// Each edit in turn, in place of this map: `Some` sets its key, and `None` removes it. Where
    /// the keys rise strictly, each node that nobody else holds is changed where it is. Maps that
    /// share nodes with this one stay as they are, and where the answer is `Memory` this one does
    /// too. Where memory is wanting only once the edits are noted, the answer is `Ok`, and the next
    /// call carries on.
    pub fn edit_all(&mut self, edits: &[(u32, Option<Arc<V>>)]) -> Result<(), Memory>
        ensures ok { OnOk result (self.new ≡ edited_all self.old edits.now) }
        ensures err { OnErr result (self.new ≡ self.old) }
    {
        self.carry_noted();
        match edits {
            [_] => self.edit_alone(edits),
            _ => self.edit_noted(edits),
        }
    }

    // Carries the edits that are noted into the tree, as far as memory reaches.
    fn carry_noted(&mut self)
        ensures { self.new ≡ self.old }
    {
        if self.pending.is_empty() {
            return;
        }
        let noted = self.pending.rest().len();
        let carried = self
            .root
            .carry(self.alloc, &mut self.pending, noted, ROOT_SHIFT);
        match carried {
            Ok(_) => self.pending.clear(),
            Err(_) => {}
        }
    }

    // One edit needs no note: it is carried into the tree, or leaves it.
    fn edit_alone(&mut self, edit: &[Edit<V>]) -> Result<(), Memory>
        requires { length edit.now ≤ 1 }
        ensures ok { OnOk result (self.new ≡ edited_all self.old edit.now) }
        ensures err { OnErr result (self.new ≡ self.old) }
    {
        if !self.pending.is_empty() {
            *self = self.with_all(edit)?;
            return Ok(());
        }
        let tally = self.root.edit(self.alloc, edit, ROOT_SHIFT)?;
        self.len = self.len + tally.added - tally.removed;
        Ok(())
    }

    // Once the edits are noted, the map has them, however far they come in the tree.
    fn edit_noted(&mut self, edits: &[Edit<V>]) -> Result<(), Memory>
        ensures ok { OnOk result (self.new ≡ edited_all self.old edits.now) }
        ensures err { OnErr result (self.new ≡ self.old) }
    {
        if !self.pending.is_empty() || !rise(edits) {
            *self = self.with_all(edits)?;
            return Ok(());
        }
        self.pending.note(edits)?;
        let noted = self.pending.rest().len();
        let carried = self
            .root
            .carry(self.alloc, &mut self.pending, noted, ROOT_SHIFT);
        match carried {
            Ok(tally) => {
                self.pending.clear();
                self.len = self.len + tally.added - tally.removed;
            }
            Err(_) => self.len = count(&self.root, self.pending.rest()),
        }
        Ok(())
    }
}

// How many entries a tree has after edits.
fn count<V: Drop>(root: &Root<V>, edits: &[Edit<V>]) -> usize
    requires { Rises 0 keys_end edits.now }
    ensures { result ≡ length (edited_all (root_entries root.now) edits.now) }
{
    Entries::of(root, edits, 0).count()
}
