//! The new contents of a change's tiles, prepared for a version's map.

ghost use Rattle.std.specs.Prelude.{◌≡◌, ◌++◌, map, IfOk, OnOk, OnErr};
ghost use Rattle.std.specs.Arc.{arc_value};
ghost use Rattle.version_core.specs.Entries.{put_name};
ghost use Rattle.version_core.specs.Renewal.{plain_edit};
ghost use Rattle.version_core.specs.Stamps.{stamped, stamped_edit};

use crate::change::{Change, Edit};
use crate::entry::{Entry, TouchedTile};
use grid_core::{Memory, TileId};
use hot_tile::Tile;
use radix_map::Map;
use std::alloc::Global;
use std::marker::Model;
use std::sync::Arc;
use tile_keys::{name_key, tile_key};

/// One edit of a version's map.
type MapEdit = (u32, Option<Arc<Entry>>);

/// New contents of tiles, gathered one by one.
#[derive(Drop)]
pub struct NewTiles {
    alloc: Global,
    /// An edit for each tile. The change that they belong to has no number yet, so their stamps
    /// are 0.
    edits: Vec<MapEdit>,
}

impl Model for NewTiles {
    ghost use Rattle.std.specs.Prelude.{List, Option, map};
    ghost use Rattle.std.specs.List.{AllByRecursion};
    ghost use Rattle.grid_core.specs.declared.tile.TileId.{TileId};
    ghost use Rattle.hot_tile.specs.Tile.{TileContent};
    ghost use Rattle.version_core.specs.Renewal.{plain_edit, contents_put, PutsTile};

    ghost Value = { List (TileId × Option TileContent) };

    ghost view = { λ n. contents_put (map plain_edit n.edits.items) };

    ghost invariant = { λ n.
        AllByRecursion (λ e. PutsTile e.0 e.1) (map plain_edit n.edits.items) };
}

impl NewTiles {
    ghost use Rattle.std.specs.Prelude.{◌≡◌, ◌++◌, ◌∷◌, [], IfOk, OnOk, OnErr};
    ghost use Rattle.tile_law.specs.Laws.{IsTileInReach};

    /// No tile, and room for so many map edits: for each tile one, and one for each edit of a name.
    pub fn open(alloc: Global, room: usize) -> Result<NewTiles, Memory>
        ensures { IfOk result (λ n. n ≡ []) }
    {
        Ok(NewTiles {
            alloc,
            edits: Vec::with_capacity(alloc, room)?,
        })
    }

    /// Puts the new content of a tile behind the others.
    pub fn push(&mut self, id: TileId, tile: Option<Tile>) -> Result<(), Memory>
        requires { IsTileInReach id }
        ensures ok { OnOk result (self.new ≡ self.old ++ (id, tile) ∷ []) }
        ensures err { OnErr result (self.new ≡ self.old) }
    {
        let touched = TouchedTile { id, stamp: 0, tile };
        let entry = Arc::new(self.alloc, Entry::Touched(touched))?;
        self.edits.push((tile_key(id), Some(entry)))?;
        Ok(())
    }
}

/// What a change makes of a version: the new contents of its tiles, in any order, and how many
/// passes and spans it gains. It is prepared before the change has a number.
#[derive(Drop)]
pub struct Renewal {
    alloc: Global,
    change: Change,
    /// The edits of the tiles, and behind them those of the change's names.
    edits: Vec<MapEdit>,
    /// How many edits are those of tiles.
    tiles: usize,
    gain: i64,
    span_gain: i64,
}

impl Model for Renewal {
    ghost use Rattle.std.specs.Prelude.{map};
    ghost use Rattle.version_core.specs.Renewal.{Renewed, plain_edit, contents_put, AreMapEdits};

    ghost Value = { Renewed };

    ghost view = { λ r. record {
      change = r.change;
      contents = contents_put (map plain_edit r.edits.items);
      gain = r.gain;
      span_gain = r.span_gain;
    } };

    ghost invariant = { λ r. AreMapEdits r.tiles r.change.edits (map plain_edit r.edits.items) };
}

impl Renewal {
    ghost use Rattle.std.specs.Prelude.{◌≡◌, IfOk, OnOk, OnErr};
    ghost use Rattle.version_core.specs.Entries.{map_edits, after_map_edits};

    /// The renewal by this change, with these new contents of its tiles. The gains may be negative.
    pub fn of(tiles: NewTiles, change: Change, gain: i64, span_gain: i64) -> Result<Renewal, Memory>
        ensures { IfOk result (λ r. r ≡ record {
          change = change;
          contents = tiles;
          gain = gain;
          span_gain = span_gain;
        }) }
    {
        let alloc = tiles.alloc;
        let mut edits = tiles.edits;
        let tiles = edits.len();
        push_names(&mut edits, alloc, change.edits())?;
        Ok(Renewal {
            alloc,
            change,
            edits,
            tiles,
            gain,
            span_gain,
        })
    }

    /// The change.
    pub fn change(&self) -> &Change
        ensures { result.now ≡ self.now.change }
    {
        &self.change
    }

    /// The change alone.
    pub fn into_change(self) -> Change
        ensures { result ≡ self.change }
    {
        self.change
    }

    /// How many passes the change gains: negative where there are fewer after it.
    pub fn gain(&self) -> i64
        ensures { result ≡ self.now.gain }
    {
        self.gain
    }

    /// How many pairs of a segment and a tile that it meets the change gains: negative where there
    /// are fewer after it.
    pub fn span_gain(&self) -> i64
        ensures { result ≡ self.now.span_gain }
    {
        self.span_gain
    }

    /// The same renewal, in memory of its own.
    pub fn copy(&self) -> Result<Renewal, Memory>
        ensures { IfOk result (λ r. r ≡ self.now) }
    {
        Ok(Renewal {
            alloc: self.alloc,
            change: self.change.copy()?,
            edits: copy_edits(self.alloc, &self.edits)?,
            tiles: self.tiles,
            gain: self.gain,
            span_gain: self.span_gain,
        })
    }

    /// Puts the new contents and the edits of names into a version's entries, all at once, as those
    /// of the change with this number. After want of memory the entries are as before.
    pub(crate) fn edit(&mut self, entries: &mut Map<Entry>, number: u32) -> Result<(), Memory>
        ensures ok { OnOk result (entries.new ≡ after_map_edits entries.old
            (map_edits number self.old.contents self.old.change.edits)) }
        ensures err { OnErr result (entries.new ≡ entries.old) }
        ensures same { self.new ≡ self.old }
    {
        stamp_edits(&mut self.edits, self.alloc, number)?;
        entries.edit_all(&self.edits)
    }
}

/// Puts a map edit for each edit of names behind the others.
fn push_names(edits: &mut Vec<MapEdit>, alloc: Global, changes: &[Edit]) -> Result<(), Memory>
    ensures { OnOk result (map plain_edit edits.new.items
        ≡ map plain_edit edits.old.items ++ map put_name changes.now) }
{
    for change in changes {
        edits.push(name_edit(alloc, change)?)?;
    }
    Ok(())
}

/// The map edit by which a segment comes, or goes.
fn name_edit(alloc: Global, edit: &Edit) -> Result<MapEdit, Memory>
    ensures { IfOk result (λ e. plain_edit e ≡ put_name edit.now) }
{
    match edit {
        Edit::Insert(s) => {
            let entry = Arc::new(alloc, Entry::Live(*s))?;
            Ok((name_key(s.name()), Some(entry)))
        }
        Edit::Delete(s) => Ok((name_key(s.name()), None)),
    }
}

/// Map edits with the same entries, each in memory of its own.
fn copy_edits(alloc: Global, edits: &[MapEdit]) -> Result<Vec<MapEdit>, Memory>
    ensures { IfOk result (λ es. map plain_edit es.items ≡ map plain_edit edits.now) }
{
    let mut copied = Vec::with_capacity(alloc, edits.len())?;
    for edit in edits {
        copied.push(copy_edit(alloc, edit)?)?;
    }
    Ok(copied)
}

fn copy_edit(alloc: Global, edit: &MapEdit) -> Result<MapEdit, Memory>
    ensures { IfOk result (λ e. plain_edit e ≡ plain_edit edit.now) }
{
    match &edit.1 {
        Some(entry) => Ok((edit.0, Some(Arc::new(alloc, entry.copy()?)?))),
        None => Ok((edit.0, None)),
    }
}

/// Sets the stamps of the tiles. After want of memory some of them may be set.
fn stamp_edits(edits: &mut Vec<MapEdit>, alloc: Global, number: u32) -> Result<(), Memory>
    ensures ok { OnOk result (map plain_edit edits.new.items
        ≡ map (stamped_edit number) (map plain_edit edits.old.items)) }
    ensures always { map (stamped_edit 0) (map plain_edit edits.new.items)
        ≡ map (stamped_edit 0) (map plain_edit edits.old.items) }
{
    for i in 0..edits.len() {
        stamp_edit(&mut edits[i], alloc, number)?;
    }
    Ok(())
}

fn stamp_edit(edit: &mut MapEdit, alloc: Global, number: u32) -> Result<(), Memory>
    ensures ok { OnOk result (plain_edit edit.new ≡ stamped_edit number (plain_edit edit.old)) }
    ensures err { OnErr result (plain_edit edit.new ≡ plain_edit edit.old) }
{
    match &mut edit.1 {
        Some(entry) => stamp_entry(entry, alloc, number),
        None => Ok(()),
    }
}

/// Sets the stamp where the entry is, or of a copy where others hold it.
fn stamp_entry(entry: &mut Arc<Entry>, alloc: Global, number: u32) -> Result<(), Memory>
    ensures ok { OnOk result (arc_value entry.new ≡ stamped number (arc_value entry.old)) }
    ensures err { OnErr result (arc_value entry.new ≡ arc_value entry.old) }
{
    match Arc::get_mut(entry) {
        Some(own) => own.stamp(number),
        None => {
            let mut own = entry.copy()?;
            own.stamp(number);
            *entry = Arc::new(alloc, own)?;
        }
    }
    Ok(())
}
