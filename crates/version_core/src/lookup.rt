//! What stands in a version's map: a tile under its key, a segment under its name's, many tiles in
//! one walk, and the live list behind the first key of a name.

ghost use Rattle.std.specs.Prelude.{◌≡◌, ◌↔◌, ◌∷◌, map, IfOk, IsTrue, None, Option, List};
ghost use Rattle.std.specs.Prelude.{IsPermutation, option_copied};
ghost use Rattle.std.specs.List.{AllByRecursion};
ghost use Rattle.grid_core.specs.Name.{IsLabel};
ghost use Rattle.tile_law.specs.Laws.{IsTileInReach};
ghost use Rattle.radix_map.specs.Entries.{value_at, entries_from};
ghost use Rattle.version_core.specs.declared.entry.Entry.{Entry};
ghost use Rattle.version_core.specs.Entries.{touched_found, live_found, content_found};
ghost use Rattle.version_core.specs.Entries.{live_in, stamps_in};
ghost use Rattle.tile_keys.specs.Keys.{tile_key, name_key, first_name_key};
ghost use Rattle.version_core.specs.Parts.{with_key, part_under, copied_part};
ghost use Rattle.version_core.specs.Version.{stamped_after};

use crate::entry::{Entry, TouchedTile};
use grid_core::{Memory, Name, TileId, Ur};
use hot_tile::Tile;
use radix_map::{FindAll, Map};
use std::alloc::Global;
use tile_keys::{FIRST_NAME_KEY, name_key, tile_key};

/// What stands under the tile's key. `None` where no change touched it, and so for each tile out of
/// reach.
pub(crate) fn touched_of(entries: &Map<Entry>, id: TileId) -> Option<&TouchedTile>
    ensures within { IsTileInReach id
        → option_copied result ≡ touched_found (value_at (tile_key id) entries.now) }
    ensures beyond { (¬ IsTileInReach id) → option_copied result ≡ None }
{
    if !is_in_reach(id) {
        return None;
    }
    match entries.get(tile_key(id))? {
        Entry::Touched(touched) => Some(touched),
        Entry::Live(_) => None,
    }
}

/// Whether the column and the row of the tile are at most 16,384 in size.
fn is_in_reach(id: TileId) -> bool
    ensures { IsTrue result ↔ IsTileInReach id }
{
    id.i.unsigned_abs() <= 16384 && id.j.unsigned_abs() <= 16384
}

/// The live segment under the name's key.
pub(crate) fn live_of(entries: &Map<Entry>, name: Name) -> Option<&Ur>
    ensures value { option_copied result ≡ live_found (value_at (name_key name) entries.now) }
    ensures kept { IsLabel name }
{
    match entries.get(name_key(name))? {
        Entry::Live(s) => Some(s),
        Entry::Touched(_) => None,
    }
}

/// The live list of these entries, `count` segments or so.
pub(crate) fn live_list(
    alloc: Global,
    count: usize,
    entries: &Map<Entry>,
) -> Result<Vec<Ur>, Memory>
    ensures { IfOk result
        (λ live. live.items ≡ live_in (entries_from first_name_key entries.now)) }
{
    let mut live = Vec::with_capacity(alloc, count)?;
    for (_, entry) in entries.entries_from(FIRST_NAME_KEY) {
        if let Entry::Live(s) = entry {
            live.push(*s)?;
        }
    }
    Ok(live)
}

/// The tiles of these entries whose stamp is above a number, by key.
pub(crate) fn stamped_after(
    alloc: Global,
    number: u32,
    entries: &Map<Entry>,
) -> Result<Vec<TileId>, Memory>
    ensures { IfOk result (λ ids. ids.items ≡ stamped_after (stamps_in entries.now) number) }
{
    let mut ids = Vec::new(alloc);
    for (_, entry) in entries.entries() {
        if let Entry::Touched(touched) = entry
            && touched.stamp > number
        {
            ids.push(touched.id)?;
        }
    }
    Ok(ids)
}

/// Tiles with their keys, by rising key.
pub(crate) fn by_key(alloc: Global, ids: &[TileId]) -> Result<Vec<(u32, TileId)>, Memory>
    requires { AllByRecursion IsTileInReach ids.now }
    ensures { IfOk result (λ placed. IsPermutation (map with_key ids.now) placed.items) }
{
    let mut placed = Vec::with_capacity(alloc, ids.len())?;
    for id in ids {
        placed.push((tile_key(*id), *id))?;
    }
    placed.sort_unstable_by_key(|p: &(u32, TileId)| p.0);
    Ok(placed)
}

/// What stands under the keys of these tiles.
pub(crate) fn parts_at<'a>(
    alloc: Global,
    entries: &'a Map<Entry>,
    placed: &[(u32, TileId)],
) -> Result<Vec<(TileId, Option<&'a Tile>)>, Memory>
    ensures { IfOk result (λ found. map copied_part found.items
        ≡ map (part_under entries.now) placed.now) }
{
    let keys = keys_of(alloc, placed)?;
    let mut values = entries.find_all(&keys);
    let mut found = Vec::with_capacity(alloc, placed.len())?;
    for p in placed {
        let part = next_part(&mut values);
        found.push((p.1, part))?;
    }
    Ok(found)
}

/// The keys of these tiles.
fn keys_of(alloc: Global, placed: &[(u32, TileId)]) -> Result<Vec<u32>, Memory>
    ensures { IfOk result (λ keys. keys.items ≡ map (λ p. p.0) placed.now) }
{
    let mut keys = Vec::with_capacity(alloc, placed.len())?;
    for p in placed {
        keys.push(p.0)?;
    }
    Ok(keys)
}

/// What the tile has whose entry is found next.
fn next_part<'a>(values: &mut FindAll<'a, '_, Entry>) -> Option<&'a Tile>
    ensures { (found : Option Entry) (rest : List (Option Entry)) → values.old ≡ found ∷ rest
        → (option_copied result ≡ content_found found) × (values.new ≡ rest) }
{
    match values.next()?? {
        Entry::Touched(touched) => touched.tile.as_ref(),
        Entry::Live(_) => None,
    }
}
