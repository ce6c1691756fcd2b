//! Worked rows, that calls succeed with ample memory, and what an edit of a map leaves to others.

use crate::entry::Entry;
use crate::{Change, Edit, Look, NewTiles, Renewal, RouteFault, Version};
use grid_core::{Memory, Name, Point, Profile, TileId, Ur};
use hot_tile::Tile;
use radix_map::Map;
use std::alloc::{AllocError, Global};
use std::process::Abort;
use std::sync::Arc;
use std::test::Fail;
use std::thread;
use std::thread::Threads;

fn name(rt: &impl Abort, editor: u8, serial: u16) -> Name {
    Name::new(editor, serial).expect(rt, "an editor from 1 to 64, and a serial above 0")
}

/// Segment `1.serial` from (x, 0) to (x, 9).
fn upright(rt: &impl Abort, serial: u16, x: i64) -> Ur {
    let low = Point { x, y: 0 };
    let high = Point { x, y: 9 };
    Ur::new(&Profile::edition_one(), name(rt, 1, serial), low, high).expect(
        rt,
        "two ends within the bound",
    )
}

#[test]
fn two_edits(rt: HostRuntime) -> Result<(), Fail> {
    let first = Edit::Insert(upright(&rt, 1, 4));
    let second = Edit::Delete(upright(&rt, 2, 7));
    let alone = Change::one(rt.alloc(), 3, first)?;
    assert!(rt; alone.editor() == 3 && alone.edits() == [first].as_slice());
    let both = alone.and(second)?;
    assert!(rt; both.editor() == 3 && both.edits() == [first, second].as_slice());
    assert!(rt; alone.edits() == [first].as_slice());
    Ok(())
}

#[test]
fn nothing_is_live_at_first(rt: HostRuntime) -> Result<(), Fail> {
    let (version, mut looked) = Version::open(rt.alloc(), Profile::edition_one(), 5)?;
    let first = name(&rt, 1, 1);
    let id = TileId { i: 0, j: 0 };
    assert!(rt; version.number() == 0 && version.count() == 0);
    assert!(rt; version.spans() == 0 && version.passes() == 0 && version.stamp(id) == 0);
    assert_eq!(rt; version.profile().side(), Profile::edition_one().side());
    assert!(rt; version.tile(id, &mut looked)?.is_none());
    assert!(rt; version.segment(first, &mut looked)?.is_none());
    assert!(rt; version.segments(&mut looked)?.is_empty());
    assert!(rt; version.route(first, &mut looked) == Err(RouteFault::Unknown));
    assert!(rt; version.changed_since(&version)?.is_empty());
    let read = [
        Look::Tile(id),
        Look::Name(first),
        Look::All,
        Look::Name(first),
    ];
    assert_eq!(rt; looked.looks(), read.as_slice());
    assert_eq!(rt; looked.epoch(), 0);
    Ok(())
}

#[test]
fn tiles_are_read_in_one_walk(rt: HostRuntime) -> Result<(), Fail> {
    let (version, mut looked) = Version::open(rt.alloc(), Profile::edition_one(), 5)?;
    let ids = [TileId { i: 1, j: 0 }, TileId { i: -1, j: 2 }];
    let found = version.tiles(&ids, &mut looked)?;
    assert_eq!(rt; found.len(), 2);
    assert!(rt; found.iter().all(|part| part.1.is_none()));
    assert_eq!(rt;
        looked.looks(),
        [Look::Tile(ids[0]), Look::Tile(ids[1])].as_slice()
    );
    Ok(())
}

#[test]
fn looks_are_cleared_and_split(rt: HostRuntime) -> Result<(), Fail> {
    let (version, mut looked) = Version::open(rt.alloc(), Profile::edition_one(), 5)?;
    let first = name(&rt, 1, 1);
    assert!(rt; version.segment(first, &mut looked)?.is_none());
    let second = looked.split().expect(&rt, "an epoch below the greatest");
    assert!(rt; second.looks().is_empty() && second.epoch() == 0);
    assert!(rt; looked.looks() == [Look::Name(first)].as_slice() && looked.epoch() == 1);
    assert!(rt; looked.clear());
    assert!(rt; looked.looks().is_empty() && looked.epoch() == 2);
    Ok(())
}

const NEAR: TileId = TileId { i: 0, j: 0 };

const FAR: TileId = TileId { i: -16384, j: 3 };

/// The renewal by one edit, with a tile without segments and one that nothing meets any more.
fn renewal(alloc: Global, edit: Edit) -> Result<Renewal, Memory> {
    let mut tiles = NewTiles::open(alloc, 3)?;
    tiles.push(NEAR, Some(Tile::empty(alloc, Profile::edition_one(), NEAR)))?;
    tiles.push(FAR, None)?;
    Renewal::of(tiles, Change::one(alloc, 1, edit)?, 4, -2)
}

#[test]
fn a_renewal_is_copied(rt: HostRuntime) -> Result<(), Fail> {
    let edit = Edit::Insert(upright(&rt, 1, 4));
    let copy = renewal(rt.alloc(), edit)?.copy()?;
    assert!(rt; copy.gain() == 4 && copy.span_gain() == -2);
    assert_eq!(rt; copy.change().edits(), [edit].as_slice());
    Ok(())
}

/// Puts a renewal into a map, as change `number`.
fn put(alloc: Global, number: u32, edit: Edit, entries: &mut Map<Entry>) -> Result<(), Memory> {
    renewal(alloc, edit)?.edit(entries, number)
}

/// Puts one renewal into two maps, as changes with these numbers.
fn put_twice(alloc: Global, s: Ur, numbers: [u32; 2]) -> Result<[Map<Entry>; 2], Memory> {
    let mut coming = renewal(alloc, Edit::Insert(s))?;
    let mut first = Map::open(alloc);
    coming.edit(&mut first, numbers[0])?;
    let mut second = Map::open(alloc);
    coming.edit(&mut second, numbers[1])?;
    Ok([first, second])
}

/// The stamps of the tiles in a map, and 0 for each segment.
fn stamps(alloc: Global, entries: &Map<Entry>) -> Result<Vec<u32>, Memory> {
    let mut stamps = Vec::new(alloc);
    for (_, entry) in entries.entries() {
        stamps.push(stamp(entry))?;
    }
    Ok(stamps)
}

fn stamp(entry: &Entry) -> u32 {
    match entry {
        Entry::Live(_) => 0,
        Entry::Touched(touched) => touched.stamp,
    }
}

#[test]
fn tiles_get_the_number_of_their_change(rt: HostRuntime) -> Result<(), Fail> {
    let alloc = rt.alloc();
    let s = upright(&rt, 1, 4);
    let mut entries = Map::open(alloc);
    put(alloc, 7, Edit::Insert(s), &mut entries)?;
    assert_eq!(rt; stamps(alloc, &entries)?.as_slice(), [7, 7, 0].as_slice());
    put(alloc, 8, Edit::Delete(s), &mut entries)?;
    assert_eq!(rt; stamps(alloc, &entries)?.as_slice(), [8, 8].as_slice());
    Ok(())
}

/// The second map gets entries of its own, since the first holds those that were stamped in place.
#[test]
fn what_a_map_holds_keeps_its_stamps(rt: HostRuntime) -> Result<(), Fail> {
    let alloc = rt.alloc();
    let maps = put_twice(alloc, upright(&rt, 1, 4), [7, 9])?;
    assert_eq!(rt; stamps(alloc, &maps[0])?.as_slice(), [7, 7, 0].as_slice());
    assert_eq!(rt; stamps(alloc, &maps[1])?.as_slice(), [9, 9, 0].as_slice());
    Ok(())
}

fn number_in_a_thread(rt: &impl Threads, version: Arc<Version>) -> Result<u32, AllocError> {
    let child = thread::spawn(rt, move || version.number())?;
    Ok(child.join(rt))
}

#[test]
fn a_version_moves_into_a_thread(rt: HostRuntime) -> Result<(), Fail> {
    let (version, _looked) = Version::open(rt.alloc(), Profile::edition_one(), 5)?;
    let kept = Arc::try_clone(&version)?;
    assert_eq!(rt; number_in_a_thread(&rt, version)?, 0);
    assert_eq!(rt; kept.number(), 0);
    Ok(())
}
