//! Editors who change one drawing, each from the version that it saw.

ghost use Rattle.std.specs.Prelude.{◌≡◌, ◌<◌, ◌≤◌, ◌^◌, IfOk, IfSome, OnOk, IsTrue, Contains, All, length};
ghost use Rattle.grid_core.specs.LiveList.{names};
ghost use Rattle.grid_core.specs.Segment.{IsSegment};
ghost use Rattle.grid_core.specs.Vector.{IsWithin};
ghost use Rattle.version_core.specs.Edits.{tiles_of_edits, inserted_names};
ghost use Rattle.version_core.specs.Version.{IsNext, stamp_of};
ghost use Rattle.seg_edit.specs.Waiting.{IsWaiting, AreWaiting};

use super::{after, name, opened, see_room, tile};
use crate::{PrepareFault, Prepared, apply_in_place, prepare_delete, prepare_insert};
use grid_core::{Memory, Name, Point, Profile, TileId, Ur, Vertex, tile_of};
use round_plain::{Routed, round};
use std::alloc::Global;
use std::process::Abort;
use std::test::Fail;
use version_core::{Edit, Looked, Version};

/// Whether a change that waits before another one still waits after it: none of its tiles was touched
/// since its base, and no live segment has a name that it inserts.
pub(crate) fn still_waits(
    waiting: &Prepared,
    done: &Prepared,
    before: &Version,
    next: &Version,
    looked: &mut Looked,
) -> Result<bool, Memory>
    requires next { IsNext before.now done.now.change next.now }
    requires done { IsWaiting before.now done.now }
    requires waiting { IsWaiting before.now waiting.now }
    requires brand { next.now.brand ≡ looked.old.brand }
    ensures waiting { IfOk result (λ b. IsTrue b → IsWaiting next.now waiting.now) }
    ensures brand { OnOk result (looked.new.brand ≡ looked.old.brand) }
{
    let _ = before.profile();
    let _ = before.count();
    let _ = done.change();
    let _ = waiting.change();
    if !is_untouched(waiting, next) {
        return Ok(false);
    }
    is_new(waiting, next, looked)
}

/// Whether no change since the base of the waiting one touched one of its tiles, by their stamps.
fn is_untouched(waiting: &Prepared, next: &Version) -> bool
    ensures based { IsTrue result → waiting.now.base < next.now.number }
    ensures stamps { IsTrue result → All
        (λ t. stamp_of next.now.stamps t ≤ waiting.now.base)
        (tiles_of_edits waiting.now.profile waiting.now.change.edits) }
{
    for id in waiting.tiles() {
        if next.stamp(*id) > waiting.base() {
            return false;
        }
    }
    waiting.base() < next.number()
}

/// Whether the name that the waiting change inserts isn't live.
fn is_new(waiting: &Prepared, next: &Version, looked: &mut Looked) -> Result<bool, Memory>
    requires brand { next.now.brand ≡ looked.old.brand }
    ensures new { IfOk result (λ b. IsTrue b → All
        (λ n. ¬ Contains (names next.now.live) n) (inserted_names waiting.now.change.edits)) }
    ensures brand { OnOk result (looked.new.brand ≡ looked.old.brand) }
{
    match waiting.change().edits() {
        [Edit::Insert(s)] => Ok(next.segment(s.name(), looked)?.is_none()),
        [Edit::Delete(_)] => Ok(true),
        _ => Ok(false),
    }
}

/// The next draw.
fn draw(last: &mut u64) -> u64
    ensures small { result < 2 ^ 31 }
{
    *last = last.wrapping_mul(48_271) % 2_147_483_647;
    *last
}

/// A point near a corner of one of sixteen tiles.
fn place(last: &mut u64) -> Point {
    let x = (draw(last) % 4) as i64 * 256 - 256 + (draw(last) % 12) as i64 - 6;
    let y = (draw(last) % 4) as i64 * 256 - 256 + (draw(last) % 12) as i64 - 6;
    Point { x, y }
}

/// A point less than 9 pixels in x and in y away from another.
fn near(p: Point, last: &mut u64) -> Point {
    let x = p.x.wrapping_add((draw(last) % 17) as i64 - 8);
    let y = p.y.wrapping_add((draw(last) % 17) as i64 - 8);
    Point { x, y }
}

/// A segment of this name, mostly a short one. `None` where its ends are one point.
fn drawn(profile: &Profile, name: Name, last: &mut u64) -> Option<Ur>
    ensures { IfSome result (IsSegment profile.now.bound) }
{
    let p = place(last);
    let q = if draw(last) % 8 == 0 {
        place(last)
    } else {
        near(p, last)
    };
    Ur::new(profile, name, p, q).ok()
}

/// An editor's change: the deletion of one of 24 names where it is live, and else its insertion.
/// `None` where there is no change to be made.
fn prepared(
    alloc: Global,
    base: &Version,
    editor: u8,
    last: &mut u64,
    looked: &mut Looked,
) -> Result<Option<Prepared>, Memory>
    requires brand { base.now.brand ≡ looked.old.brand }
    ensures waiting { IfOk result (λ o. IfSome o (IsWaiting base.now)) }
    ensures brand { OnOk result (looked.new.brand ≡ looked.old.brand) }
{
    let serial = (draw(last) % 8) as u16 + 1;
    let owner = if draw(last) % 3 == 0 { 1 } else { editor };
    let Some(name) = Name::new(owner, serial) else {
        return Ok(None);
    };
    let Some(s) = drawn(&base.profile(), name, last) else {
        return Ok(None);
    };
    if base.segment(s.name(), looked)?.is_some() {
        return deletion(alloc, base, editor, s.name(), looked);
    }
    Ok(Some(prepare_insert(alloc, base, s, looked)?))
}

/// The deletion of a name, `None` where it isn't live.
fn deletion(
    alloc: Global,
    base: &Version,
    editor: u8,
    name: Name,
    looked: &mut Looked,
) -> Result<Option<Prepared>, Memory>
    requires brand { base.now.brand ≡ looked.old.brand }
    ensures waiting { IfOk result (λ o. IfSome o (IsWaiting base.now)) }
    ensures brand { OnOk result (looked.new.brand ≡ looked.old.brand) }
{
    match prepare_delete(alloc, base, editor, name, looked) {
        Ok(change) => Ok(Some(change)),
        Err(PrepareFault::Unknown) => Ok(None),
        Err(PrepareFault::Memory) => Err(Memory),
    }
}

/// Those of the waiting changes that still wait after another one.
fn still_waiting(
    alloc: Global,
    mut waiting: Vec<Prepared>,
    done: &Prepared,
    before: &Version,
    next: &Version,
    looked: &mut Looked,
) -> Result<Vec<Prepared>, Memory>
    requires next { IsNext before.now done.now.change next.now }
    requires done { IsWaiting before.now done.now }
    requires waiting { AreWaiting before.now waiting.items }
    requires brand { next.now.brand ≡ looked.old.brand }
    ensures waiting { IfOk result (λ still. AreWaiting next.now still.items) }
    ensures brand { OnOk result (looked.new.brand ≡ looked.old.brand) }
{
    let mut still = Vec::new(alloc);
    'changes: while !waiting.is_empty() {
        let change = oldest(before, &mut waiting);
        if still_waits(&change, done, before, next, looked)? {
            still.push(change)?;
        }
    }
    Ok(still)
}

/// The change that waits longest.
fn oldest(current: &Version, waiting: &mut Vec<Prepared>) -> Prepared
    requires some { 0 < length waiting.old.items }
    requires waiting { AreWaiting current.now waiting.old.items }
    ensures first { IsWaiting current.now result }
    ensures others { AreWaiting current.now waiting.new.items }
    ensures fewer { length waiting.new.items < length waiting.old.items }
{
    waiting.remove(0)
}

/// Applies a change in place and beside it. The answer is the version beside it, and those of the
/// waiting changes that still wait.
fn commit(
    rt: &impl Abort,
    alloc: Global,
    current: &mut Version,
    done: &mut Prepared,
    waiting: Vec<Prepared>,
    looked: &mut Looked,
) -> Result<(Version, Vec<Prepared>), Memory>
    requires done { IsWaiting current.old done.old }
    requires waiting { AreWaiting current.old waiting.items }
    requires brand { current.old.brand ≡ looked.old.brand }
    ensures waiting { IfOk result (λ r. AreWaiting current.new r.1.items) }
    ensures next { IfOk result (λ r. r.0.brand ≡ current.old.brand) }
    ensures current { OnOk result (current.new.brand ≡ current.old.brand) }
    ensures brand { OnOk result (looked.new.brand ≡ looked.old.brand) }
{
    let next = after(rt, current, done)?;
    let still = still_waiting(alloc, waiting, done, current, &next, looked)?;
    see_room(rt, current, done);
    apply_in_place(current, done)?;
    Ok((next, still))
}

/// Compares the version with the rounding of its live list.
pub(crate) fn compare(
    rt: &impl Abort,
    alloc: Global,
    version: &Version,
    looked: &mut Looked,
) -> Result<(), Fail>
    requires brand { version.now.brand ≡ looked.old.brand }
    ensures brand { OnOk result (looked.new.brand ≡ looked.old.brand) }
{
    assert!(rt; version.count() <= 4_096);
    let live = version.segments(looked)?;
    let picture = round(alloc, &live)?;
    see_vertices(rt, version, picture.vertices(), looked)?;
    see_routes(rt, version, picture.routes(), looked)?;
    assert_eq!(rt; version.spans(), spans(alloc, &version.profile(), &live)?);
    Ok(())
}

/// Sees that the tile of each hot pixel has it, with its counts.
fn see_vertices(
    rt: &impl Abort,
    version: &Version,
    vertices: &[Vertex],
    looked: &mut Looked,
) -> Result<(), Memory>
    requires brand { version.now.brand ≡ looked.old.brand }
    ensures brand { OnOk result (looked.new.brand ≡ looked.old.brand) }
{
    for v in vertices {
        let id = tile_at(rt, &version.profile(), v.at);
        match version.tile(id, looked)? {
            Some(tile) => assert!(rt; tile.vertex(v.at) == Some(*v)),
            None => assert!(rt; false),
        }
    }
    Ok(())
}

/// The tile of a pixel, which isn't out of range.
fn tile_at(rt: &impl Abort, profile: &Profile, at: Point) -> TileId {
    assert!(rt; is_within(profile.bound().unsigned_abs(), at));
    tile_of(profile, at)
}

/// Whether no coordinate is greater in size than the bound.
fn is_within(bound: u64, at: Point) -> bool
    ensures { IsTrue result → IsWithin bound at }
{
    at.x.unsigned_abs() <= bound && at.y.unsigned_abs() <= bound
}

/// Compares the routes, and how many passes they have together.
fn see_routes(
    rt: &impl Abort,
    version: &Version,
    routes: &[Routed],
    looked: &mut Looked,
) -> Result<(), Fail>
    requires brand { version.now.brand ≡ looked.old.brand }
    ensures brand { OnOk result (looked.new.brand ≡ looked.old.brand) }
{
    assert_eq!(rt; version.count(), routes.len());
    let mut passes = 0u64;
    for routed in routes {
        let route = version.route(routed.ur.name(), looked)?;
        assert!(rt; route.as_slice() == routed.points.as_slice());
        passes = passes.wrapping_add(route.len() as u64);
    }
    assert_eq!(rt; version.passes(), passes);
    Ok(())
}

/// How many tiles the segments meet, each of them by itself.
fn spans(alloc: Global, profile: &Profile, live: &[Ur]) -> Result<u64, Memory> {
    let mut spans = 0u64;
    for s in live {
        spans = spans.wrapping_add(tile_walk::tiles(alloc, s, profile)?.len() as u64);
    }
    Ok(spans)
}

/// Sees that two versions are equal, which a change made in place and beside it.
pub(crate) fn see_equal(
    rt: &impl Abort,
    current: &Version,
    next: &Version,
    looked: &mut Looked,
) -> Result<(), Memory>
    requires current { current.now.brand ≡ looked.old.brand }
    requires next { next.now.brand ≡ looked.old.brand }
    ensures brand { OnOk result (looked.new.brand ≡ looked.old.brand) }
{
    assert!(rt; current.number() == next.number() && current.count() == next.count());
    assert!(rt; current.spans() == next.spans() && current.passes() == next.passes());
    let live = next.segments(looked)?;
    assert!(rt; current.segments(looked)?.as_slice() == live.as_slice());
    for x in -2..5 {
        for y in -2..5 {
            let id = tile(x, y);
            assert_eq!(rt; current.stamp(id), next.stamp(id));
        }
    }
    Ok(())
}

/// A version, and what was live when it was made.
#[derive(Drop)]
struct Older {
    version: Version,
    live: Vec<Ur>,
}

/// Applies the change that waits longest. The answer is as for `commit`.
fn commit_oldest(
    rt: &impl Abort,
    alloc: Global,
    current: &mut Version,
    mut waiting: Vec<Prepared>,
    looked: &mut Looked,
) -> Result<(Version, Vec<Prepared>), Memory>
    requires some { 0 < length waiting.items }
    requires waiting { AreWaiting current.old waiting.items }
    requires brand { current.old.brand ≡ looked.old.brand }
    ensures waiting { IfOk result (λ r. AreWaiting current.new r.1.items) }
    ensures next { IfOk result (λ r. r.0.brand ≡ current.old.brand) }
    ensures current { OnOk result (current.new.brand ≡ current.old.brand) }
    ensures brand { OnOk result (looked.new.brand ≡ looked.old.brand) }
{
    let mut done = oldest(current, &mut waiting);
    commit(rt, alloc, current, &mut done, waiting, looked)
}

/// Compares what a change made in place and beside it, and keeps the second.
fn kept(
    rt: &impl Abort,
    alloc: Global,
    current: &Version,
    version: Version,
    looked: &mut Looked,
) -> Result<Older, Fail>
    requires current { current.now.brand ≡ looked.old.brand }
    requires version { version.brand ≡ looked.old.brand }
    ensures older { IfOk result (λ o. o.version.brand ≡ looked.old.brand) }
    ensures brand { OnOk result (looked.new.brand ≡ looked.old.brand) }
{
    compare(rt, alloc, current, looked)?;
    see_equal(rt, current, &version, looked)?;
    let live = version.segments(looked)?;
    assert!(rt; looked.clear());
    Ok(Older { version, live })
}

/// Applies the change that waits longest, once four wait. The answer is what still waits.
fn turn(
    rt: &impl Abort,
    alloc: Global,
    current: &mut Version,
    waiting: Vec<Prepared>,
    older: &mut Vec<Older>,
    looked: &mut Looked,
) -> Result<Vec<Prepared>, Fail>
    requires waiting { AreWaiting current.old waiting.items }
    requires older { All (λ o. o.version.brand ≡ current.old.brand) older.old.items }
    requires brand { current.old.brand ≡ looked.old.brand }
    ensures waiting { IfOk result (λ still. AreWaiting current.new still.items) }
    ensures older { OnOk result
        (All (λ o. o.version.brand ≡ current.new.brand) older.new.items) }
    ensures brand { OnOk result (current.new.brand ≡ looked.new.brand) }
{
    if waiting.len() < 4 {
        return Ok(waiting);
    }
    let (version, still) = commit_oldest(rt, alloc, current, waiting, looked)?;
    older.push(kept(rt, alloc, current, version, looked)?)?;
    Ok(still)
}

/// Sees that an older version is as it was, and compares it once more.
fn see_older(rt: &impl Abort, alloc: Global, older: &Older, looked: &mut Looked) -> Result<(), Fail>
    requires brand { older.now.version.brand ≡ looked.old.brand }
    ensures brand { OnOk result (looked.new.brand ≡ looked.old.brand) }
{
    let live = older.version.segments(looked)?;
    assert!(rt; live.as_slice() == older.live.as_slice());
    compare(rt, alloc, &older.version, looked)
}

/// Sees that the older versions are as they were.
fn see_all_older(
    rt: &impl Abort,
    alloc: Global,
    older: &[Older],
    looked: &mut Looked,
) -> Result<(), Fail>
    requires { All (λ o. o.version.brand ≡ looked.old.brand) older.now }
{
    for each in older {
        see_older(rt, alloc, each, looked)?;
    }
    Ok(())
}

/// Puts an editor's next change behind those that wait.
fn push_prepared(
    alloc: Global,
    current: &Version,
    editor: u8,
    last: &mut u64,
    waiting: &mut Vec<Prepared>,
    looked: &mut Looked,
) -> Result<(), Memory>
    requires waiting { AreWaiting current.now waiting.old.items }
    requires brand { current.now.brand ≡ looked.old.brand }
    ensures waiting { OnOk result (AreWaiting current.now waiting.new.items) }
    ensures brand { OnOk result (current.now.brand ≡ looked.new.brand) }
{
    if let Some(change) = prepared(alloc, current, editor, last, looked)? {
        waiting.push(change)?;
    }
    Ok(())
}

/// Plays so many rounds of three editors, whose changes are applied some rounds after they were
/// prepared. The answer is how many were applied.
fn play(
    rt: &impl Abort,
    alloc: Global,
    current: &mut Version,
    rounds: u32,
    looked: &mut Looked,
) -> Result<usize, Fail>
    requires { current.old.brand ≡ looked.old.brand }
{
    let mut waiting = Vec::new(alloc);
    let mut older = Vec::new(alloc);
    let mut last = 1;
    for round in 0..rounds {
        let editor = (round % 3) as u8 + 1;
        push_prepared(alloc, current, editor, &mut last, &mut waiting, looked)?;
        waiting = turn(rt, alloc, current, waiting, &mut older, looked)?;
    }
    see_all_older(rt, alloc, &older, looked)?;
    Ok(older.len())
}

#[test]
fn editors_change_a_drawing_from_old_versions(rt: HostRuntime) -> Result<(), Fail> {
    let first = name(&rt, 1, 1);
    let tiles = [tile(0, 0)];
    let (mut current, mut looked) = opened(&rt, rt.alloc(), first, [0, 0, 5, 3], &tiles)?;
    assert!(rt; play(&rt, rt.alloc(), &mut current, 400, &mut looked)? > 200);
    Ok(())
}
