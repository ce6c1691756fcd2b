ghost use Rattle.std.specs.Prelude.{◌≡◌, ◌<◌, ◌^◌, IfOk, IfSome, IsTrue};
ghost use Rattle.grid_core.specs.Vector.{IsWithin};
ghost use Rattle.grid_core.specs.Segment.{IsSegment};
ghost use Rattle.grid_core.specs.Meets.{IsBox};
ghost use Rattle.grid_core.specs.Tiles.{tile_box};

use crate::{Scratch, Tile};
use grid_core::{Memory, Name, PixelBox, Point, Profile, TileId, Ur, Vertex, tile_box};
use pixel_test::meets;
use round_plain::round;
use std::alloc::Global;
use std::process::Abort;
use std::test::Fail;

/// Segment `1.serial` between two points, given as four coordinates.
fn segment(rt: &impl Abort, profile: &Profile, serial: u16, ends: [i64; 4]) -> Ur
    ensures { IsSegment profile.now.bound result }
{
    let [a, b, c, d] = ends;
    let name = Name::new(1, serial).expect(rt, "a serial above 0");
    let p = Point { x: a, y: b };
    let q = Point { x: c, y: d };
    Ur::new(profile, name, p, q).expect(rt, "two ends within the bound")
}

/// Whether no coordinate is greater than 2^31 in size.
fn is_near(h: Point) -> bool
    ensures { IsTrue result → IsWithin (2 ^ 31) h }
{
    h.x.unsigned_abs() <= 1 << 31 && h.y.unsigned_abs() <= 1 << 31
}

/// Whether the square has a pixel, and no coordinate greater than 2^31 in size.
fn is_box(area: &PixelBox) -> bool
    ensures { IsTrue result → IsBox (2 ^ 31) area.now }
{
    if !is_near(area.lo) {
        return false;
    }
    if !is_near(area.hi) {
        return false;
    }
    if area.lo.x > area.hi.x {
        return false;
    }
    area.lo.y <= area.hi.y
}

/// The square of a tile that isn't far away.
fn square(rt: &impl Abort, profile: &Profile, id: TileId) -> PixelBox
    ensures near { IsBox (2 ^ 31) result }
    ensures value { result ≡ tile_box profile.now id }
{
    let area = tile_box(profile, id);
    assert!(rt; is_box(&area));
    area
}

/// The tile with a segment more, once it is seen that it may come.
fn put(
    rt: &impl Abort,
    profile: &Profile,
    tile: &Tile,
    s: &Ur,
    area: &PixelBox,
) -> Result<Tile, Memory>
    requires profile { tile.now.profile ≡ profile.now }
    requires within { IsSegment profile.now.bound s.now }
    requires near { IsBox (2 ^ 31) area.now }
    requires area { area.now ≡ tile_box tile.now.profile tile.now.id }
    ensures profile { IfOk result (λ t. t.profile ≡ profile.now) }
    ensures id { IfOk result (λ t. t.id ≡ tile.now.id) }
{
    assert!(rt; tile.count() < 65_536);
    assert!(rt; tile.segment(s.name()).is_none());
    assert!(rt; meets(s, area));
    tile.with_segment(s)
}

#[test]
fn tile_hot_by_a_third(rt: HostRuntime) -> Result<(), Fail> {
    let profile = Profile::edition_one();
    let id = TileId { i: 0, j: 0 };
    let area = square(&rt, &profile, id);
    let tile = Tile::empty(rt.alloc(), profile, id);
    let first = segment(&rt, &profile, 1, [0, 0, 5, 2]);
    let tile = put(&rt, &profile, &tile, &first, &area)?;
    let tile = put(
        &rt,
        &profile,
        &tile,
        &segment(&rt, &profile, 2, [0, 2, 5, 0]),
        &area,
    )?;
    let tile = put(
        &rt,
        &profile,
        &tile,
        &segment(&rt, &profile, 3, [2, 1, 3, 0]),
        &area,
    )?;
    let route = tile.route(first.name())?;
    let want = [
        Point { x: 0, y: 0 },
        Point { x: 2, y: 1 },
        Point { x: 3, y: 1 },
        Point { x: 5, y: 2 },
    ];
    assert_eq!(rt; route.as_slice(), want.as_slice());
    let at = Point { x: 2, y: 1 };
    let want = Vertex {
        at,
        ends: 1,
        crossings: 1,
    };
    assert_eq!(rt; tile.vertex(at), Some(want));
    Ok(())
}

#[test]
fn tile_cold_again(rt: HostRuntime) -> Result<(), Fail> {
    let profile = Profile::edition_one();
    let id = TileId { i: 0, j: 0 };
    let area = square(&rt, &profile, id);
    let tile = Tile::empty(rt.alloc(), profile, id);
    let tile = put(
        &rt,
        &profile,
        &tile,
        &segment(&rt, &profile, 1, [0, 0, 5, 2]),
        &area,
    )?;
    let tile = put(
        &rt,
        &profile,
        &tile,
        &segment(&rt, &profile, 2, [0, 2, 5, 0]),
        &area,
    )?;
    let third = segment(&rt, &profile, 3, [2, 1, 3, 0]);
    let tile = put(&rt, &profile, &tile, &third, &area)?;
    assert!(rt; tile.segment(third.name()).is_some());
    let tile = tile.without(third.name())?;
    assert_eq!(rt; tile.vertex(Point { x: 2, y: 1 }), None);
    assert_eq!(rt; tile.passes(), 6);
    Ok(())
}

#[test]
fn tile_clips_the_route(rt: HostRuntime) -> Result<(), Fail> {
    let profile = Profile::edition_one();
    let id = TileId { i: 1, j: 0 };
    let area = square(&rt, &profile, id);
    let s = segment(&rt, &profile, 1, [250, 0, 260, 0]);
    let tile = put(
        &rt,
        &profile,
        &Tile::empty(rt.alloc(), profile, id),
        &s,
        &area,
    )?;
    assert_eq!(rt; tile.count(), 1);
    let route = tile.route(s.name())?;
    assert_eq!(rt; route.as_slice(), [Point { x: 260, y: 0 }].as_slice());
    Ok(())
}

/// Whether the pixel lies in the square.
fn lies_in(area: &PixelBox, h: Point) -> bool {
    area.lo.x <= h.x && h.x <= area.hi.x && area.lo.y <= h.y && h.y <= area.hi.y
}

/// Compares the tile with the rounding of its segments.
fn compare(rt: &impl Abort, alloc: Global, tile: &Tile, area: &PixelBox) -> Result<(), Fail> {
    let picture = round(alloc, tile.segments())?;
    for v in picture.vertices() {
        let want = if lies_in(area, v.at) { Some(*v) } else { None };
        assert_eq!(rt; tile.vertex(v.at), want);
    }
    let mut passes = 0u64;
    for routed in picture.routes() {
        let mut want = Vec::new(alloc);
        for h in routed.points.as_slice() {
            if lies_in(area, *h) {
                want.push(*h)?;
                passes = passes.wrapping_add(1);
            }
        }
        let route = tile.route(routed.ur.name())?;
        assert_eq!(rt; route.as_slice(), want.as_slice());
    }
    assert_eq!(rt; tile.passes(), passes);
    Ok(())
}

/// The next draw.
fn draw(last: &mut u64) -> u64
    ensures small { result < 2 ^ 31 }
{
    *last = last.wrapping_mul(48_271) % 2_147_483_647;
    *last
}

/// A coordinate less than half of the span away from 0.
fn coordinate(last: &mut u64, span: u64) -> i64
    requires { 0 < span }
{
    (draw(last) % span) as i64 - (span / 2) as i64
}

/// The tile without the segment, if it has that name.
fn less(tile: &Tile, s: &Ur, scratch: &mut Scratch) -> Result<Option<Tile>, Memory>
    ensures profile { IfOk result (λ o. IfSome o (λ t. t.profile ≡ tile.now.profile)) }
    ensures id { IfOk result (λ o. IfSome o (λ t. t.id ≡ tile.now.id)) }
{
    if tile.segment(s.name()).is_none() {
        return Ok(None);
    }
    let rest = tile.without_in(s.name(), scratch)?;
    Ok(Some(rest))
}

/// The tile with the segment, if it hasn't that name and the segment meets it.
fn more(tile: &Tile, s: &Ur, area: &PixelBox, scratch: &mut Scratch) -> Result<Option<Tile>, Memory>
    requires within { IsSegment tile.now.profile.bound s.now }
    requires near { IsBox (2 ^ 31) area.now }
    requires area { area.now ≡ tile_box tile.now.profile tile.now.id }
    ensures profile { IfOk result (λ o. IfSome o (λ t. t.profile ≡ tile.now.profile)) }
    ensures id { IfOk result (λ o. IfSome o (λ t. t.id ≡ tile.now.id)) }
{
    if tile.segment(s.name()).is_some() {
        return Ok(None);
    }
    if tile.count() >= 65_536 || !meets(s, area) {
        return Ok(None);
    }
    let grown = tile.with_segment_in(s, scratch)?;
    Ok(Some(grown))
}

/// A random segment, if it is one.
fn random(profile: &Profile, last: &mut u64, span: u64) -> Option<Ur>
    requires { 0 < span }
    ensures { IfSome result (IsSegment profile.now.bound) }
{
    let name = Name::new(1, (draw(last) % 12) as u16 + 1)?;
    let p = Point {
        x: coordinate(last, span),
        y: coordinate(last, span),
    };
    let q = Point {
        x: coordinate(last, span),
        y: coordinate(last, span),
    };
    Ur::new(profile, name, p, q).ok()
}

/// The tile with the segment more, or with the segment of that name less. `None` where it is as it was.
fn edit(
    profile: &Profile,
    id: TileId,
    tile: &Tile,
    s: &Ur,
    scratch: &mut Scratch,
) -> Result<Option<Tile>, Memory>
    requires within { IsSegment profile.now.bound s.now }
    requires profile { tile.now.profile ≡ profile.now }
    requires id { tile.now.id ≡ id }
    ensures profile { IfOk result (λ o. IfSome o (λ t. t.profile ≡ profile.now)) }
    ensures id { IfOk result (λ o. IfSome o (λ t. t.id ≡ id)) }
{
    let area = tile_box(profile, id);
    if !is_box(&area) {
        return Ok(None);
    }
    if let Some(rest) = less(tile, s, scratch)? {
        return Ok(Some(rest));
    }
    more(tile, s, &area, scratch)
}

/// Edits a tile 150 times, and compares it with the rounding of its segments each time.
fn edits(rt: &impl Abort, alloc: Global, id: TileId, span: u64) -> Result<(), Fail>
    requires { 0 < span }
{
    let profile = Profile::edition_one();
    let mut scratch = Scratch::open(alloc);
    let mut tile = Tile::empty(alloc, profile, id);
    let mut last = 1;
    for _ in 0..150 {
        if let Some(s) = random(&profile, &mut last, span) {
            if let Some(next) = edit(&profile, id, &tile, &s, &mut scratch)? {
                tile = next;
            }
        }
        compare(rt, alloc, &tile, &tile_box(&profile, id))?;
    }
    Ok(())
}

#[test]
fn edits_keep_the_part_of_the_rounding(rt: HostRuntime) -> Result<(), Fail> {
    for (i, j) in [(0, 0), (-1, 0), (0, -1), (-1, -1)] {
        edits(&rt, rt.alloc(), TileId { i, j }, 6)?;
        edits(&rt, rt.alloc(), TileId { i, j }, 40)?;
    }
    Ok(())
}
