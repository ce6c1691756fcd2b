//! The test of a segment against a box by bounding boxes and corners.

ghost use Rattle.std.specs.Prelude.{◌≡◌, ℤ, pos, ◌≤◌, ◌^◌, ◌+ℤ◌, ◌-ℤ◌, ◌*ℤ◌, unsigned_abs};
ghost use Rattle.grid_core.specs.Vector.{IsWithin};
ghost use Rattle.grid_core.specs.Segment.{IsSegment};
ghost use Rattle.grid_core.specs.Meets.{IsBox, meets_of, meets_pixel_of};
ghost use Rattle.grid_core.specs.Tiles.{tile_box, meets_tile};
ghost use Rattle.pixel_test.specs.Corners.{shares_columns_of, shares_rows_of, overlaps_of};
ghost use Rattle.pixel_test.specs.Corners.{twice_of, upper_left_of, upper_right_of};
ghost use Rattle.pixel_test.specs.Corners.{lower_left_of, lower_right_of};
ghost use Rattle.pixel_test.specs.Corners.{corner_side_of, is_left_of, is_right_of, rises_of};
ghost use Rattle.pixel_test.specs.Corners.{straddles_rising_of, straddles_falling_of, straddles_of};

use grid_core::{PixelBox, Point, Profile, TileId, Ur, cross, tile_box, vector};

/// Whether some point of the segment, ends included, lies in the box. In the box `lo` isn't past
/// `hi` in either coordinate, and both are at most 2^31 in size.
#[inline]
pub fn meets(s: &Ur, area: &PixelBox) -> bool
    requires { IsBox (2 ^ 31) area.now }
    ensures { result ≡ meets_of s.now area.now }
{
    overlaps(s, area) && straddles(s, area)
}

/// Whether some point of the segment, ends included, lies in the pixel `at`. Its coordinates are at
/// most 2^31 in size.
#[inline]
pub fn meets_pixel(s: &Ur, at: Point) -> bool
    requires { IsWithin (2 ^ 31) at }
    ensures { result ≡ meets_pixel_of s.now at }
{
    meets(s, &PixelBox { lo: at, hi: at })
}

/// Whether some point of the segment, ends included, lies in the tile. The pixels in the tile's
/// corners have coordinates of at most 2^31 in size.
#[inline]
pub fn meets_tile(s: &Ur, profile: &Profile, id: TileId) -> bool
    requires { IsBox (2 ^ 31) (tile_box profile.now id) }
    ensures { result ≡ meets_tile profile.now id s.now }
{
    meets(s, &tile_box(profile, id))
}

/// Whether the box of the pixels of both ends overlaps the box.
#[inline(always)]
fn overlaps(s: &Ur, area: &PixelBox) -> bool
    ensures value { result ≡ overlaps_of s.now area.now }
    ensures kept { IsSegment (2 ^ 30) s.now }
{
    let p = s.p();
    let q = s.q();
    shares_columns(p.x, q.x, area) && shares_rows(p.y, q.y, area)
}

/// Whether the columns from `left` to `right` share one with the box.
#[inline(always)]
fn shares_columns(left: i64, right: i64, area: &PixelBox) -> bool
    ensures { result ≡ shares_columns_of left right area.now }
{
    left <= area.hi.x && area.lo.x <= right
}

/// Whether the rows from `a` to `b`, given in either order, share one with the box.
#[inline(always)]
fn shares_rows(a: i64, b: i64, area: &PixelBox) -> bool
    ensures { result ≡ shares_rows_of a b area.now }
{
    if b < a {
        b <= area.hi.y && area.lo.y <= a
    } else {
        a <= area.hi.y && area.lo.y <= b
    }
}

/// Whether the segment's line has corners of the box on both sides, as every level or upright line
/// has that overlaps it.
#[inline(always)]
fn straddles(s: &Ur, area: &PixelBox) -> bool
    requires { IsBox (2 ^ 31) area.now }
    ensures { result ≡ straddles_of s.now area.now }
{
    if s.q().y < s.p().y {
        straddles_falling(s, area)
    } else if rises(s) {
        straddles_rising(s, area)
    } else {
        true
    }
}

/// Whether the segment goes to the right and up.
#[inline(always)]
fn rises(s: &Ur) -> bool
    ensures { result ≡ rises_of s.now }
{
    let p = s.p();
    let q = s.q();
    p.x < q.x && p.y < q.y
}

/// Whether a rising line passes between the upper left and the lower right corner.
#[inline(always)]
fn straddles_rising(s: &Ur, area: &PixelBox) -> bool
    requires { IsBox (2 ^ 31) area.now }
    ensures { result ≡ straddles_rising_of s.now area.now }
{
    is_left(s, upper_left(area)) && is_right(s, lower_right(area))
}

/// Whether a falling line passes between the upper right corner and the lower left one, which is in
/// the box.
#[inline(always)]
fn straddles_falling(s: &Ur, area: &PixelBox) -> bool
    requires { IsBox (2 ^ 31) area.now }
    ensures { result ≡ straddles_falling_of s.now area.now }
{
    is_left(s, upper_right(area)) && !is_left(s, lower_left(area))
}

/// Whether a corner, given by twice its coordinates, lies on the left of the segment's line.
#[inline(always)]
fn is_left(s: &Ur, corner: Point) -> bool
    requires { IsWithin (2 ^ 33) corner }
    ensures { result ≡ is_left_of s.now corner }
{
    corner_side(s, corner) > 0
}

/// Whether a corner, given by twice its coordinates, lies on the right of the segment's line.
#[inline(always)]
fn is_right(s: &Ur, corner: Point) -> bool
    requires { IsWithin (2 ^ 33) corner }
    ensures { result ≡ is_right_of s.now corner }
{
    corner_side(s, corner) < 0
}

/// Twice the cross product of the segment's direction and the way from `p` to a corner, given by
/// twice its coordinates. Below 2^67 in size.
#[inline(always)]
fn corner_side(s: &Ur, corner: Point) -> i128
    requires { IsWithin (2 ^ 33) corner }
    ensures { result ≡ corner_side_of s.now corner }
{
    let p = s.p();
    cross(vector(p, s.q()), vector(twice(p), corner))
}

/// Twice a point.
#[inline(always)]
fn twice(a: Point) -> Point
    requires { IsWithin (2 ^ 30) a }
    ensures value { result ≡ twice_of a }
    ensures small { IsWithin (2 ^ 31) result }
{
    Point {
        x: 2 * a.x,
        y: 2 * a.y,
    }
}

/// Twice the upper left corner.
#[inline(always)]
fn upper_left(area: &PixelBox) -> Point
    requires { IsBox (2 ^ 31) area.now }
    ensures value { result ≡ upper_left_of area.now }
    ensures small { IsWithin (2 ^ 33) result }
{
    Point {
        x: lower_side(area.lo.x),
        y: upper_side(area.hi.y),
    }
}

/// Twice the upper right corner.
#[inline(always)]
fn upper_right(area: &PixelBox) -> Point
    requires { IsBox (2 ^ 31) area.now }
    ensures value { result ≡ upper_right_of area.now }
    ensures small { IsWithin (2 ^ 33) result }
{
    Point {
        x: upper_side(area.hi.x),
        y: upper_side(area.hi.y),
    }
}

/// Twice the lower left corner.
#[inline(always)]
fn lower_left(area: &PixelBox) -> Point
    requires { IsBox (2 ^ 31) area.now }
    ensures value { result ≡ lower_left_of area.now }
    ensures small { IsWithin (2 ^ 33) result }
{
    Point {
        x: lower_side(area.lo.x),
        y: lower_side(area.lo.y),
    }
}

/// Twice the lower right corner.
#[inline(always)]
fn lower_right(area: &PixelBox) -> Point
    requires { IsBox (2 ^ 31) area.now }
    ensures value { result ≡ lower_right_of area.now }
    ensures small { IsWithin (2 ^ 33) result }
{
    Point {
        x: upper_side(area.hi.x),
        y: lower_side(area.lo.y),
    }
}

/// Twice the left or lower side of the pixels from `lo` on.
#[inline(always)]
fn lower_side(lo: i64) -> i64
    requires { unsigned_abs lo ≤ 2 ^ 31 }
    ensures value { result ≡ pos 2 *ℤ lo -ℤ pos 1 }
    ensures small { unsigned_abs result ≤ 2 ^ 33 }
{
    2 * lo - 1
}

/// Twice the right or upper side of the pixels up to `hi`.
#[inline(always)]
fn upper_side(hi: i64) -> i64
    requires { unsigned_abs hi ≤ 2 ^ 31 }
    ensures value { result ≡ pos 2 *ℤ hi +ℤ pos 1 }
    ensures small { unsigned_abs result ≤ 2 ^ 33 }
{
    2 * hi + 1
}
