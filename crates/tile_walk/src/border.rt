//! The borders between columns of tiles, and where the line of a segment passes them.

ghost use Rattle.std.specs.Prelude.{◌≡◌, pos, ◌+◌, ◌≤◌, ◌^◌, ◌<ℤ◌, ◌≤ℤ◌, ◌+ℤ◌, ◌-ℤ◌, ◌*ℤ◌, unsigned_abs};
ghost use Rattle.grid_core.specs.Profile.{IsProfile};
ghost use Rattle.grid_core.specs.Vector.{IsWithin};
ghost use Rattle.grid_core.specs.Segment.{IsSegment, direction};
ghost use Rattle.tile_walk.specs.Borders.{IsSplit};

use grid_core::{Point, Profile, Ur, vector};

/// Where a segment's line passes a border: in this row of tiles, and so high above the row's lower
/// side, in units of 1 / (2 dx) of a pixel, where dx is how far the segment goes to the right.
#[derive(Clone, Copy)]
pub(crate) struct Border {
    pub(crate) row: i64,
    /// 0 to below the height of a tile.
    pub(crate) above: i64,
}

/// How far a segment's line rises from border to border: so many rows of tiles, and a rest.
/// The rest is 0 to below the height of a tile, which is at most 2^49, and so are the rows in size.
#[derive(Clone, Copy)]
pub(crate) struct Rise {
    rows: i64,
    rest: i64,
    /// The height of a tile.
    tile: i64,
    ghost low: { pos 0 ≤ℤ rest },
    ghost high: { rest <ℤ tile },
    ghost small_tile: { tile ≤ℤ pos (2 ^ 49) },
    ghost small_rows: { unsigned_abs rows ≤ 2 ^ 49 },
}

impl Border {
    ghost use Rattle.std.specs.Prelude.{◌≡◌, ◌≤◌, ◌^◌, unsigned_abs};
    ghost use Rattle.tile_walk.specs.Steps.{exit_of};

    /// The row in which the line leaves the column before the border. A rising line that passes
    /// through a corner of four tiles leaves it in the row below the corner.
    #[inline(always)]
    pub(crate) fn exit_row(self, falls: bool) -> i64
        requires { unsigned_abs self.row ≤ 2 ^ 62 }
        ensures { result ≡ exit_of falls self }
    {
        if self.above == 0 && !falls {
            self.row - 1
        } else {
            self.row
        }
    }
}

impl Rise {
    ghost use Rattle.std.specs.Prelude.{pos, ◌≤◌, ◌^◌, ◌<ℤ◌, ◌≤ℤ◌, ◌+ℤ◌, ◌-ℤ◌, ◌*ℤ◌, ℤ, unsigned_abs};
    ghost use Rattle.tile_walk.specs.Borders.{IsSplit, IsBorder};
    ghost use Rattle.tile_walk.specs.Steps.{IsRise};

    /// How the line of a segment rises that goes to the right.
    #[inline(always)]
    pub(crate) fn of(s: &Ur, profile: &Profile) -> Rise
        requires { s.now.p.x <ℤ s.now.q.x }
        ensures { IsRise profile.now s.now result }
    {
        let d = direction_of(s);
        let tile = sides(profile, d.x);
        let (rows, rest) = split(sides(profile, d.y), tile);
        Rise { rows, rest, tile }
    }

    /// Where the line passes the border before a column, which is the one after the column of p.
    #[inline(always)]
    pub(crate) fn first_border(self, s: &Ur, profile: &Profile, column: i64) -> Border
        requires rise { IsRise profile.now s.now self }
        requires column { unsigned_abs column ≤ 2 ^ 31 }
        requires after { s.now.p.x <ℤ (pos profile.now.side *ℤ column) }
        requires next { (pos profile.now.side *ℤ column -ℤ pos profile.now.side) ≤ℤ s.now.p.x }
        ensures { IsBorder profile.now s.now column result.row result.above }
    {
        let d = direction_of(s);
        let (row, above) = split(height(d, s.p(), profile, column), self.tile);
        Border { row, above }
    }

    /// Where the line passes the next border.
    #[inline(always)]
    pub(crate) fn next_border(self, border: Border) -> Border
        requires low { pos 0 ≤ℤ border.above }
        requires high { border.above <ℤ self.tile }
        requires small { unsigned_abs border.row ≤ 2 ^ 32 }
        ensures { (h : ℤ) → IsSplit self.tile h border.row border.above
            → IsSplit self.tile (h +ℤ (self.tile *ℤ self.rows +ℤ self.rest)) result.row result.above }
    {
        let row = border.row + self.rows;
        let above = border.above + self.rest;
        if above < self.tile {
            Border { row, above }
        } else {
            Border {
                row: row + 1,
                above: above - self.tile,
            }
        }
    }
}

/// The segment's direction, from p to q.
#[inline(always)]
fn direction_of(s: &Ur) -> Point
    ensures value { result ≡ direction s.now }
    ensures small { IsWithin (2 ^ 31) result }
    ensures kept { IsSegment (2 ^ 30) s.now }
{
    vector(s.p(), s.q())
}

/// So many times twice the side of a tile.
#[inline(always)]
fn sides(profile: &Profile, times: i64) -> i64
    requires { unsigned_abs times ≤ 2 ^ 31 }
    ensures value { result ≡ pos 2 *ℤ pos profile.now.side *ℤ times }
    ensures small { unsigned_abs result ≤ 2 ^ 49 }
    ensures kept { IsProfile profile.now }
{
    widened(2 * profile.side(), times)
}

/// `a * b`, of a width up to about 2^17 in size and a factor up to 2^31.
#[inline(always)]
fn widened(a: i64, b: i64) -> i64
    requires left { unsigned_abs a ≤ 2 ^ 17 + 1 }
    requires right { unsigned_abs b ≤ 2 ^ 31 }
    ensures value { result ≡ a *ℤ b }
    ensures small { unsigned_abs result ≤ 2 ^ 48 + 2 ^ 31 }
{
    a * b
}

/// `a * b`, of factors up to about 2^31 in size.
#[inline(always)]
fn product(a: i64, b: i64) -> i64
    requires left { unsigned_abs a ≤ 2 ^ 31 }
    requires right { unsigned_abs b ≤ 2 ^ 31 + 1 }
    ensures value { result ≡ a *ℤ b }
    ensures small { unsigned_abs result ≤ 2 ^ 62 + 2 ^ 31 }
{
    a * b
}

/// How high the line through p in the direction d stands on the border before a column, which is
/// right of p by at most the side of a tile.
#[inline(always)]
fn height(d: Point, p: Point, profile: &Profile, column: i64) -> i64
    requires direction { IsWithin (2 ^ 31) d }
    requires from { IsWithin (2 ^ 30) p }
    requires column { unsigned_abs column ≤ 2 ^ 31 }
    requires after { p.x <ℤ (pos profile.now.side *ℤ column) }
    requires next { (pos profile.now.side *ℤ column -ℤ pos profile.now.side) ≤ℤ p.x }
    ensures value { result ≡ d.y *ℤ (pos 2 *ℤ (pos profile.now.side *ℤ column -ℤ p.x) -ℤ pos 1)
        +ℤ d.x *ℤ (pos 2 *ℤ p.y +ℤ pos 1) }
    ensures small { unsigned_abs result ≤ 2 ^ 62 + 2 ^ 50 }
{
    let risen = widened(twice_less_one(way_to(p.x, profile, column)), d.y);
    let start = product(d.x, twice_more_one(p.y));
    risen + start
}

/// How far it is from x to the first pixel of a column, which is right of x by at most the side of a
/// tile.
#[inline(always)]
fn way_to(x: i64, profile: &Profile, column: i64) -> i64
    requires small { unsigned_abs x ≤ 2 ^ 30 }
    requires column { unsigned_abs column ≤ 2 ^ 31 }
    requires after { x <ℤ (pos profile.now.side *ℤ column) }
    requires next { (pos profile.now.side *ℤ column -ℤ pos profile.now.side) ≤ℤ x }
    ensures value { result ≡ pos profile.now.side *ℤ column -ℤ x }
    ensures small { unsigned_abs result ≤ 2 ^ 16 }
{
    widened(profile.side(), column) - x
}

/// `2 * a - 1`.
#[inline(always)]
fn twice_less_one(a: i64) -> i64
    requires { unsigned_abs a ≤ 2 ^ 16 }
    ensures value { result ≡ pos 2 *ℤ a -ℤ pos 1 }
    ensures small { unsigned_abs result ≤ 2 ^ 17 + 1 }
{
    2 * a - 1
}

/// `2 * a + 1`.
#[inline(always)]
fn twice_more_one(a: i64) -> i64
    requires { unsigned_abs a ≤ 2 ^ 30 }
    ensures value { result ≡ pos 2 *ℤ a +ℤ pos 1 }
    ensures small { unsigned_abs result ≤ 2 ^ 31 + 1 }
{
    2 * a + 1
}

/// How many whole parts a number has, and the rest, which is less than a part.
#[inline(always)]
fn split(number: i64, part: i64) -> (i64, i64)
    requires positive { pos 0 <ℤ part }
    requires small_part { unsigned_abs part ≤ 2 ^ 49 }
    requires small_number { unsigned_abs number ≤ 2 ^ 62 + 2 ^ 50 }
    ensures value { IsSplit part number result.0 result.1 }
    ensures small { unsigned_abs result.0 ≤ unsigned_abs number }
{
    let whole = number.div_euclid(part);
    (whole, number - part * whole)
}
