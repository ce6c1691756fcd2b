//! The square of a tile: which pixels lie in it, and the number of each.

ghost use Rattle.std.specs.Prelude.{◌≡◌, ◌+◌, ◌<◌, ◌≤◌, ◌^◌, ◌⊎◌, pos, ◌+ℤ◌, ◌-ℤ◌, ◌*ℤ◌, ◌≤ℤ◌, ◌<ℤ◌};
ghost use Rattle.std.specs.Prelude.{unsigned_abs, IsNone, IsSome, IfSome};
ghost use Rattle.grid_core.specs.Tiles.{falls};
ghost use Rattle.hot_tile.specs.Frame.{turned, step_of};

use grid_core::{Point, Profile, TileId, Ur};
use std::marker::Model;

/// A tile's pixels, each with a number below 2^32, its key: 65,536 times its column in the tile and
/// its row in the tile. Keys are ordered as pixels are.
#[derive(Drop)]
pub(crate) struct Frame {
    profile: Profile,
    id: TileId,
    /// The lower left pixel.
    lo: Point,
    /// How many pixels the tile is wide and high.
    side: i64,
}

impl Model for Frame {
    ghost use Rattle.hot_tile.specs.Frame.{TileFrame, IsFrame};

    ghost Value = { TileFrame };

    ghost view = { λ f. record { profile = f.profile; id = f.id } };

    ghost invariant = { λ f. IsFrame (record { profile = f.profile; id = f.id }) f.lo f.side };
}

impl Frame {
    ghost use Rattle.std.specs.Prelude.{◌≡◌, ◌^◌, ◌+◌};
    ghost use Rattle.grid_core.specs.Vector.{IsWithin};
    ghost use Rattle.grid_core.specs.Profile.{IsProfile};
    ghost use Rattle.hot_tile.specs.Frame.{TileFrame, lowest, key_in, pixel_at};

    /// The square of this tile.
    pub(crate) fn of(profile: Profile, id: TileId) -> Frame
        ensures value { result ≡ record { profile = profile; id = id } }
        ensures kept { IsProfile profile }
    {
        let side = profile.side();
        let lo = Point {
            x: first_of(i64::from(id.i), side),
            y: first_of(i64::from(id.j), side),
        };
        Frame {
            profile,
            id,
            lo,
            side,
        }
    }

    /// The key of the pixel. `None` where it lies in another tile.
    #[inline]
    pub(crate) fn key_of(&self, h: Point) -> Option<u32>
        ensures { result ≡ key_in self.now h }
    {
        let column = offset_in(self.lo.x, self.side, h.x)?;
        let row = offset_in(self.lo.y, self.side, h.y)?;
        Some(65_536 * column + row)
    }

    /// How far a column lies behind the first of the tile, less than 0 where it lies before it.
    #[inline]
    pub(crate) fn column_of(&self, x: i64) -> i64
        requires { unsigned_abs x ≤ 2 ^ 31 }
        ensures { result ≡ x -ℤ (lowest self.now).x }
    {
        x - self.lo.x
    }

    /// The pixel with this key.
    #[inline]
    #[tactic(auto, unfolding(crate::specs::Frame::pixel_at))]
    pub(crate) fn pixel_at(&self, key: u32) -> Point
        ensures value { result ≡ pixel_at self.now key }
        ensures within { IsWithin (2 ^ 30 + 2 ^ 16) (lowest self.now) → IsWithin (2 ^ 31) result }
    {
        let x = moved(self.lo.x, key / 65_536);
        let y = moved(self.lo.y, key % 65_536);
        Point { x, y }
    }
}

/// The first coordinate in a column, or a row, of tiles.
#[inline(always)]
fn first_of(index: i64, side: i64) -> i64
    requires index { unsigned_abs index ≤ 2 ^ 31 }
    requires side { unsigned_abs side ≤ 2 ^ 30 }
    ensures value { result ≡ side *ℤ index }
    ensures small { unsigned_abs result ≤ 2 ^ 61 }
{
    side * index
}

/// How far a coordinate lies behind the first of the tile. `None` where it lies in another tile.
#[inline(always)]
fn offset_in(first: i64, side: i64, coordinate: i64) -> Option<u32>
    requires first { unsigned_abs first ≤ 2 ^ 61 }
    requires side { unsigned_abs side ≤ 2 ^ 30 }
    ensures none { IsNone result → (coordinate <ℤ first) ⊎ ((first +ℤ side) ≤ℤ coordinate) }
    ensures low { IsSome result → first ≤ℤ coordinate }
    ensures high { IsSome result → coordinate <ℤ (first +ℤ side) }
    ensures value { IfSome result (λ n. n ≡ unsigned_abs (coordinate -ℤ first)) }
{
    if coordinate < first {
        return None;
    }
    if first + side <= coordinate {
        return None;
    }
    Some((coordinate - first) as u32)
}

/// The coordinate so far behind the first of the tile.
#[inline(always)]
fn moved(first: i64, offset: u32) -> i64
    requires first { unsigned_abs first ≤ 2 ^ 61 }
    requires offset { offset < 65536 }
    ensures value { result ≡ first +ℤ pos offset }
    ensures within { unsigned_abs first ≤ 2 ^ 30 + 2 ^ 16 → unsigned_abs result ≤ 2 ^ 31 }
{
    first + i64::from(offset)
}

/// The key in a tile whose rows are counted from above.
#[inline(always)]
#[tactic(auto, unfolding(crate::specs::Frame::turned))]
fn turn(key: u32) -> u32
    ensures { result ≡ turned key }
{
    key / 65_536 * 65_536 + (65_535 - key % 65_536)
}

/// The number of a pixel along the segment: its key, in a tile whose rows are counted from above
/// where the segment falls. Numbers are ordered as the segment passes through their pixels. The
/// same turns a number back into a key.
#[inline(always)]
pub(crate) fn step_of(s: &Ur, key: u32) -> u32
    ensures { result ≡ step_of s.now key }
{
    if falls(s) { turn(key) } else { key }
}

/// Whether the segment runs downwards from `p` to `q`.
#[inline(always)]
pub(crate) fn falls(s: &Ur) -> bool
    ensures { result ≡ falls s.now }
{
    s.q().y < s.p().y
}
