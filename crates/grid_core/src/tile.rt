//! Tiles: the squares of pixels into which the plane is cut, and their numbers.

ghost use Rattle.std.specs.Prelude.{◌≡◌, ◌≤◌, ◌^◌, pos, ◌<ℤ◌, ◌*ℤ◌, ◌-ℤ◌, ◌+ℤ◌, unsigned_abs};
ghost use Rattle.std.specs.Int.{int_div_euclid};
ghost use Rattle.std.proofs.Common.{rules};
ghost use Rattle.std.specs.Cmp.{po};
ghost use Rattle.std.specs.Cmp.Rules.{comparing};
ghost use Rattle.std.specs.Ordering.{as_partial_cmp};
ghost use Rattle.grid_core.specs.Vector.{IsWithin};
ghost use Rattle.grid_core.specs.Tiles.{tile_of, tile_box};

use crate::{PixelBox, Point, Profile};
use std::cmp::Ordering;

/// The number of a tile: its column and its row. Tile (0, 0) has pixel (0, 0) in its lower left
/// corner, and each tile has `side` by `side` pixels.
/// Tiles are ordered by column, and in one column by row.
#[derive(Clone, Copy, Debug, PartialEq, Eq)]
pub struct TileId {
    /// The column, rightwards.
    pub i: i32,
    /// The row, upwards.
    pub j: i32,
}

impl Ord for TileId {
    ghost use Rattle.grid_core.specs.Tiles.{tile_cmp};
    ghost use Rattle.grid_core.specs.Orders.{tiles_in_order};

    ghost cmp = { tile_cmp };

    ghost total = { tiles_in_order };

    ghost matches_partial_cmp = { Prim.search (comparing, rules) };

    ghost matches_eq = { Prim.search (comparing, rules) };

    fn cmp(&self, other: &TileId) -> Ordering {
        self.i.cmp(&other.i).then(self.j.cmp(&other.j))
    }
}

impl PartialOrd for TileId {
    ghost use Rattle.grid_core.specs.Tiles.{tile_cmp};
    ghost use Rattle.grid_core.specs.Orders.{tiles_in_order};

    ghost partial_cmp = { as_partial_cmp tile_cmp };

    ghost laws = { po tiles_in_order (Prim.search (comparing, rules)) };

    fn partial_cmp(&self, other: &TileId) -> Option<Ordering> {
        Some(self.cmp(other))
    }
}

/// The tile in which the pixel `at` lies. Its coordinates are at most the profile's bound in size.
#[inline]
pub fn tile_of(profile: &Profile, at: Point) -> TileId
    requires { IsWithin profile.now.bound at }
    ensures { result ≡ tile_of profile.now at }
{
    let side = profile.side();
    TileId {
        i: index_of(at.x, side),
        j: index_of(at.y, side),
    }
}

/// The pixels of the tile.
#[inline]
pub fn tile_box(profile: &Profile, id: TileId) -> PixelBox
    ensures { result ≡ tile_box profile.now id }
{
    let side = profile.side();
    let lo = Point {
        x: first_of(i64::from(id.i), side),
        y: first_of(i64::from(id.j), side),
    };
    let hi = Point {
        x: last_of(lo.x, side),
        y: last_of(lo.y, side),
    };
    PixelBox { lo, hi }
}

/// The column, or the row, of tiles in which a coordinate up to 2^30 in size lies.
#[inline(always)]
fn index_of(coordinate: i64, side: i64) -> i32
    requires positive { pos 0 <ℤ side }
    requires within { unsigned_abs coordinate ≤ 2 ^ 30 }
    ensures { result ≡ int_div_euclid coordinate side }
{
    coordinate.div_euclid(side) as i32
}

/// The first coordinate in a column, or a row, of tiles.
#[inline(always)]
fn first_of(index: i64, side: i64) -> i64
    requires index { unsigned_abs index ≤ 2 ^ 31 }
    requires side { unsigned_abs side ≤ 2 ^ 30 }
    ensures value { result ≡ side *ℤ index }
    ensures small { unsigned_abs result ≤ 2 ^ 61 }
{
    side * index
}

/// The last coordinate in a column, or a row, of tiles.
#[inline(always)]
fn last_of(first: i64, side: i64) -> i64
    requires first { unsigned_abs first ≤ 2 ^ 61 }
    requires side { unsigned_abs side ≤ 2 ^ 30 }
    ensures { result ≡ first +ℤ side -ℤ pos 1 }
{
    first + side - 1
}
