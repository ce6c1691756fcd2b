//! The leaf of a query point's column, from which the nodes over it follow: over node n is node n / 2, rounded down.
//! Query points are in 1/256 of a pixel.

ghost use Rattle.std.specs.Prelude.{◌≡◌, ◌≤◌, ◌<ℤ◌, ◌^◌, pos, unsigned_abs};
ghost use Rattle.std.specs.Int.{int_div_euclid};
ghost use Rattle.grid_core.specs.Vector.{IsWithin};
ghost use Rattle.grid_core.specs.Places.{strip_of};
ghost use Rattle.edge_search.specs.Nodes.{IsLeafOf};

use grid_core::Point;

/// The leaf of the column in which a query point of a strip lies. From 256 to 511.
pub(crate) fn leaf_of(strip: i64, at: Point) -> i64
    requires at_within { IsWithin (2 ^ 40) at }
    requires strip { strip_of 256 at ≡ strip }
    ensures { IsLeafOf strip at result }
{
    256 + (floor(at.x, 256) - 256 * strip)
}

/// `a / m`, rounded down.
#[inline(always)]
pub(crate) fn floor(a: i64, m: i64) -> i64
    requires small { unsigned_abs a ≤ 2 ^ 40 }
    requires positive { pos 0 <ℤ m }
    ensures { result ≡ int_div_euclid a m }
{
    a.div_euclid(m)
}
