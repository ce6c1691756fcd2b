//! The cell around a query point, from the vertices of its strip.

ghost use Rattle.std.specs.Prelude.{◌≡◌, ◌≤◌, ◌^◌, pos, ◌<ℤ◌, ◌*ℤ◌, ◌+ℤ◌, ◌&&◌, int_lt};
ghost use Rattle.std.specs.Prelude.{All, IfSome, unsigned_abs};
ghost use Rattle.std.specs.Int.{int_div_euclid};
ghost use Rattle.grid_core.specs.Vector.{IsWithin};
ghost use Rattle.grid_core.specs.Places.{strip_of, cell_between, is_at_most, is_at_least};
ghost use Rattle.place_test.specs.Reach.{IsEdgeWithin};
ghost use Rattle.cell_map.specs.Strips.{strip_at};
ghost use Rattle.cell_map.specs.Found.{narrowed};

use grid_core::{Cell, Edge, Point};
use place_test::{is_at_least, is_at_most, query_point};

/// The cell around a query point between two edges.
pub(crate) fn cell(vertices: &[Point], at: Point, above: Option<Edge>, below: Option<Edge>) -> Cell
    requires at_within { IsWithin (2 ^ 40) at }
    requires vertices_within { All (IsWithin (2 ^ 30)) vertices.now }
    requires above_within { IfSome above (IsEdgeWithin (2 ^ 30)) }
    requires below_within { IfSome below (IsEdgeWithin (2 ^ 30)) }
    ensures { result ≡ cell_between 256 vertices.now at above below }
{
    let number = strip_of(at);
    let mut cell = Cell {
        above,
        below,
        left: left_wall(number),
        right: right_wall(number),
    };
    for h in vertices {
        narrow(&mut cell, at, *h);
    }
    cell
}

/// Takes one vertex more. A vertex that is no nearer than what bounds the cell already costs two
/// comparisons.
#[inline(always)]
fn narrow(cell: &mut Cell, at: Point, h: Point)
    requires vertex_within { IsWithin (2 ^ 30) h }
    requires above_within { IfSome cell.old.above (IsEdgeWithin (2 ^ 30)) }
    requires below_within { IfSome cell.old.below (IsEdgeWithin (2 ^ 30)) }
    ensures { cell.new ≡ narrowed at cell.old h }
{
    if is_right_of(h, at) {
        if ends(cell, h) {
            cell.right = h.x;
        }
    } else {
        if begins(cell, h) {
            cell.left = h.x;
        }
    }
}

/// The number of the strip in which a query point lies. At most 2^25 in size.
#[inline(always)]
pub(crate) fn strip_of(at: Point) -> i64
    requires { IsWithin (2 ^ 40) at }
    ensures value { result ≡ strip_of 256 at }
    ensures small { unsigned_abs result ≤ 2 ^ 25 }
{
    floor(at.x, 65536)
}

/// The number of the strip that has a column. At most 2^25 in size.
#[inline(always)]
pub(crate) fn strip_at(x: i64) -> i64
    requires { unsigned_abs x ≤ 2 ^ 30 }
    ensures value { result ≡ strip_at x }
    ensures small { unsigned_abs result ≤ 2 ^ 25 }
{
    floor(x, 256)
}

/// `a / m`, rounded down.
#[inline(always)]
pub(crate) fn floor(a: i64, m: i64) -> i64
    requires many { unsigned_abs a ≤ 2 ^ 40 }
    requires positive { pos 0 <ℤ m }
    ensures { result ≡ int_div_euclid a m }
{
    a.div_euclid(m)
}

/// The column of a strip's wall on the left.
#[inline(always)]
pub(crate) fn left_wall(number: i64) -> i64
    requires { unsigned_abs number ≤ 2 ^ 25 }
    ensures { result ≡ pos 256 *ℤ number }
{
    256 * number
}

/// The column of a strip's wall on the right.
#[inline(always)]
pub(crate) fn right_wall(number: i64) -> i64
    requires { unsigned_abs number ≤ 2 ^ 25 }
    ensures { result ≡ pos 256 *ℤ (number +ℤ pos 1) }
{
    256 * (number + 1)
}

/// Whether a vertex right of the query point ends the cell, sooner than it ended so far.
#[inline(always)]
fn ends(cell: &Cell, h: Point) -> bool
    requires vertex_within { IsWithin (2 ^ 30) h }
    requires above_within { IfSome cell.now.above (IsEdgeWithin (2 ^ 30)) }
    requires below_within { IfSome cell.now.below (IsEdgeWithin (2 ^ 30)) }
    ensures { result ≡ (int_lt h.x cell.now.right
        && (is_at_most cell.now.above h && is_at_least cell.now.below h)) }
{
    h.x < cell.right && is_between(&cell.above, &cell.below, h)
}

/// Whether a vertex left of the query point, or in its column, begins the cell, later than it began so
/// far.
#[inline(always)]
fn begins(cell: &Cell, h: Point) -> bool
    requires vertex_within { IsWithin (2 ^ 30) h }
    requires above_within { IfSome cell.now.above (IsEdgeWithin (2 ^ 30)) }
    requires below_within { IfSome cell.now.below (IsEdgeWithin (2 ^ 30)) }
    ensures { result ≡ (int_lt cell.now.left h.x
        && (is_at_most cell.now.above h && is_at_least cell.now.below h)) }
{
    cell.left < h.x && is_between(&cell.above, &cell.below, h)
}

/// Whether the vertex lies on or between the two edges.
#[inline(always)]
fn is_between(above: &Option<Edge>, below: &Option<Edge>, h: Point) -> bool
    requires vertex_within { IsWithin (2 ^ 30) h }
    requires above_within { IfSome above.now (IsEdgeWithin (2 ^ 30)) }
    requires below_within { IfSome below.now (IsEdgeWithin (2 ^ 30)) }
    ensures { result ≡ (is_at_most above.now h && is_at_least below.now h) }
{
    is_at_most(*above, h) && is_at_least(*below, h)
}

/// Whether the vertex's column is right of the query point's.
#[inline(always)]
fn is_right_of(h: Point, at: Point) -> bool
    requires { IsWithin (2 ^ 30) h }
    ensures { result ≡ int_lt at.x (pos 256 *ℤ h.x) }
{
    at.x < query_point(h).x
}
