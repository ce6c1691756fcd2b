//! The vertices of a strip in order, by x and in one column upwards: the vertex at a query point,
//! and the cell around it.
//!
//! A cell ends at the first column right of the point with a vertex on or between the cell's edges,
//! and begins at the last such column that isn't right of the point. So vertices are tried from the
//! point on, until one bounds the cell. In one column those below an edge come first, and those
//! above it last: where two of a column lie on one side of the cell, so do all between them. So as
//! many as 1, 2, 4 and so on are passed over together, and a column of n vertices costs no more than
//! the square of log2(n) in tests.

ghost use Rattle.std.specs.Prelude.{◌≡◌, ◌≤◌, ◌<◌, ◌^◌, ◌-◌, pos, ◌*ℤ◌, ◌<ℤ◌, ◌≤ℤ◌};
ghost use Rattle.std.specs.Prelude.{◌&&◌, true, false, ◌++◌, All, IsTrue, IsNone, IfSome, length, fold};
ghost use Rattle.std.specs.Int.{int_min, int_max};
ghost use Rattle.std.specs.List.{AllWithin, HoldsAt};
ghost use Rattle.std.specs.List.Sorted.{IsStrictlySortedBy, IsPartitionPoint};
ghost use Rattle.std.specs.Ordering.{int_eq, is_lt};
ghost use Rattle.grid_core.specs.Vector.{IsWithin, point_cmp};
ghost use Rattle.grid_core.specs.Places.{columns_between, cell_between};
ghost use Rattle.place_test.specs.Reach.{IsEdgeWithin};
ghost use Rattle.place_test.specs.Nearest.{vertex_among};
ghost use Rattle.cell_map.specs.Columns.{floor_of, bounds_cell, lies_outside};

use crate::cell::{floor, left_wall, right_wall, strip_of};
use grid_core::{Cell, Edge, Point};
use place_test::{is_at, is_at_least, is_at_most};

/// The side of a cell on which a vertex lies that doesn't bound it.
#[derive(Clone, Copy)]
enum Side {
    Below,
    Above,
}

/// The vertex at a query point, found by halves.
pub(crate) fn vertex_at(vertices: &[Point], at: Point) -> Option<Point>
    requires at_within { IsWithin (2 ^ 40) at }
    requires within { All (IsWithin (2 ^ 30)) vertices.now }
    requires order { IsStrictlySortedBy point_cmp vertices.now }
    ensures { result ≡ vertex_among vertices.now at }
{
    let h = *vertices.get(count_before(vertices, floor_of(at)))?;
    if is_at(at, h) { Some(h) } else { None }
}

/// The cell around a query point between two edges, from vertices in order.
pub(crate) fn cell_in_order(
    vertices: &[Point],
    at: Point,
    above: Option<Edge>,
    below: Option<Edge>,
) -> Cell
    requires at_within { IsWithin (2 ^ 40) at }
    requires vertices_within { All (IsWithin (2 ^ 30)) vertices.now }
    requires above_within { IfSome above (IsEdgeWithin (2 ^ 30)) }
    requires below_within { IfSome below (IsEdgeWithin (2 ^ 30)) }
    requires order { IsStrictlySortedBy point_cmp vertices.now }
    ensures { result ≡ cell_between 256 vertices.now at above below }
{
    let number = strip_of(at);
    let (before, behind) = split_at_column(vertices, at);
    let left = last_bound(before, &above, &below, left_wall(number));
    let right = first_bound(behind, &above, &below, right_wall(number));
    Cell {
        above,
        below,
        left,
        right,
    }
}

/// The first column that has a vertex on or between the two edges, and at the latest the wall.
fn first_bound(vertices: &[Point], above: &Option<Edge>, below: &Option<Edge>, wall: i64) -> i64
    requires vertices_within { All (IsWithin (2 ^ 30)) vertices.now }
    requires above_within { IfSome above.now (IsEdgeWithin (2 ^ 30)) }
    requires below_within { IfSome below.now (IsEdgeWithin (2 ^ 30)) }
    requires order { IsStrictlySortedBy point_cmp vertices.now }
    ensures { result ≡ fold int_min wall (columns_between vertices.now above.now below.now) }
{
    let mut rest = vertices;
    while let Some(first) = rest.first() {
        let count = count_first_outside(rest, above, below);
        if count == 0 {
            return wall.min(first.x);
        }
        let (_passed, further) = rest.split_at(count);
        rest = further;
    }
    wall
}

/// The last column that has a vertex on or between the two edges, and at the earliest the wall.
fn last_bound(vertices: &[Point], above: &Option<Edge>, below: &Option<Edge>, wall: i64) -> i64
    requires vertices_within { All (IsWithin (2 ^ 30)) vertices.now }
    requires above_within { IfSome above.now (IsEdgeWithin (2 ^ 30)) }
    requires below_within { IfSome below.now (IsEdgeWithin (2 ^ 30)) }
    requires order { IsStrictlySortedBy point_cmp vertices.now }
    ensures { result ≡ fold int_max wall (columns_between vertices.now above.now below.now) }
{
    let mut rest = vertices;
    while let Some(last) = rest.last() {
        let count = count_last_outside(rest, above, below);
        if count == 0 {
            return wall.max(last.x);
        }
        let (further, _passed) = rest.split_at(rest.len() - count);
        rest = further;
    }
    wall
}

/// How many of the first vertices can be passed over together: some of one column on one side of the
/// cell, as the first and the last of them tell. 0 where the first one bounds the cell.
#[inline(always)]
fn count_first_outside(vertices: &[Point], above: &Option<Edge>, below: &Option<Edge>) -> usize
    requires some { 0 < length vertices.now }
    requires vertices_within { All (IsWithin (2 ^ 30)) vertices.now }
    requires above_within { IfSome above.now (IsEdgeWithin (2 ^ 30)) }
    requires below_within { IfSome below.now (IsEdgeWithin (2 ^ 30)) }
    requires order { IsStrictlySortedBy point_cmp vertices.now }
    ensures within { result ≤ length vertices.now }
    ensures outside { AllWithin (λ h. bounds_cell above.now below.now h ≡ false)
        vertices.now 0 result }
    ensures none { result ≡ 0
        → HoldsAt (λ h. bounds_cell above.now below.now h ≡ true) vertices.now 0 }
{
    let first = vertices[0];
    let Some(side) = side_of_cell(first, above, below) else {
        return 0;
    };
    let mut count = 1;
    while count <= vertices.len() / 2
        && lies_with(vertices[count * 2 - 1], first, side, above, below)
    {
        count *= 2;
    }
    count
}

/// How many of the last vertices can be passed over together: some of one column on one side of the
/// cell, as the last and the first of them tell. 0 where the last one bounds the cell.
#[inline(always)]
fn count_last_outside(vertices: &[Point], above: &Option<Edge>, below: &Option<Edge>) -> usize
    requires some { 0 < length vertices.now }
    requires vertices_within { All (IsWithin (2 ^ 30)) vertices.now }
    requires above_within { IfSome above.now (IsEdgeWithin (2 ^ 30)) }
    requires below_within { IfSome below.now (IsEdgeWithin (2 ^ 30)) }
    requires order { IsStrictlySortedBy point_cmp vertices.now }
    ensures within { result ≤ length vertices.now }
    ensures outside { AllWithin (λ h. bounds_cell above.now below.now h ≡ false)
        vertices.now (length vertices.now - result) (length vertices.now) }
    ensures none { result ≡ 0 → HoldsAt (λ h. bounds_cell above.now below.now h ≡ true)
        vertices.now (length vertices.now - 1) }
{
    let last = vertices[vertices.len() - 1];
    let Some(side) = side_of_cell(last, above, below) else {
        return 0;
    };
    let mut count = 1;
    while count <= vertices.len() / 2
        && lies_with(
            vertices[vertices.len() - count * 2],
            last,
            side,
            above,
            below,
        )
    {
        count *= 2;
    }
    count
}

/// On which side of the cell a vertex lies. `None` if it bounds the cell.
#[inline(always)]
fn side_of_cell(h: Point, above: &Option<Edge>, below: &Option<Edge>) -> Option<Side>
    requires vertex_within { IsWithin (2 ^ 30) h }
    requires above_within { IfSome above.now (IsEdgeWithin (2 ^ 30)) }
    requires below_within { IfSome below.now (IsEdgeWithin (2 ^ 30)) }
    ensures none { IsNone result → bounds_cell above.now below.now h ≡ true }
    ensures some { IfSome result (λ side. IsTrue (lies_outside above.now below.now side h)) }
{
    if !is_at_least(*below, h) {
        Some(Side::Below)
    } else if !is_at_most(*above, h) {
        Some(Side::Above)
    } else {
        None
    }
}

/// Whether a vertex is in the column of another, and lies on this side of the cell.
#[inline(always)]
fn lies_with(h: Point, other: Point, side: Side, above: &Option<Edge>, below: &Option<Edge>) -> bool
    requires vertex_within { IsWithin (2 ^ 30) h }
    requires above_within { IfSome above.now (IsEdgeWithin (2 ^ 30)) }
    requires below_within { IfSome below.now (IsEdgeWithin (2 ^ 30)) }
    ensures { result ≡ (int_eq h.x other.x && lies_outside above.now below.now side h) }
{
    h.x == other.x
        && match side {
            Side::Below => !is_at_least(*below, h),
            Side::Above => !is_at_most(*above, h),
        }
}

/// The vertices left of a query point or in its column, and those right of it.
fn split_at_column(vertices: &[Point], at: Point) -> (&[Point], &[Point])
    requires at_within { IsWithin (2 ^ 40) at }
    requires order { IsStrictlySortedBy point_cmp vertices.now }
    ensures joined { vertices.now ≡ result.0.now ++ result.1.now }
    ensures left { All (λ h. (pos 256 *ℤ h.x) ≤ℤ at.x) result.0.now }
    ensures right { All (λ h. at.x <ℤ (pos 256 *ℤ h.x)) result.1.now }
{
    let column = floor_of(at).x;
    vertices.split_at(vertices.partition_point(|h| h.x <= column))
}

/// How many of the vertices come before a point.
fn count_before(vertices: &[Point], p: Point) -> usize
    requires { IsStrictlySortedBy point_cmp vertices.now }
    ensures { IsPartitionPoint (λ h. is_lt (point_cmp h p) ≡ true)
        (λ h. is_lt (point_cmp h p) ≡ false) vertices.now result }
{
    vertices.partition_point(|h| *h < p)
}

/// The grid point at a query point, or else the next one left of it and below it: the query point's
/// coordinates in pixels, rounded down. At most 2^32 in size.
#[inline(always)]
fn floor_of(at: Point) -> Point
    requires { IsWithin (2 ^ 40) at }
    ensures value { result ≡ floor_of at }
    ensures small { IsWithin (2 ^ 32) result }
{
    let x = floor(at.x, 256);
    let y = floor(at.y, 256);
    Point { x, y }
}
