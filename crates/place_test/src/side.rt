//! On which side of an edge a query point lies, and whether it lies on the edge or at a vertex.

ghost use Rattle.std.specs.Prelude.{◌≡◌, pos, ◌^◌, ◌&&◌, int_lt};
ghost use Rattle.std.specs.Ordering.{int_eq};
ghost use Rattle.grid_core.specs.Vector.{IsWithin, minus, cross_of, point_eq};
ghost use Rattle.grid_core.specs.Places.{query_point, edge_direction, side_of_edge};
ghost use Rattle.grid_core.specs.Places.{is_between, lies_on, spans};
ghost use Rattle.place_test.specs.Reach.{IsEdgeWithin};

use crate::arithmetic::{difference, in_parts, offset, product};
use grid_core::{Edge, Point, vector};

/// Whether the query point is at the vertex.
#[inline(always)]
pub fn is_at(at: Point, h: Point) -> bool
    requires { IsWithin (2 ^ 30) h }
    ensures { result ≡ point_eq (query_point h) at }
{
    query_point(h) == at
}

/// Whether the query point, in 1/256 of a pixel and at most 2^40 in size, is a point of the edge, ends
/// included. The edge is in pixels, at most 2^30 in size.
#[inline(always)]
pub fn lies_on(at: Point, e: &Edge) -> bool
    requires at_within { IsWithin (2 ^ 40) at }
    requires edge_within { IsEdgeWithin (2 ^ 30) e.now }
    ensures { result ≡ lies_on at e.now }
{
    is_in_box(at, e) && is_in_line(at, e)
}

/// Whether the query point is in the bounding box of the edge.
#[inline(always)]
fn is_in_box(at: Point, e: &Edge) -> bool
    requires { IsEdgeWithin (2 ^ 30) e.now }
    ensures { result ≡ (is_between (query_point e.now.a).x (query_point e.now.b).x at.x
        && is_between (query_point e.now.a).y (query_point e.now.b).y at.y) }
{
    is_in_columns(at, e) && is_in_rows(at, e)
}

/// Whether the query point's column is between those of the edge's ends, or is one of the two.
#[inline(always)]
pub(crate) fn is_in_columns(at: Point, e: &Edge) -> bool
    requires { IsEdgeWithin (2 ^ 30) e.now }
    ensures { result ≡ is_between (query_point e.now.a).x (query_point e.now.b).x at.x }
{
    is_between(query_point(e.a()).x, query_point(e.b()).x, at.x)
}

/// Whether the query point's row is between those of the edge's ends, or is one of the two.
#[inline(always)]
fn is_in_rows(at: Point, e: &Edge) -> bool
    requires { IsEdgeWithin (2 ^ 30) e.now }
    ensures { result ≡ is_between (query_point e.now.a).y (query_point e.now.b).y at.y }
{
    is_between(query_point(e.a()).y, query_point(e.b()).y, at.y)
}

/// Whether the query point is on the line through the edge.
#[inline(always)]
fn is_in_line(at: Point, e: &Edge) -> bool
    requires at_within { IsWithin (2 ^ 40) at }
    requires edge_within { IsEdgeWithin (2 ^ 30) e.now }
    ensures { result ≡ int_eq (side_of_edge e.now at) (pos 0) }
{
    side(at, e) == 0
}

/// Whether the query point's column is one of the edge's: that of its lesser end, or one between its
/// ends.
#[inline(always)]
pub fn spans(at: Point, e: &Edge) -> bool
    requires { IsEdgeWithin (2 ^ 30) e.now }
    ensures { result ≡ spans at e.now }
{
    query_point(e.a()).x <= at.x && at.x < query_point(e.b()).x
}

/// Whether the query point is left of the edge, seen from its lesser end: above it, where the edge
/// isn't vertical.
#[inline(always)]
pub fn is_left_of(at: Point, e: &Edge) -> bool
    requires at_within { IsWithin (2 ^ 40) at }
    requires edge_within { IsEdgeWithin (2 ^ 30) e.now }
    ensures { result ≡ int_lt (pos 0) (side_of_edge e.now at) }
{
    0 < side(at, e)
}

/// Whether the query point is right of the edge, seen from its lesser end: below it, where the edge
/// isn't vertical.
#[inline(always)]
pub fn is_right_of(at: Point, e: &Edge) -> bool
    requires at_within { IsWithin (2 ^ 40) at }
    requires edge_within { IsEdgeWithin (2 ^ 30) e.now }
    ensures { result ≡ int_lt (side_of_edge e.now at) (pos 0) }
{
    side(at, e) < 0
}

/// On which side of the line through an edge the query point lies: above 0 on its left.
#[inline(always)]
fn side(at: Point, e: &Edge) -> i128
    requires at_within { IsWithin (2 ^ 40) at }
    requires edge_within { IsEdgeWithin (2 ^ 30) e.now }
    ensures { result ≡ side_of_edge e.now at }
{
    cross(direction(e), way(query_point(e.a()), at))
}

/// The cross product of two directions.
#[inline(always)]
fn cross(d: Point, w: Point) -> i128
    requires first { IsWithin (2 ^ 31) d }
    requires second { IsWithin (2 ^ 41) w }
    ensures { result ≡ cross_of d w }
{
    difference(product(d.x, w.y), product(d.y, w.x))
}

/// The direction of an edge, from its lesser end to its greater end. At most 2^31 in size.
#[inline(always)]
pub(crate) fn direction(e: &Edge) -> Point
    requires { IsEdgeWithin (2 ^ 30) e.now }
    ensures value { result ≡ edge_direction e.now }
    ensures small { IsWithin (2 ^ 31) result }
{
    vector(e.a(), e.b())
}

/// A grid point, at most 2^30 in size, as a query point: in 1/256 of a pixel, at most 2^38 in size.
#[inline(always)]
pub fn query_point(h: Point) -> Point
    requires { IsWithin (2 ^ 30) h }
    ensures value { result ≡ query_point h }
    ensures small { IsWithin (2 ^ 38) result }
{
    let x = in_parts(h.x);
    let y = in_parts(h.y);
    Point { x, y }
}

/// The way from one query point to another. At most 2^41 in size.
#[inline(always)]
fn way(from: Point, to: Point) -> Point
    requires from_within { IsWithin (2 ^ 38) from }
    requires to_within { IsWithin (2 ^ 40) to }
    ensures value { result ≡ minus to from }
    ensures small { IsWithin (2 ^ 41) result }
{
    let x = offset(from.x, to.x);
    let y = offset(from.y, to.y);
    Point { x, y }
}

/// Whether `z` is from one of two numbers to the other.
#[inline(always)]
fn is_between(a: i64, b: i64, z: i64) -> bool
    ensures { result ≡ is_between a b z }
{
    a.min(b) <= z && z <= a.max(b)
}
