//! Whether a vertex bounds a cell: whether it lies on or between the edges above and below the cell.

ghost use Rattle.std.specs.Prelude.{◌≡◌, ◌^◌, IfSome};
ghost use Rattle.grid_core.specs.Vector.{IsWithin};
ghost use Rattle.grid_core.specs.Places.{reaches, is_at_most, is_at_least};
ghost use Rattle.place_test.specs.Reach.{IsEdgeWithin};

use crate::side::{is_left_of, is_right_of, query_point};
use grid_core::{Edge, Point};

/// Whether the vertex is on the edge or below it. A missing edge bounds nothing, nor does an edge
/// outside its own columns, among which here are those of both ends.
#[inline(always)]
pub fn is_at_most(above: Option<Edge>, h: Point) -> bool
    requires edge_within { IfSome above (IsEdgeWithin (2 ^ 30)) }
    requires vertex_within { IsWithin (2 ^ 30) h }
    ensures { result ≡ is_at_most above h }
{
    match above {
        None => true,
        Some(e) => !reaches(&e, h) || !is_left_of(query_point(h), &e),
    }
}

/// Whether the vertex is on the edge or above it. A missing edge bounds nothing, nor does an edge
/// outside its own columns, among which here are those of both ends.
#[inline(always)]
pub fn is_at_least(below: Option<Edge>, h: Point) -> bool
    requires edge_within { IfSome below (IsEdgeWithin (2 ^ 30)) }
    requires vertex_within { IsWithin (2 ^ 30) h }
    ensures { result ≡ is_at_least below h }
{
    match below {
        None => true,
        Some(e) => !reaches(&e, h) || !is_right_of(query_point(h), &e),
    }
}

/// Whether the vertex's column is one of the edge's, those of both ends included.
#[inline(always)]
fn reaches(e: &Edge, h: Point) -> bool
    ensures { result ≡ reaches e.now h }
{
    e.a().x <= h.x && h.x <= e.b().x
}
