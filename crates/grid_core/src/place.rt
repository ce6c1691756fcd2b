//! Places: where a query point lies among the vertices and edges of a rounding.

use crate::{Edge, Point};

/// Where a query point lies: the first of these that applies.
#[derive(Clone, Copy, Debug, PartialEq, Eq)]
pub enum Place {
    /// At this vertex.
    Vertex(Point),
    /// On this edge, the least one that has the point.
    OnEdge(Edge),
    /// Between the nearest edge above and the nearest edge below, where there are such edges.
    Between {
        above: Option<Edge>,
        below: Option<Edge>,
    },
}

/// The vertical cell (a trapezoid) in which a query point lies: the nearest edges above and below,
/// and the columns, in pixels, at which the cell ends.
#[derive(Clone, Copy, Debug, PartialEq, Eq)]
pub struct Cell {
    pub above: Option<Edge>,
    pub below: Option<Edge>,
    /// The greatest column not right of the point that is a wall of its strip, or has a vertex on or
    /// between the two edges.
    pub left: i64,
    /// The least such column right of the point.
    pub right: i64,
}
