//! Where a query point lies, with its cell.

use grid_core::{Cell, Edge, Point};

/// Where a query point lies: the first of these that applies.
#[derive(Clone, Copy, Debug, PartialEq, Eq)]
pub enum Found {
    /// At this vertex.
    Vertex(Point),
    /// On this edge, the least one that has the point.
    OnEdge(Edge),
    /// Inside this cell, in a strip of 256 columns.
    Inside(Cell),
}
