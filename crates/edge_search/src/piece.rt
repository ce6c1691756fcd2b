//! A piece of an edge: the edge over a node of the tree of a strip's columns.

use grid_core::Edge;

/// An edge over the columns of a node, all of which it has.
#[derive(Clone, Copy, Debug)]
pub(crate) struct Piece {
    /// 1 to 511: node 1 has all 256 columns of the strip, node n those of 2 n and 2 n + 1.
    pub(crate) node: i64,
    pub(crate) edge: Edge,
}
