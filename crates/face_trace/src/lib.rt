//! The contours of a drawing, by half-edges that are linked by number.
//!
//! Each edge has two half-edges, one in each direction. The neighbours of a vertex `v` stand around
//! it clockwise from straight up, and a walk that comes to `v` from one of them goes on to the next,
//! and after the last one to the first: from 3 to 4, from 8 to 1, and back to where it came from where
//! `v` has no other neighbour. So the face lies on the left of the walk, and a contour is such a walk
//! until it is back, written from its least half-edge on.
//!
//! ```text
//!     8   1   2              d o---------------o c
//!       \ | /                  | +-----<-----+ |
//!   7 --- v --- 3              | |           | |    the walk a, b, c, d: the face
//!       / | \                  | v   face    ^ |    lies on its left, and `area2`
//!     6   5   4                | |           | |    is above 0
//!                              | +----->-----+ |
//!                            a o---------------o b
//! ```
//!
//! A set numbers the half-edges by their two points: those of edge i have the numbers 2 i, from its
//! lesser end to its greater, and 2 i + 1. One sort puts them around their starts, and one pass writes
//! for each number that of the half-edge's next. A call looks up one number, and walks along the links.
//!
//! The structure is the doubly connected edge list of Muller and Preparata, "Finding the Intersection
//! of Two Convex Polyhedra" (1978), without its records of faces. Edges may cross here, and two
//! neighbours may lie in one direction: the lesser point then comes first.

#![tactic(auto)]

mod clockwise;
mod contour;
mod half_edge;
mod half_edges;
mod laws;
mod spokes;

pub use contour::Contour;
pub use half_edges::HalfEdges;
pub use laws::{next_is_one_to_one, walks_come_back};

#[cfg(test)]
mod tests;
