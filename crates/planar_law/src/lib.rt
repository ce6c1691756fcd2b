//! Planarity: the edges of a rounding meet at common ends alone, and stay close to the segments.
//!
//! The laws are calls: each gives its caller a fact on every rounding, and does nothing when it
//! runs. `PlanarEdges` is the edges and vertices of a rounding as a planar straight-line graph. It
//! keeps what the laws say, so that what stands on it needs no segments.
//!
//! ```text
//!   u - - - - - - v       Two edges, - - and . ., with the pieces of their segments, === and ###,
//!    \ A======B /         between a point in the pixel of the one end and one in that of the
//!                         other. Let the edges have a common point, and move their ends to
//!      C####D             those of the pieces, first all y, then all x. An edge lets go of the
//!    /       \            other only where an end passes through the other piece. But a piece
//!   w . . . . z           misses the pixels of the other edge's ends: so the pieces cross too,
//!                         and the pixel of that crossing would be an end of both edges.
//! ```
//!
//! That a snap rounding is planar is known from Guibas and Marimont, "Rounding Arrangements
//! Dynamically" (1995, 1998), and Hobby, "Practical Segment Intersection with Finite Precision
//! Output" (1999). Here it is proved for the half-open pixels and the crossings of `grid_core`.

#![tactic(auto, using(grid_core::proofs::Signed::signed))]

mod laws;
mod planar_edges;

pub use laws::{near_of_route, planar_of_rounding, rounding_stays_within};
pub use planar_edges::PlanarEdges;

#[cfg(test)]
mod tests;
