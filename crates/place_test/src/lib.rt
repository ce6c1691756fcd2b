//! Exact tests of a query point against vertices and edges, and the scan that they make: what lies at
//! the point, on which edge it is, and which edges are nearest above and below it.
//!
//! A query point is in 1/256 of a pixel, at most 2^40 in size; vertices and edges are in pixels, at
//! most 2^30 in size. With `q` at (X, Y), an edge from `a` to `b` has `q`'s column where
//! `a.x <= X/256 < b.x`: the column of `b` belongs to the edges that go on from there, and a vertical
//! edge has no column. So a vertical edge is neither above nor below, but `q` may lie on it.
//!
//! ```text
//!               b                Heights at q's column are fractions over the widths of
//!             /                  the edges. In a rounding, edges of one height there have a
//!   a ------+------------ d      common end on it, as at a' below: going up from under a'
//!         / :                    the one of less slope comes first, going down from above
//!       c   : q                  it the one of greater slope, and of one slope the lesser
//!           :       _ -          edge.
//!     a' ---+-- _ - - - - - -
//! ```
//!
//! Heights are at most 2^83 in size, and their products by widths at most 2^114.

#![tactic(auto, using(grid_core::proofs::Signed::signed))]

mod arithmetic;
mod bounds;
mod height;
mod nearest;
mod side;

pub use bounds::{is_at_least, is_at_most};
pub use height::{downwards, upwards};
pub use nearest::Nearest;
pub use side::{is_at, is_left_of, is_right_of, lies_on, query_point, spans};
