//! The snap rounding of a live list, from nothing: the plain form that every faster one equals.
//!
//! After Guibas and Marimont, "Rounding Arrangements Dynamically" (1995, 1998), and Hobby, "Practical
//! Segment Intersection with Finite Precision Output" (1999). A pixel is hot where it holds an end of a
//! segment or a crossing of two. A segment's route is the list of the hot pixels that it meets, in their
//! order along it. The edges join the neighbours of all routes. Which sides belong to a pixel, and that
//! touches and shared ends count as crossings, are this project's own.
//!
//! All pairs of segments are compared, and all segments with all hot pixels. The definitions are those
//! of `grid_core`.

#![tactic(auto)]

mod bundles;
mod hot_pixels;
mod names;
mod picture;
mod points;
mod rounding;
mod routes;

pub use names::Names;
pub use picture::{Bundled, Rounding, Routed};
pub use points::Points;
pub use rounding::round;

#[cfg(test)]
mod tests;
