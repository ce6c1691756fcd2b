//! The canonical text of an arrangement: the bytes that show one version of a drawing.
//!
//! ```text
//!    arrangement 1                               the number of the version
//!    segments 1                                  then a line for each segment, by name:
//!    1.1 0 0 10 0 route 2 0 0 10 0               its name, its two ends, the points of its route
//!    vertices 2                                  then a line for each hot pixel, by x and then y
//!    0 0 ends 1 crossings 0
//!    10 0 ends 1 crossings 0
//!    edges 1                                     then a line for each edge, by its ends in order
//!    0 0 10 0 names 1 1.1
//!    end
//! ```

#![tactic(auto)]

mod arrangement;
#[cfg(test)]
mod tests;

pub use arrangement::{arrangement_text, push_arrangement};
