//! Whether a segment meets a box of pixels, as one pixel or a tile, by the sides of the box's corners.
//!
//! A box has its left and its lower side, and not its right and its upper one:
//!
//! ```text
//!   lo.x - 1/2 <= x < hi.x + 1/2         +-----o   the upper left, upper right and
//!   lo.y - 1/2 <= y < hi.y + 1/2         |     :   lower right corner are not in it
//!                                        *-----o
//! ```
//!
//! Coordinates of sides and corners are doubled, so that they are whole.

#![tactic(auto, using(grid_core::proofs::Signed::signed))]

mod corners;

pub use corners::{meets, meets_pixel, meets_tile};

#[cfg(test)]
mod tests;
