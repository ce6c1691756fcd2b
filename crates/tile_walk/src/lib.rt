//! The tiles that a segment meets, in the order in which it meets them.
//!
//! The walk goes from column to column of tiles. Where the segment's line passes the border between
//! two of them tells in which row it leaves the one and enters the other:
//!
//! ```text
//!              :       |       :       the segment enters column 1 in the row in
//!              :     ..o2''    :       which its line stands on the border before
//!      o1......:..'''  |       :       it, and leaves column 0 in that row, or one
//!         ''   :       |       :       row lower where it rises through the corner
//!   column 0       column 1            of four tiles: the corner is in the upper
//!                                      right one alone
//! ```
//!
//! The row and the height above it are carried from border to border as quotient and remainder, so
//! that no column needs a division, and no corner can be missed.

#![tactic(auto, using(grid_core::proofs::Signed::signed))]

mod border;
mod walk;

pub use walk::{push_tiles, tiles};

#[cfg(test)]
mod tests;
