//! Keys for tiles and for names, so that a tree of sixteen branches a node may keep both in one map.
//!
//! A tile's key takes the two bits of a digit in base 4 from its column and from its row by turns, the
//! higher digits first. So the sixteen keys of a leaf are a block of 4 by 4 tiles, those of the node
//! above it a block of 16 by 16, and a segment's tiles lie in few leaves whichever way it runs:
//!
//! ```text
//!    row 3 |  3  7  B  F        column 16384 + 0 in base 4   1 0 0 0 0 0 0 0
//!        2 |  2  6  A  E        row    16384 + 2             1 0 0 0 0 0 0 2
//!        1 |  1  5  9  D                                     ---------------
//!        0 |  0  4  8  C        key in base 16               5 0 0 0 0 0 0 2
//!           ------------
//!    column   0  1  2  3        the last digit of a tile's key, columns and rows from 0 to 3
//! ```
//!
//! Names have the keys behind those of all tiles in reach, by editor and then serial.

#![tactic(auto, using(grid_core::proofs::Signed::signed))]

mod keys;
mod laws;

pub use keys::{FIRST_NAME_KEY, name_key, tile_key};
pub use laws::keys_are_told_apart;

#[cfg(test)]
mod tests;
