//! The part of a rounding that lies in one tile, kept exact while segments come and go.
//!
//! A tile keeps the segments that meet it, by name; its hot pixels in order, each as one number with
//! two counts; and for each segment its passes through them as numbers along it. With 1.1 from (0,0)
//! to (5,2), 1.2 from (0,2) to (5,0) and 1.3 from (2,1) to (3,0):
//!
//! ```text
//!   hot pixel   (0,0)  (0,2)  (2,1)  (3,0)  (3,1)  (5,0)  (5,2)
//!   ends          1      1      1      1      0      1      1
//!   crossings     0      0      1      0      1      0      0
//!
//!   1.1   (0,0)  (2,1)  (3,1)  (5,2)
//!   1.2   (0,2)  (2,1)  (3,1)  (5,0)
//!   1.3   (2,1)  (3,1)  (3,0)
//! ```
//!
//! A change makes a new tile. The ends and crossings that the segment has in the tile are counted and
//! merged with the hot pixels, or taken away from them. Pixels that became hot are put into the rows
//! of the segments that meet them, and pixels that became cold are taken out of these rows: taking 1.3
//! out leaves (3,1) hot, and makes (2,1) cold, which the other two only pass. All of it is made in
//! scratch that the caller may lend, and then copied, each vector at its size.
//!
//! A tile without a hot pixel keeps its segments alone, and one segment takes no memory beside the
//! tile itself. What a tile says is told by its sizes, its number and its segments, and by nothing
//! else; what lies in it of the rounding of more segments is the same (`tile_law`).

#![tactic(auto, using(grid_core::proofs::Signed::signed))]

mod copy;
mod frame;
mod grow;
mod listed;
mod own;
mod rows;
mod scratch;
mod shrink;
mod spots;
mod steps;
mod tile;

pub use scratch::Scratch;
pub use tile::Tile;

#[cfg(test)]
mod tests;
