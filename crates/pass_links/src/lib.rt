//! Passes of segments through hot pixels: for each segment the list of its pixels, and for each
//! pixel the list of the names of its segments.
//!
//! Each pass is one node of two linked lists. Nodes lie in a slab, and a link is the key of a node.
//! With 1.1 through (0,0) and (3,1), and 1.2 through (3,1) and (5,2):
//!
//! ```text
//!                pixels    (0,0)           (3,1)           (5,2)
//!                            |               |               |
//!   segments                 v               v               |
//!                        .-------.       .-------.           |
//!        1.1  ---------> | 1.1   | <---> | 1.1   |           |
//!                        | (0,0) |       | (3,1) |           |
//!                        '-------'       '-------'           |
//!                                            ^               |
//!                                            |               |
//!                                            v               v
//!                                        .-------.       .-------.
//!        1.2  -------------------------> | 1.2   | <---> | 1.2   |
//!                                        | (3,1) |       | (5,2) |
//!                                        '-------'       '-------'
//!
//!   <--->  along: the segment's next node, in the order of its list, and back
//!     ^
//!     |    across: the pixel's next node, in the order of names, and back
//!     v
//! ```
//!
//! A list is found by binary search among the heads, and walked by links. To link a pass, its
//! pixel's list is walked up to its place, and where it goes behind a pixel, that one's too; these
//! lists are short. To unlink the passes of a pixel, its own list is walked and no other: each node
//! is taken out of its segment's list by the links of its two neighbours there, or where it is the
//! first, by the head. So too for a segment. A segment or a pixel whose list begins, or becomes
//! empty, moves the heads behind its own.
//!
//! A node takes 40 bytes: 24 in the slab, its name, its four links and the slab's tag, and 16 beside
//! for its pixel. The head of a segment takes 8, that of a pixel 24. A copy takes four blocks of
//! memory; with room for more, the slab's block is copied and then grown.

#![tactic(auto)]

mod heads;
mod links;
mod lists;
mod node;
mod nodes;
mod owner;
mod passes;
mod positions;
mod room;
#[cfg(test)]
mod tests;

pub use lists::{Across, Along};
pub use passes::Passes;
