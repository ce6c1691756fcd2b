//! A persistent finite map from `u32` keys to shared values, as a tree with sixteen slots a node.
//!
//! A key is eight nibbles of four bits. The highest chooses a slot of the root, the next one a
//! slot of the node that stands there, and the lowest a value of a leaf. Only taken slots are
//! stored: a node keeps a digit for each slot, and its items in order. Nodes are shared, so a
//! changed map copies the nodes on the way to its key, and has all others in common with the map
//! that it was made of:
//!
//! ```text
//!   old root [ 0  .  2  . ]        new root [ 0  .  2  . ]       key 0x2.. was set:
//!              |     |                        |     |            one new node a level,
//!              |     +--- old node            |     +--- new node
//!              |          [ 5  . ]            |          [ 5  9 ]
//!              |            |                 |            |  |
//!              |            +------ shared ---|------------+  +--- new leaf
//!              +------------------- shared ---+
//! ```
//!
//! A map that is changed in place changes the nodes that nobody else holds where they are. It notes
//! the edits first, and noted edits count before what the tree has: so it has them all, also where
//! want of memory stops the walk that carries them into the tree.
//!
//! Its calls are tested in `bench_map`, the program above, so that its proofs aren't tried twice.

#![tactic(auto)]

mod carry;
mod entries;
mod find;
mod leaf_edits;
mod level;
mod levels;
mod map;
mod pending;
mod slots;

pub use entries::Entries;
pub use find::FindAll;
pub use map::Map;
