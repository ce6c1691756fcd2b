//! What a change of a tile works with, kept from one change to the next.

use crate::rows::Rows;
use crate::spots::Spot;
use std::alloc::Global;
use std::marker::Model;

/// What `with_segment_in` and `without_in` work with. A caller keeps one and lends it to each call,
/// so that a change allocates the new tile and nothing else. What is in it doesn't matter.
#[derive(Drop)]
pub struct Scratch {
    /// What is counted at the ends and crossings of the segment that comes or goes.
    pub(crate) own: Vec<Spot>,
    /// The hot pixels of the new tile.
    pub(crate) spots: Vec<Spot>,
    /// The keys of the pixels that became hot, or cold.
    pub(crate) changed: Vec<u32>,
    /// Those of them that one segment meets, as steps along it.
    pub(crate) gone: Vec<u32>,
    /// One row of passes.
    pub(crate) row: Vec<u32>,
    /// The passes of the new tile.
    pub(crate) rows: Rows,
}

impl Model for Scratch {
    ghost Value = { Unit {0} };

    ghost view = { λ _. tt };
}

impl Scratch {
    ghost use Rattle.std.specs.Prelude.{◌≡◌};

    /// Empty scratch. Takes no memory.
    pub fn open(alloc: Global) -> Scratch
        ensures { result ≡ tt }
    {
        Scratch {
            own: Vec::new(alloc),
            spots: Vec::new(alloc),
            changed: Vec::new(alloc),
            gone: Vec::new(alloc),
            row: Vec::new(alloc),
            rows: Rows::open(alloc),
        }
    }
}
