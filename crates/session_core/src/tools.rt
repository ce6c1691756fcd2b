//! What the machine works with at every step.

ghost use Rattle.std.specs.Prelude.{◌≡◌};

use hot_tile::Scratch;
use std::alloc::Global;
use version_core::Looked;

/// The allocator, and what is used again at each step.
#[derive(Drop)]
pub(crate) struct Tools {
    pub(crate) alloc: Global,
    /// What a step reads of a version.
    pub(crate) looked: Looked,
    pub(crate) scratch: Scratch,
}

impl Tools {
    /// The looks that a book was opened with, and scratch of which nothing is used yet.
    pub(crate) fn new(alloc: Global, looked: Looked) -> Tools
        ensures { result.looked ≡ looked }
    {
        Tools {
            alloc,
            looked,
            scratch: Scratch::open(alloc),
        }
    }

    /// Forgets what the step before has read. Where it can't, since the greatest epoch is reached,
    /// what is read goes behind it.
    pub(crate) fn clear(&mut self)
        ensures brand { self.new.looked.brand ≡ self.old.looked.brand }
    {
        let _ = self.looked.clear();
    }
}
