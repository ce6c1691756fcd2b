//! A list of names that mostly needs no memory of its own.

use grid_core::{Memory, Name};
use smallvec::SmallVec;
use std::alloc::Global;
use std::marker::Model;

/// How many names lie in the value itself: most bundles have no more.
const INLINE: usize = 4;

/// A list of names, which takes memory only from the fifth name on.
#[derive(Drop)]
pub struct Names {
    items: SmallVec<Name, INLINE>,
}

impl Model for Names {
    ghost use Rattle.std.specs.Prelude.{List};
    ghost use Rattle.grid_core.specs.Name.{Label};

    ghost Value = { List Label };

    ghost view = { λ n. n.items.items };
}

impl Names {
    ghost use Rattle.std.specs.Prelude.{◌≡◌, [], ◌∷◌, ◌++◌, OnOk, OnErr};

    /// No names. Takes no memory.
    pub fn open(alloc: Global) -> Names
        ensures { result ≡ [] }
    {
        Names {
            items: SmallVec::new(alloc),
        }
    }

    /// One name more, at the end. After `Memory` the list is as before.
    pub fn push(&mut self, name: Name) -> Result<(), Memory>
        ensures pushed { OnOk result (self.new ≡ self.old ++ name ∷ []) }
        ensures kept { OnErr result (self.new ≡ self.old) }
    {
        self.items.push(name)?;
        Ok(())
    }

    /// The names, in order.
    pub fn names(&self) -> &[Name]
        ensures { result.now ≡ self.now }
    {
        self.items.as_slice()
    }
}
