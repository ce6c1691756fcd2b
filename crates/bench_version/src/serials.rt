//! Serials that are given out one after the other, and taken back in any order.

use crate::draws::Draws;
use grid_core::Memory;
use std::alloc::Global;

/// The serials that stand, and the last that was given.
#[derive(Drop)]
pub(crate) struct Serials {
    standing: Vec<u16>,
    last: u16,
}

impl Serials {
    pub(crate) fn open(alloc: Global) -> Serials {
        Serials {
            standing: Vec::new(alloc),
            last: 0,
        }
    }

    /// The next serial. `None` where all were given.
    pub(crate) fn give(&mut self) -> Result<Option<u16>, Memory> {
        let Some(next) = self.last.checked_add(1) else {
            return Ok(None);
        };
        self.standing.push(next)?;
        self.last = next;
        Ok(Some(next))
    }

    /// Takes back one that is drawn. `None` where none stands.
    pub(crate) fn take_back(&mut self, draws: &mut Draws) -> Option<u16> {
        let count = u32::try_from(self.standing.len()).ok()?;
        if count == 0 {
            return None;
        }
        let at = draws.below(count) as usize;
        Some(self.standing.swap_remove(at))
    }
}
