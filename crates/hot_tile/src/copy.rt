//! A copy of a tile.

use crate::Tile;
use crate::grow::hot_part;
use grid_core::Memory;

impl Tile {
    ghost use Rattle.std.specs.Prelude.{◌≡◌, IfOk};

    /// The same tile in memory of its own, each vector as long as what it has.
    pub fn copy(&self) -> Result<Tile, Memory>
        ensures { IfOk result (λ t. t ≡ self.now) }
    {
        let part = match &self.hot_part {
            Some(part) => Some(hot_part(self.alloc, &part.spots, &part.rows)?),
            None => None,
        };
        Ok(Tile {
            alloc: self.alloc,
            profile: self.profile,
            id: self.id,
            listed: self.listed.copy(self.alloc)?,
            hot_part: part,
        })
    }
}
