//! What stands in a version's map.

ghost use Rattle.std.specs.Prelude.{◌≡◌, IfOk};
ghost use Rattle.version_core.specs.Stamps.{stamped};

use grid_core::{Memory, TileId, Ur};
use hot_tile::Tile;

/// What stands under one key of a version's map.
#[derive(Drop)]
pub(crate) enum Entry {
    /// A live segment, under the key of its name.
    Live(Ur),
    /// A tile that some change touched, under its own key.
    Touched(TouchedTile),
}

/// A tile with the number of the last change that touched it.
#[derive(Drop)]
pub(crate) struct TouchedTile {
    pub(crate) id: TileId,
    pub(crate) stamp: u32,
    /// Its part of the rounding. `None` where no live segment meets the tile.
    pub(crate) tile: Option<Tile>,
}

impl Entry {
    /// The same entry, in memory of its own.
    pub(crate) fn copy(&self) -> Result<Entry, Memory>
        ensures { IfOk result (λ e. e ≡ self.now) }
    {
        match self {
            Entry::Live(s) => Ok(Entry::Live(*s)),
            Entry::Touched(touched) => Ok(Entry::Touched(touched.copy()?)),
        }
    }

    /// Sets the stamp, if it is a tile's entry.
    pub(crate) fn stamp(&mut self, number: u32)
        ensures { self.new ≡ stamped number self.old }
    {
        match self {
            Entry::Live(_) => {}
            Entry::Touched(touched) => touched.stamp = number,
        }
    }
}

impl TouchedTile {
    fn copy(&self) -> Result<TouchedTile, Memory>
        ensures { IfOk result (λ x. x ≡ self.now) }
    {
        let tile = match &self.tile {
            Some(tile) => Some(tile.copy()?),
            None => None,
        };
        Ok(TouchedTile {
            id: self.id,
            stamp: self.stamp,
            tile,
        })
    }
}
