//! What was read of a version.

ghost use Rattle.std.specs.Prelude.{◌≡◌, ◌↔◌, ◌+◌, ◌∷◌, [], map};
ghost use Rattle.std.specs.Prelude.{OnSome, OnOk, OnErr, IfSome, IfNone, IsNone, IsFalse};
ghost use Rattle.std.specs.Bool.{OnTrue, OnFalse};
ghost use Rattle.version_core.specs.Looks.{last_epoch, tile_look, with_looks};

use grid_core::{Memory, Name, TileId};
use std::alloc::Global;
use std::marker::Model;

/// Something that was read of a version.
#[derive(Clone, Copy, Debug, PartialEq, Eq)]
pub enum Look {
    /// What a tile has of the rounding.
    Tile(TileId),
    /// The segment of a name.
    Name(Name),
    /// The whole live list.
    All,
}

/// What was read of the versions of one brand, in order. It can't be copied, and none can be made
/// but with a version or by `split`: so nothing can be read of a version unseen.
#[derive(Drop)]
pub struct Looked {
    looks: Vec<Look>,
    epoch: u64,
    brand: u64,
}

impl Model for Looked {
    ghost use Rattle.version_core.specs.Looks.{Looks};

    ghost Value = { Looks };

    ghost view = { λ l. record { looks = l.looks.items; epoch = l.epoch; brand = l.brand } };
}

impl Looked {
    /// What was read, in order. Takes no memory.
    pub fn looks(&self) -> &[Look]
        ensures { result.now ≡ self.now.looks }
    {
        &self.looks
    }

    /// How often the looks were cleared or split. Takes no memory.
    pub fn epoch(&self) -> u64
        ensures { result ≡ self.now.epoch }
    {
        self.epoch
    }

    /// Forgets what was read and raises the epoch by one. Where the epoch is the greatest u64 it
    /// answers `false` and changes nothing. Takes no memory.
    pub fn clear(&mut self) -> bool
        ensures cleared { OnTrue result
            (self.new ≡ record self.old { looks = []; epoch = self.old.epoch + 1 }) }
        ensures full { OnFalse result (self.new ≡ self.old) }
        ensures last { IsFalse result ↔ self.old.epoch ≡ last_epoch }
    {
        if self.epoch == u64::MAX {
            return false;
        }
        self.looks.clear();
        self.epoch += 1;
        true
    }

    /// A second one, for another reader, that has read nothing yet; the epoch of this one is raised
    /// by one. Where the epoch is the greatest u64 it answers `None` and changes nothing.
    /// Takes no memory.
    pub fn split(&mut self) -> Option<Looked>
        ensures second { IfSome result
            (λ l. l ≡ record { looks = []; epoch = 0; brand = self.old.brand }) }
        ensures raised { OnSome result (self.new ≡ record self.old { epoch = self.old.epoch + 1 }) }
        ensures full { IfNone result (self.new ≡ self.old) }
        ensures last { IsNone result ↔ self.old.epoch ≡ last_epoch }
    {
        if self.epoch == u64::MAX {
            return None;
        }
        self.epoch += 1;
        Some(Looked::open(*self.looks.allocator(), self.brand))
    }

    /// Nothing read yet of the versions of a brand.
    pub(crate) fn open(alloc: Global, brand: u64) -> Looked
        ensures { result ≡ record { looks = []; epoch = 0; brand = brand } }
    {
        Looked {
            looks: Vec::new(alloc),
            epoch: 0,
            brand,
        }
    }

    /// Takes down what is read next.
    pub(crate) fn push(&mut self, look: Look) -> Result<(), Memory>
        ensures ok { OnOk result (self.new ≡ with_looks self.old (look ∷ [])) }
        ensures memory { OnErr result (self.new ≡ self.old) }
    {
        self.looks.push(look)?;
        Ok(())
    }

    /// Takes down that these tiles are read next.
    pub(crate) fn push_tiles(&mut self, ids: &[TileId]) -> Result<(), Memory>
        ensures ok { OnOk result (self.new ≡ with_looks self.old (map tile_look ids.now)) }
        ensures memory { OnErr result (self.new ≡ self.old) }
    {
        self.looks.reserve(ids.len())?;
        for id in ids {
            self.looks.push_reserved(Look::Tile(*id));
        }
        Ok(())
    }
}
