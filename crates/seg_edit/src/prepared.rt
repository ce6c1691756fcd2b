//! A prepared change.

ghost use Rattle.std.specs.Prelude.{◌≡◌};
ghost use Rattle.version_core.specs.Edits.{tiles_of_edits};

use grid_core::{Profile, TileId};
use std::marker::Model;
use version_core::{Change, Renewal};

/// A change with the new contents of its tiles, as it was prepared on a base.
#[derive(Drop)]
pub struct Prepared {
    pub(crate) base: u32,
    pub(crate) profile: Profile,
    /// The change's tiles, by column and then row.
    pub(crate) tiles: Vec<TileId>,
    pub(crate) renewal: Renewal,
}

impl Model for Prepared {
    ghost use Rattle.version_core.specs.Stands.{PreparedChange};
    ghost use Rattle.seg_edit.specs.Prepared.{IsPrepared};

    ghost Value = { PreparedChange };

    ghost view = { λ p. record {
      base = p.base;
      profile = p.profile;
      change = p.renewal.change;
      contents = p.renewal.contents;
      gain = p.renewal.gain;
      span_gain = p.renewal.span_gain;
    } };

    ghost invariant = { λ p. IsPrepared p.profile p.tiles.items p.renewal };
}

impl Prepared {
    ghost use Rattle.version_core.specs.Laws.{AreSegments};
    ghost use Rattle.seg_edit.specs.Prepared.{AreOfEditor};

    /// The number of the version that the change was prepared on.
    pub fn base(&self) -> u32
        ensures { result ≡ self.now.base }
    {
        self.base
    }

    /// The change. Its segments lie within the bound, and a name that it inserts has its editor.
    pub fn change(&self) -> &Change
        ensures value { result.now ≡ self.now.change }
        ensures within { AreSegments self.now.profile.bound self.now.change.edits }
        ensures own { AreOfEditor self.now.change.editor self.now.change.edits }
    {
        self.renewal.change()
    }

    /// The change alone.
    pub fn into_change(self) -> Change
        ensures { result ≡ self.change }
    {
        self.renewal.into_change()
    }

    /// The change's tiles, by column and then row: those that its segments meet.
    pub fn tiles(&self) -> &[TileId]
        ensures { result.now ≡ tiles_of_edits self.now.profile self.now.change.edits }
    {
        &self.tiles
    }

    /// How many passes of segments through hot pixels the change gains: negative where there are fewer
    /// after it.
    pub fn gain(&self) -> i64
        ensures { result ≡ self.now.gain }
    {
        self.renewal.gain()
    }

    /// How many pairs of a segment and a tile that it meets the change gains: negative where there are
    /// fewer after it.
    pub fn span_gain(&self) -> i64
        ensures { result ≡ self.now.span_gain }
    {
        self.renewal.span_gain()
    }
}
