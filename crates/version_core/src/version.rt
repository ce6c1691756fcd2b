//! Versions: what one keeps, and its numbers.

ghost use Rattle.std.specs.Prelude.{◌≡◌, ◌≤◌, [], length, IfOk};
ghost use Rattle.std.specs.Arc.{arc_value};
ghost use Rattle.grid_core.specs.LiveList.{IsLiveList};
ghost use Rattle.grid_core.specs.Profile.{IsProfile};
ghost use Rattle.tile_law.specs.Parts.{passes_of};
ghost use Rattle.version_core.specs.Stands.{spans_of};
ghost use Rattle.version_core.specs.Version.{most_segments};

use crate::entry::Entry;
use crate::looked::Looked;
use grid_core::{Memory, Profile};
use radix_map::Map;
use std::alloc::Global;
use std::marker::Model;
use std::sync::Arc;

/// A drawing after some number of changes: its live segments, and the rounding of them tile by
/// tile. Versions that were made of one another share the tiles that no change between them touched.
#[derive(Drop)]
pub struct Version {
    pub(crate) alloc: Global,
    /// How many changes were made.
    pub(crate) number: u32,
    pub(crate) profile: Profile,
    /// The mark that a version and the `Looked` by which it may be read have in common.
    pub(crate) brand: u64,
    /// How many segments are live.
    pub(crate) count: usize,
    pub(crate) spans: u64,
    pub(crate) passes: u64,
    /// The tiles that some change touched, under keys below those of names, and behind them the
    /// live segments in order of name. They stand in one map, so that one edit of it is a change.
    pub(crate) entries: Map<Entry>,
}

impl Model for Version {
    ghost use Rattle.version_core.specs.Version.{VersionState, IsVersion, version_of};

    ghost Value = { VersionState };

    ghost view = { λ v. version_of v.number v.profile v.brand v.entries };

    ghost invariant = { λ v. IsVersion v.profile v.entries v.count v.spans v.passes };
}

impl Version {
    /// The version before the first change: nothing is live, and no tile was touched. Beside it the
    /// `Looked` of its brand, by which this version and those made of it may be read.
    pub fn open(
        alloc: Global,
        profile: Profile,
        brand: u64,
    ) -> Result<(Arc<Version>, Looked), Memory>
        ensures version { IfOk result (λ p. arc_value p.0
            ≡ record { number = 0; profile = profile; brand = brand; live = []; stamps = [] }) }
        ensures looked { IfOk result (λ p. p.1
            ≡ record { looks = []; epoch = 0; brand = brand }) }
    {
        let _ = profile.side();
        let version = Version {
            alloc,
            number: 0,
            profile,
            brand,
            count: 0,
            spans: 0,
            passes: 0,
            entries: Map::open(alloc),
        };
        Ok((Arc::new(alloc, version)?, Looked::open(alloc, brand)))
    }

    /// How many changes were made. Takes no memory.
    pub fn number(&self) -> u32
        ensures { result ≡ self.now.number }
    {
        self.number
    }

    /// The sizes of the drawing. Takes no memory.
    pub fn profile(&self) -> Profile
        ensures value { result ≡ self.now.profile }
        ensures kept { IsProfile self.now.profile }
    {
        self.profile
    }

    /// How many segments are live, at most 4,096. Takes no memory.
    pub fn count(&self) -> usize
        ensures value { result ≡ length self.now.live }
        ensures kept { IsLiveList self.now.profile.bound self.now.live }
        ensures few { length self.now.live ≤ most_segments }
    {
        self.count
    }

    /// How many pairs of a live segment and a tile that it meets there are. Takes no memory.
    pub fn spans(&self) -> u64
        ensures { result ≡ spans_of self.now.profile self.now.live }
    {
        self.spans
    }

    /// How many passes of live segments through hot pixels there are. Takes no memory.
    pub fn passes(&self) -> u64
        ensures { result ≡ passes_of self.now.live }
    {
        self.passes
    }
}
