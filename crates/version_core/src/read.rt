//! What a version tells of its tiles and its segments. All that is read of it is taken down in a
//! `Looked`: only the numbers, the stamps and the tiles that changed are told without one.

ghost use Rattle.std.specs.Prelude.{◌≡◌, ◌<◌, ◌↔◌, ◌∷◌, ◌++◌, [], map, IfOk, OnOk, OnErr, IsErrOf};
ghost use Rattle.std.specs.Prelude.{Contains, IsNone, IfSome, IsPermutation, option_copied};
ghost use Rattle.std.specs.List.{AllByRecursion};
ghost use Rattle.grid_core.specs.LiveList.{names};
ghost use Rattle.grid_core.specs.Profile.{IsProfile};
ghost use Rattle.grid_core.specs.Rounding.{route};
ghost use Rattle.grid_core.specs.Tiles.{part_of};
ghost use Rattle.tile_law.specs.Laws.{IsTileInReach};
ghost use Rattle.tile_law.specs.Parts.{route_in};
ghost use Rattle.hot_tile.specs.Tile.{segment_in};
ghost use Rattle.version_core.specs.declared.looked.Look.TheVariants.{All};
ghost use Rattle.version_core.specs.Looks.{with_looks, tile_look, name_look};
ghost use Rattle.version_core.specs.Stands.{content_of};
ghost use Rattle.version_core.specs.Version.{stamp_of, tiles_stamped_after};

use crate::looked::{Look, Looked};
use crate::lookup::{by_key, live_list, live_of, parts_at, stamped_after, touched_of};
use crate::version::Version;
use grid_core::{Memory, Name, Point, TileId, Ur};
use hot_tile::Tile;

/// Why there is no route.
#[derive(Clone, Copy, Debug, PartialEq, Eq)]
pub enum RouteFault {
    /// No live segment has the name.
    Unknown,
    /// Out of memory. What was read is as before.
    Memory,
}

impl From<Memory> for RouteFault {
    ghost use Rattle.version_core.specs.declared.read.RouteFault.{RouteFault};

    ghost from_gives = { λ _ fault. fault ≡ RouteFault.Memory };

    fn from(_refused: Memory) -> RouteFault {
        RouteFault::Memory
    }
}

impl Version {
    /// The number of the last change that touched the tile, 0 if none did. Takes no memory.
    pub fn stamp(&self, id: TileId) -> u32
        ensures { result ≡ stamp_of self.now.stamps id }
    {
        match touched_of(&self.entries, id) {
            Some(touched) => touched.stamp,
            None => 0,
        }
    }

    /// What the tile has of the rounding of the live segments. `None` where none of them meets it.
    pub fn tile(&self, id: TileId, looked: &mut Looked) -> Result<Option<&Tile>, Memory>
        requires brand { self.now.brand ≡ looked.old.brand }
        ensures value { IfOk result
            (λ o. option_copied o ≡ content_of self.now.profile id self.now.live) }
        ensures looked { OnOk result (looked.new ≡ with_looks looked.old (tile_look id ∷ [])) }
        ensures memory { OnErr result (looked.new ≡ looked.old) }
    {
        looked.push(Look::Tile(id))?;
        Ok(self.part(id))
    }

    /// What these tiles have, each as often as it is asked for, in any order; they are found in one
    /// walk. The column and the row of each are at most 16,384 in size.
    pub fn tiles<'a>(
        &'a self,
        ids: &[TileId],
        looked: &mut Looked,
    ) -> Result<Vec<(TileId, Option<&'a Tile>)>, Memory>
        requires brand { self.now.brand ≡ looked.old.brand }
        requires reach { AllByRecursion IsTileInReach ids.now }
        ensures each { IfOk result (λ found. IsPermutation ids.now (map (λ e. e.0) found.items)) }
        ensures value { IfOk result (λ found. AllByRecursion
            (λ e. option_copied e.1 ≡ content_of self.now.profile e.0 self.now.live) found.items) }
        ensures looked { OnOk result (looked.new ≡ with_looks looked.old (map tile_look ids.now)) }
        ensures memory { OnErr result (looked.new ≡ looked.old) }
    {
        let placed = by_key(self.alloc, ids)?;
        let found = parts_at(self.alloc, &self.entries, &placed)?;
        looked.push_tiles(ids)?;
        Ok(found)
    }

    /// The live segment of this name. `None` where the name isn't live.
    pub fn segment(&self, name: Name, looked: &mut Looked) -> Result<Option<&Ur>, Memory>
        requires brand { self.now.brand ≡ looked.old.brand }
        ensures value { IfOk result (λ o. option_copied o ≡ segment_in self.now.live name) }
        ensures missing { IfOk result
            (λ o. IsNone o ↔ (¬ Contains (names self.now.live) name)) }
        ensures looked { OnOk result (looked.new ≡ with_looks looked.old (name_look name ∷ [])) }
        ensures memory { OnErr result (looked.new ≡ looked.old) }
    {
        looked.push(Look::Name(name))?;
        Ok(self.live_segment(name))
    }

    /// The live list: the live segments in order of name.
    pub fn segments(&self, looked: &mut Looked) -> Result<Vec<Ur>, Memory>
        requires brand { self.now.brand ≡ looked.old.brand }
        ensures value { IfOk result (λ live. live.items ≡ self.now.live) }
        ensures looked { OnOk result (looked.new ≡ with_looks looked.old (All ∷ [])) }
        ensures memory { OnErr result (looked.new ≡ looked.old) }
    {
        let live = live_list(self.alloc, self.count, &self.entries)?;
        looked.push(Look::All)?;
        Ok(live)
    }

    /// The hot pixels that the live segment of this name passes through, from its `p` to its `q`.
    /// `Unknown` where no live segment has the name.
    pub fn route(&self, name: Name, looked: &mut Looked) -> Result<Vec<Point>, RouteFault>
        requires brand { self.now.brand ≡ looked.old.brand }
        ensures value { IfOk result (λ points. IfSome (segment_in self.now.live name)
            (λ s. points.items ≡ route self.now.live s)) }
        ensures unknown { IsErrOf result RouteFault.Unknown
            → (¬ Contains (names self.now.live) name) }
        ensures known { OnOk result (Contains (names self.now.live) name) }
        ensures looked { OnOk result (looked.new ≡ with_looks looked.old (name_look name ∷ [])) }
        ensures looked_in_vain { IsErrOf result RouteFault.Unknown
            → looked.new ≡ with_looks looked.old (name_look name ∷ []) }
        ensures memory { IsErrOf result RouteFault.Memory → looked.new ≡ looked.old }
    {
        let Some(s) = self.live_segment(name) else {
            looked.push(Look::Name(name))?;
            return Err(RouteFault::Unknown);
        };
        let points = self.joined(s)?;
        looked.push(Look::Name(name))?;
        Ok(points)
    }

    /// The tiles that a change after the older version touched, by column and then row: those whose
    /// stamp here is above the older version's number.
    pub fn changed_since(&self, older: &Version) -> Result<Vec<TileId>, Memory>
        ensures value { IfOk result
            (λ ids. ids.items ≡ tiles_stamped_after self.now.stamps older.now.number) }
        ensures stamped { IfOk result (λ ids. (t : TileId)
            → Contains ids.items t ↔ (older.now.number < stamp_of self.now.stamps t)) }
    {
        let mut changed = stamped_after(self.alloc, older.number, &self.entries)?;
        changed.sort_unstable();
        Ok(changed)
    }

    /// The route of a live segment: what the tiles that it meets have of it, joined along it.
    fn joined(&self, s: &Ur) -> Result<Vec<Point>, Memory>
        requires { Contains self.now.live s.now }
        ensures { IfOk result (λ points. points.items ≡ route self.now.live s.now) }
    {
        let mut points = Vec::new(self.alloc);
        let ids = tile_walk::tiles(self.alloc, s, &self.profile)?;
        for id in &ids {
            self.push_piece(&mut points, *id, s.name())?;
        }
        Ok(points)
    }

    /// Puts what the tile has of the route of this name to the end of a list.
    fn push_piece(&self, points: &mut Vec<Point>, id: TileId, name: Name) -> Result<(), Memory>
        ensures { OnOk result (points.new.items ≡ points.old.items
            ++ route_in (part_of self.now.profile id self.now.live) name) }
    {
        if let Some(tile) = self.part(id) {
            points.append(&mut tile.route(name)?)?;
        }
        Ok(())
    }

    /// What the tile has of the rounding.
    pub(crate) fn part(&self, id: TileId) -> Option<&Tile>
        ensures value { option_copied result ≡ content_of self.now.profile id self.now.live }
        ensures kept { IsProfile self.now.profile }
    {
        touched_of(&self.entries, id)?.tile.as_ref()
    }

    /// The live segment of this name.
    fn live_segment(&self, name: Name) -> Option<&Ur>
        ensures value { option_copied result ≡ segment_in self.now.live name }
        ensures missing { IsNone result ↔ (¬ Contains (names self.now.live) name) }
    {
        live_of(&self.entries, name)
    }
}
