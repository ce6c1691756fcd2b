//! A tile with a segment less.

use crate::grow::hot_part;
use crate::listed::index_of;
use crate::own::count_own;
use crate::rows::Rows;
use crate::spots::{Spot, cool};
use crate::steps::{first_met, grow_row, thin_row};
use crate::tile::HotPart;
use crate::{Scratch, Tile};
use grid_core::{Memory, Name};

impl Tile {
    ghost use Rattle.std.specs.Prelude.{◌≡◌, ◌<◌, ◌≤◌, ◌+◌, ◌-◌, ◌^◌, ◌++◌, Contains};
    ghost use Rattle.std.specs.Prelude.{length, map, take, drop, IfOk, OnOk};
    ghost use Rattle.grid_core.specs.LiveList.{names, without_name};
    ghost use Rattle.grid_core.specs.Vector.{IsWithin};
    ghost use Rattle.hot_tile.specs.Frame.{lowest};
    ghost use Rattle.hot_tile.specs.Tile.{frame_of};
    ghost use Rattle.hot_tile.specs.Paths.{thinned_path, thinned_paths};
    ghost use Rattle.hot_tile.specs.HotPart.{IsHotPart};

    /// The tile without the segment of this name, which it has: the part of the rounding of the
    /// others.
    pub fn without(&self, name: Name) -> Result<Tile, Memory>
        requires { Contains (names self.now.segments) name }
        ensures { IfOk result (λ t. t
            ≡ record self.now { segments = without_name self.now.segments name }) }
    {
        self.without_in(name, &mut Scratch::open(self.alloc))
    }

    /// `without`, in scratch that the caller lends: nothing but the new tile is allocated once the
    /// scratch is large enough.
    pub fn without_in(&self, name: Name, scratch: &mut Scratch) -> Result<Tile, Memory>
        requires { Contains (names self.now.segments) name }
        ensures { IfOk result (λ t. t
            ≡ record self.now { segments = without_name self.now.segments name }) }
    {
        let segments = self.segments();
        if segments.len() == 1 {
            return Ok(Tile::empty(self.alloc, self.profile, self.id));
        }
        let at = index_of(segments, name);
        count_own(&mut scratch.own, &self.frame(), &segments[at], segments)?;
        cool(
            self.spots(),
            &scratch.own,
            &mut scratch.spots,
            &mut scratch.changed,
        )?;
        let listed = self.listed.without(self.alloc, at)?;
        let hot_part = self.hot_part_without(
            at,
            &scratch.spots,
            &scratch.changed,
            &mut scratch.gone,
            &mut scratch.row,
            &mut scratch.rows,
        )?;
        Ok(Tile {
            alloc: self.alloc,
            profile: self.profile,
            id: self.id,
            listed,
            hot_part,
        })
    }

    /// These hot pixels, and the passes through them of all segments but the one at an index.
    fn hot_part_without(
        &self,
        at: usize,
        spots: &[Spot],
        cold: &[u32],
        gone: &mut Vec<u32>,
        row: &mut Vec<u32>,
        rows: &mut Rows,
    ) -> Result<Option<Box<HotPart>>, Memory>
        requires within { at < length self.now.segments }
        requires near { IsWithin (2 ^ 30 + 2 ^ 16) (lowest (frame_of self.now)) }
        ensures { IfOk result (λ d. IsHotPart d spots.now (thinned_paths self.now at cold.now)) }
    {
        let count = self.count();
        if spots.is_empty() {
            return Ok(None);
        }
        rows.clear();
        self.thin_between(0, at, cold, gone, row, rows)?;
        self.thin_between(at + 1, count, cold, gone, row, rows)?;
        Ok(Some(hot_part(self.alloc, spots, rows)?))
    }

    /// Puts the passes of the segments from one index to another behind the rows, without those
    /// through the pixels that became cold. Rows of neighbours that meet none of these are copied in
    /// one run, which begins at `kept`.
    fn thin_between(
        &self,
        from: usize,
        to: usize,
        cold: &[u32],
        gone: &mut Vec<u32>,
        row: &mut Vec<u32>,
        rows: &mut Rows,
    ) -> Result<(), Memory>
        requires order { from ≤ to }
        requires within { to ≤ length self.now.segments }
        requires near { IsWithin (2 ^ 30 + 2 ^ 16) (lowest (frame_of self.now)) }
        ensures { OnOk result (rows.new ≡ rows.old ++ map (thinned_path self.now cold.now)
            (take (to - from) (drop from self.now.segments))) }
    {
        let segments = self.segments();
        let frame = self.frame();
        let mut kept = from;
        for i in from..to {
            let first = first_met(&frame, &segments[i], cold);
            if first < cold.len() {
                self.keep_between(kept, i, rows)?;
                grow_row(gone, &frame, &segments[i], &[], &cold[first..])?;
                thin_row(row, self.row(i), gone)?;
                rows.push(row)?;
                kept = i + 1;
            }
        }
        self.keep_between(kept, to, rows)?;
        Ok(())
    }
}
