//! A tile with a segment more.

ghost use Rattle.std.specs.Prelude.{◌≡◌, IfOk};

use crate::listed::index_of;
use crate::own::count_own;
use crate::rows::Rows;
use crate::spots::{Spot, merge};
use crate::steps::{first_met, grow_row, make_row};
use crate::tile::HotPart;
use crate::{Scratch, Tile};
use grid_core::{Memory, Ur};
use std::alloc::Global;

impl Tile {
    ghost use Rattle.std.specs.Prelude.{◌≡◌, ◌<◌, ◌≤◌, ◌+◌, ◌-◌, ◌^◌, ◌++◌, IsTrue, Contains};
    ghost use Rattle.std.specs.Prelude.{length, map, take, drop, IfOk, OnOk};
    ghost use Rattle.std.specs.Ordering.{nat_cmp};
    ghost use Rattle.std.specs.List.Sorted.{IsStrictlySortedBy};
    ghost use Rattle.grid_core.specs.Vector.{IsWithin};
    ghost use Rattle.grid_core.specs.Segment.{IsSegment};
    ghost use Rattle.grid_core.specs.LiveList.{names, with_segment};
    ghost use Rattle.grid_core.specs.Tiles.{meets_tile};
    ghost use Rattle.hot_tile.specs.Frame.{lowest};
    ghost use Rattle.hot_tile.specs.Spots.{keys};
    ghost use Rattle.hot_tile.specs.Tile.{frame_of};
    ghost use Rattle.hot_tile.specs.Paths.{grown_path, grown_paths};
    ghost use Rattle.hot_tile.specs.HotPart.{IsHotPart};

    /// The tile with this segment too: the part of the rounding of its segments and this one. The
    /// segment lies within the bound of the tile's profile and meets the tile, its name isn't in the
    /// tile, and the tile has fewer than 65,536 segments.
    pub fn with_segment(&self, s: &Ur) -> Result<Tile, Memory>
        requires within { IsSegment self.now.profile.bound s.now }
        requires met { IsTrue (meets_tile self.now.profile self.now.id s.now) }
        requires new { ¬ Contains (names self.now.segments) s.now.name }
        requires few { length self.now.segments < 65536 }
        ensures { IfOk result (λ t. t
            ≡ record self.now { segments = with_segment self.now.segments s.now }) }
    {
        self.with_segment_in(s, &mut Scratch::open(self.alloc))
    }

    /// `with_segment`, in scratch that the caller lends: nothing but the new tile is allocated once
    /// the scratch is large enough.
    pub fn with_segment_in(&self, s: &Ur, scratch: &mut Scratch) -> Result<Tile, Memory>
        requires within { IsSegment self.now.profile.bound s.now }
        requires met { IsTrue (meets_tile self.now.profile self.now.id s.now) }
        requires new { ¬ Contains (names self.now.segments) s.now.name }
        requires few { length self.now.segments < 65536 }
        ensures { IfOk result (λ t. t
            ≡ record self.now { segments = with_segment self.now.segments s.now }) }
    {
        let segments = self.segments();
        count_own(&mut scratch.own, &self.frame(), s, segments)?;
        merge(
            self.spots(),
            &scratch.own,
            &mut scratch.spots,
            &mut scratch.changed,
        )?;
        let at = index_of(segments, s.name());
        let listed = self.listed.with(self.alloc, at, s)?;
        let hot_part = self.hot_part_with(
            at,
            s,
            &scratch.spots,
            &scratch.changed,
            &mut scratch.row,
            &mut scratch.rows,
        )?;
        Ok(Tile {
            alloc: self.alloc,
            profile: self.profile,
            id: self.id,
            listed,
            hot_part,
        })
    }

    /// These hot pixels, and the passes through them of all segments and of `s`, which comes before
    /// the one at an index.
    fn hot_part_with(
        &self,
        at: usize,
        s: &Ur,
        spots: &[Spot],
        fresh: &[u32],
        row: &mut Vec<u32>,
        rows: &mut Rows,
    ) -> Result<Option<Box<HotPart>>, Memory>
        requires within { at ≤ length self.now.segments }
        requires rising { IsStrictlySortedBy nat_cmp (keys spots.now) }
        requires near { IsWithin (2 ^ 30 + 2 ^ 16) (lowest (frame_of self.now)) }
        ensures { IfOk result (λ d. IsHotPart d spots.now
            (grown_paths self.now at s.now (keys spots.now) fresh.now)) }
    {
        if spots.is_empty() {
            return Ok(None);
        }
        rows.clear();
        self.grow_between(0, at, fresh, row, rows)?;
        make_row(row, &self.frame(), s, spots)?;
        rows.push(row)?;
        self.grow_between(at, self.count(), fresh, row, rows)?;
        Ok(Some(hot_part(self.alloc, spots, rows)?))
    }

    /// Puts the passes of the segments from one index to another behind the rows, with those through
    /// the pixels that became hot. Rows of neighbours that meet none of these are copied in one run,
    /// which begins at `kept`.
    fn grow_between(
        &self,
        from: usize,
        to: usize,
        fresh: &[u32],
        row: &mut Vec<u32>,
        rows: &mut Rows,
    ) -> Result<(), Memory>
        requires order { from ≤ to }
        requires within { to ≤ length self.now.segments }
        requires near { IsWithin (2 ^ 30 + 2 ^ 16) (lowest (frame_of self.now)) }
        ensures { OnOk result (rows.new ≡ rows.old ++ map (grown_path self.now fresh.now)
            (take (to - from) (drop from self.now.segments))) }
    {
        let segments = self.segments();
        let frame = self.frame();
        let mut kept = from;
        for i in from..to {
            let first = first_met(&frame, &segments[i], fresh);
            if first < fresh.len() {
                self.keep_between(kept, i, rows)?;
                grow_row(row, &frame, &segments[i], self.row(i), &fresh[first..])?;
                rows.push(row)?;
                kept = i + 1;
            }
        }
        self.keep_between(kept, to, rows)?;
        Ok(())
    }
}

/// These hot pixels and passes, each vector as long as what it has.
pub(crate) fn hot_part(alloc: Global, spots: &[Spot], rows: &Rows) -> Result<Box<HotPart>, Memory>
    ensures spots { IfOk result (λ d. d.value.spots.items ≡ spots.now) }
    ensures rows { IfOk result (λ d. d.value.rows ≡ rows.now) }
{
    let hot_part = HotPart {
        spots: Vec::from_slice(alloc, spots)?,
        rows: rows.copy(alloc)?,
    };
    Ok(Box::new(alloc, hot_part)?)
}
