//! Tiles: what they keep, and what they tell.

ghost use Rattle.std.specs.Prelude.{◌≡◌, ◌++◌, map, OnOk};
ghost use Rattle.hot_tile.specs.Frame.{pixel_at, step_of};

use crate::frame::{Frame, step_of};
use crate::listed::{Listed, index_of};
use crate::rows::Rows;
use crate::spots::{Spot, index_of_key};
use grid_core::{Memory, Name, Point, Profile, TileId, Ur, Vertex};
use std::alloc::Global;
use std::marker::Model;

/// The hot pixels of a tile, and the passes of its segments through them.
#[derive(Drop)]
pub(crate) struct HotPart {
    /// The hot pixels in order of key.
    pub(crate) spots: Vec<Spot>,
    /// For each segment its passes as steps along it.
    pub(crate) rows: Rows,
}

/// The part of a rounding that lies in one tile: the segments that meet the tile, the hot pixels in
/// it with their counts, and the passes of the segments through them.
#[derive(Drop)]
pub struct Tile {
    pub(crate) alloc: Global,
    pub(crate) profile: Profile,
    pub(crate) id: TileId,
    /// The segments in order of name.
    pub(crate) listed: Listed,
    /// The hot pixels and the passes. `None` where no pixel of the tile is hot.
    pub(crate) hot_part: Option<Box<HotPart>>,
}

impl Model for Tile {
    ghost use Rattle.hot_tile.specs.Tile.{TileContent, IsTile};
    ghost use Rattle.hot_tile.specs.HotPart.{part_spots, part_rows};

    ghost Value = { TileContent };

    ghost view = { λ t. record { profile = t.profile; id = t.id; segments = t.listed } };

    ghost invariant = { λ t. IsTile (record { profile = t.profile; id = t.id; segments = t.listed })
        (part_spots t.hot_part) (part_rows t.listed t.hot_part) };
}

impl Tile {
    ghost use Rattle.std.specs.Prelude.{◌≡◌, ◌<◌, ◌≤◌, [], length, slice_index_or, option_copied, IfOk};
    ghost use Rattle.std.specs.Prelude.{Contains, IsNone, IsSome};
    ghost use Rattle.grid_core.specs.LiveList.{IsLiveList, names};
    ghost use Rattle.grid_core.specs.Tiles.{passes_in};
    ghost use Rattle.std.specs.Prelude.{◌^◌, ◌-◌, ◌++◌, false, All, map, take, drop, OnOk};
    ghost use Rattle.std.specs.Ordering.{nat_cmp};
    ghost use Rattle.std.specs.List.Sorted.{IsStrictlySortedBy};
    ghost use Rattle.grid_core.specs.Profile.{IsProfile};
    ghost use Rattle.hot_tile.specs.Spots.{keys, is_cold, IsSmall};
    ghost use Rattle.hot_tile.specs.Tile.{IsTileContent, part_in, vertex_in, segment_in};
    ghost use Rattle.grid_core.specs.Segment.{Segment};
    ghost use Rattle.tile_law.specs.Parts.{route_in};
    ghost use Rattle.hot_tile.specs.Tile.{frame_of, spots_in, path_in};

    /// The tile without segments. Takes no memory.
    pub fn empty(alloc: Global, profile: Profile, id: TileId) -> Tile
        ensures { result ≡ record { profile = profile; id = id; segments = [] } }
    {
        let _ = profile.side();
        Tile {
            alloc,
            profile,
            id,
            listed: Listed::empty(alloc),
            hot_part: None,
        }
    }

    /// How many segments the tile has. Takes no memory.
    pub fn count(&self) -> usize
        ensures value { result ≡ length self.now.segments }
        ensures kept { IsTileContent self.now }
    {
        self.listed.as_slice().len()
    }

    /// How many passes the segments have through hot pixels of the tile. Takes no memory.
    pub fn passes(&self) -> u64
        ensures { result ≡ passes_in (part_in self.now) }
    {
        match &self.hot_part {
            Some(hot_part) => hot_part.rows.total() as u64,
            None => 0,
        }
    }

    /// The segment of this name, if the tile has it. Takes no memory.
    pub fn segment(&self, name: Name) -> Option<&Ur>
        ensures value { option_copied result ≡ segment_in self.now.segments name }
        ensures missing { IsNone result → ¬ Contains (names self.now.segments) name }
        ensures there { IsSome result → Contains (names self.now.segments) name }
    {
        let segments = self.segments();
        let s = segments.get(index_of(segments, name))?;
        if s.name() == name { Some(s) } else { None }
    }

    /// The pixel `at` with its counts, if it is a hot pixel of the tile. Takes no memory.
    pub fn vertex(&self, at: Point) -> Option<Vertex>
        ensures { result ≡ vertex_in (part_in self.now) at }
    {
        let key = self.frame().key_of(at)?;
        let spots = self.spots();
        let spot = spots.get(index_of_key(spots, key))?;
        if spot.key != key {
            return None;
        }
        Some(Vertex {
            at,
            ends: spot.ends,
            crossings: spot.crossings,
        })
    }

    /// The hot pixels of the tile that the segment of this name passes through, from its `p` to its
    /// `q`. None where the tile doesn't have the segment.
    pub fn route(&self, name: Name) -> Result<Vec<Point>, Memory>
        ensures { IfOk result (λ points. points.items ≡ route_in (part_in self.now) name) }
    {
        let mut points = Vec::new(self.alloc);
        let segments = self.segments();
        let at = index_of(segments, name);
        let Some(s) = segments.get(at) else {
            return Ok(points);
        };
        if s.name() == name {
            push_points(&mut points, &self.frame(), s, self.row(at))?;
        }
        Ok(points)
    }

    /// The segments in order of name.
    pub(crate) fn segments(&self) -> &[Ur]
        ensures value { result.now ≡ self.now.segments }
        ensures kept { IsLiveList self.now.profile.bound self.now.segments }
        ensures few { length self.now.segments ≤ 65536 }
    {
        self.listed.as_slice()
    }

    /// The square of the tile.
    pub(crate) fn frame(&self) -> Frame
        ensures value { result ≡ frame_of self.now }
        ensures kept { IsProfile self.now.profile }
    {
        Frame::of(self.profile, self.id)
    }

    /// The hot pixels in order of key.
    pub(crate) fn spots(&self) -> &[Spot]
        ensures value { result.now ≡ spots_in self.now }
        ensures rising { IsStrictlySortedBy nat_cmp (keys result.now) }
        ensures warm { All (λ x. is_cold x ≡ false) result.now }
        ensures small { All (IsSmall (2 ^ 31) (2 ^ 31)) result.now }
    {
        match &self.hot_part {
            Some(hot_part) => hot_part.spots.as_slice(),
            None => &[],
        }
    }

    /// The passes of the segment at this index.
    #[inline]
    pub(crate) fn row(&self, i: usize) -> &[u32]
        requires { i < length self.now.segments }
        ensures value { (d : Segment) → result.now
            ≡ path_in self.now (slice_index_or self.now.segments i d) }
        ensures rising { IsStrictlySortedBy nat_cmp result.now }
    {
        match &self.hot_part {
            Some(hot_part) => hot_part.rows.row(i),
            None => &[],
        }
    }

    /// Puts the passes of the segments from one index to another behind the rows, as they are.
    pub(crate) fn keep_between(&self, from: usize, to: usize, rows: &mut Rows) -> Result<(), Memory>
        requires order { from ≤ to }
        requires within { to ≤ length self.now.segments }
        ensures { OnOk result (rows.new ≡ rows.old ++ map (path_in self.now)
            (take (to - from) (drop from self.now.segments))) }
    {
        match &self.hot_part {
            Some(hot_part) => rows.push_run(&hot_part.rows, from, to)?,
            None => {
                for _ in from..to {
                    rows.push(&[])?;
                }
            }
        }
        Ok(())
    }
}

/// Appends the pixels with these steps along `s`.
fn push_points(points: &mut Vec<Point>, frame: &Frame, s: &Ur, row: &[u32]) -> Result<(), Memory>
    ensures { OnOk result (points.new.items
        ≡ points.old.items ++ map (λ k. pixel_at frame.now (step_of s.now k)) row.now) }
{
    points.reserve_exact(row.len())?;
    for step in row {
        points.push(frame.pixel_at(step_of(s, *step)))?;
    }
    Ok(())
}
