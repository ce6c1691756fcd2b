//! The version after a change of whose tiles the new contents are given.

ghost use Rattle.std.specs.Prelude.{◌≡◌, ◌≤◌, ◌^◌, ◌-ℤ◌, pos, unsigned_abs, length, map};
ghost use Rattle.std.specs.Prelude.{option_map, IfOk};
ghost use Rattle.std.specs.Arc.{arc_value};
ghost use Rattle.std.specs.List.{AllByRecursion};
ghost use Rattle.grid_core.specs.Segment.{IsSegment};
ghost use Rattle.grid_core.specs.Tiles.{tiles};
ghost use Rattle.tile_law.specs.Laws.{IsTileInReach};
ghost use Rattle.version_core.specs.Edits.{edited_segment};
ghost use Rattle.version_core.specs.Laws.{AreSegments};
ghost use Rattle.version_core.specs.Replaced.{plain_tile, contents_after, passes_gained};
ghost use Rattle.version_core.specs.Replaced.{spans_gained, spans_gained_by};
ghost use Rattle.version_core.specs.Stands.{content_of, content_passes};
ghost use Rattle.version_core.specs.Version.{MayFollow, IsNext};

use crate::change::{Change, Edit};
use crate::renewal::{NewTiles, Renewal};
use crate::version::Version;
use grid_core::{Memory, Profile, TileId, Ur};
use hot_tile::Tile;
use std::alloc::Global;
use std::sync::Arc;

/// A tile with its new content, `None` where no segment meets it any more.
type NewTile = (TileId, Option<Arc<Tile>>);

impl Version {
    /// The version after the change, whose tiles are given by column and then row, each with what it
    /// has of the rounding of the new live list: `None` where no segment meets it. They are copied.
    pub fn replace(
        &self,
        change: &Change,
        tiles: &[(TileId, Option<Arc<Tile>>)],
    ) -> Result<Version, Memory>
        requires follows { MayFollow self.now change.now }
        requires tiles { map plain_tile tiles.now
            ≡ contents_after self.now.profile self.now.live change.now.edits }
        ensures { IfOk result (IsNext self.now change.now) }
    {
        let gain = self.passes_gained(tiles);
        let span_gain = spans_gained(self.alloc, &self.profile, change.edits())?;
        let contents = copied(self.alloc, tiles)?;
        let mut renewal = Renewal::of(contents, change.copy()?, gain as i64, span_gain as i64)?;
        self.renewed(&mut renewal)
    }

    /// How many more passes the new contents have than this version's tiles.
    fn passes_gained(&self, tiles: &[NewTile]) -> i128
        ensures { result ≡ passes_gained self.now.profile self.now.live (map plain_tile tiles.now) }
    {
        let mut gain = 0;
        for tile in tiles {
            gain += difference(passes_of(&tile.1), self.passes_in(tile.0));
        }
        gain
    }

    /// How many passes the tile has.
    fn passes_in(&self, id: TileId) -> u64
        ensures { result ≡ content_passes (content_of self.now.profile id self.now.live) }
    {
        match self.part(id) {
            Some(tile) => tile.passes(),
            None => 0,
        }
    }
}

/// How many passes the new content has.
fn passes_of(tile: &Option<Arc<Tile>>) -> u64
    ensures { result ≡ content_passes (option_map arc_value tile.now) }
{
    match tile {
        Some(tile) => tile.passes(),
        None => 0,
    }
}

/// How much greater the new number is than the old one.
fn difference(new: u64, old: u64) -> i128
    ensures value { result ≡ pos new -ℤ pos old }
    ensures small { unsigned_abs result ≤ 2 ^ 64 }
{
    i128::from(new) - i128::from(old)
}

/// How many spans the edits gain.
fn spans_gained(alloc: Global, profile: &Profile, edits: &[Edit]) -> Result<i128, Memory>
    requires { AreSegments profile.now.bound edits.now }
    ensures { IfOk result (λ g. g ≡ spans_gained profile.now edits.now) }
{
    let mut gain = 0;
    for edit in edits {
        gain += spans_gained_by(alloc, profile, edit)?;
    }
    Ok(gain)
}

/// How many spans the edit gains.
fn spans_gained_by(alloc: Global, profile: &Profile, edit: &Edit) -> Result<i128, Memory>
    requires { IsSegment profile.now.bound (edited_segment edit.now) }
    ensures value { IfOk result (λ g. g ≡ spans_gained_by profile.now edit.now) }
    ensures small { IfOk result (λ g. unsigned_abs g ≤ 2 ^ 64) }
{
    match edit {
        Edit::Insert(s) => Ok(spans(alloc, profile, s)? as i128),
        Edit::Delete(s) => Ok(0 - spans(alloc, profile, s)? as i128),
    }
}

/// How many tiles the segment meets.
fn spans(alloc: Global, profile: &Profile, s: &Ur) -> Result<usize, Memory>
    requires { IsSegment profile.now.bound s.now }
    ensures { IfOk result (λ n. n ≡ length (tiles profile.now s.now)) }
{
    let _side = profile.side();
    Ok(tile_walk::tiles(alloc, s, profile)?.len())
}

/// The new contents, in memory of their own.
fn copied(alloc: Global, tiles: &[NewTile]) -> Result<NewTiles, Memory>
    requires { AllByRecursion (λ e. IsTileInReach e.0) tiles.now }
    ensures { IfOk result (λ n. n ≡ map plain_tile tiles.now) }
{
    let mut contents = NewTiles::open(alloc, tiles.len())?;
    for tile in tiles {
        contents.push(tile.0, copy_of(&tile.1)?)?;
    }
    Ok(contents)
}

fn copy_of(tile: &Option<Arc<Tile>>) -> Result<Option<Tile>, Memory>
    ensures { IfOk result (λ t. t ≡ option_map arc_value tile.now) }
{
    match tile {
        Some(tile) => Ok(Some(tile.copy()?)),
        None => Ok(None),
    }
}
