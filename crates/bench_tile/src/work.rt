//! The works: segments that come into a tile and go again.

ghost use Rattle.std.specs.Prelude.{◌≡◌, ◌≤◌, pos, IfOk, IfSome};

use crate::draws::Draws;
use grid_core::{Memory, Name, Profile, TileId, Ur, tile_box};
use hot_tile::{Scratch, Tile};
use pixel_test::meets;
use std::alloc::Global;

/// Which tile.
#[derive(Clone, Copy)]
pub(crate) enum Work {
    /// 16 segments.
    Few,
    /// 200 segments that cross all of the tile.
    Chords,
    /// No segment but the one that comes and goes.
    One,
}

impl Work {
    ghost use Rattle.std.specs.Prelude.{◌≤◌};

    pub(crate) fn named(word: &str) -> Option<Work> {
        match word {
            "few" => Some(Work::Few),
            "chords" => Some(Work::Chords),
            "one" => Some(Work::One),
            _ => None,
        }
    }

    /// How many segments stay in the tile.
    fn count(self) -> u16
        ensures { result ≤ 200 }
    {
        match self {
            Work::Few => 16,
            Work::Chords => 200,
            Work::One => 0,
        }
    }
}

/// Counts that tell what was done.
#[derive(Clone, Copy)]
pub(crate) struct Done {
    pub(crate) segments: usize,
    pub(crate) passes: u64,
    /// The passes that the tile had after each step.
    pub(crate) sum: u64,
}

/// Fills a tile, and then puts a segment in and takes it out again in each round. `None` where a
/// segment doesn't meet the tile.
pub(crate) fn run(alloc: Global, rounds: u32, work: Work) -> Result<Option<Done>, Memory> {
    let profile = Profile::edition_one();
    let id = TileId { i: 0, j: 0 };
    let mut draws = Draws::open();
    let mut scratch = Scratch::open(alloc);
    let mut tile = Tile::empty(alloc, profile, id);
    for number in 0..work.count() {
        let Some(more) = put(
            &profile,
            &tile,
            2 * number + 2,
            work,
            &mut draws,
            &mut scratch,
        )?
        else {
            return Ok(None);
        };
        tile = more;
    }
    let mut sum = 0u64;
    for round in 0..rounds {
        let number = 2 * (round % (u32::from(work.count()) + 1)) as u16 + 1;
        let Some(more) = put(&profile, &tile, number, work, &mut draws, &mut scratch)? else {
            return Ok(None);
        };
        sum = sum.wrapping_add(more.passes());
        let Some(less) = take(&more, number, &mut scratch)? else {
            return Ok(None);
        };
        sum = sum.wrapping_add(less.passes());
        tile = less;
    }
    Ok(Some(Done {
        segments: tile.count(),
        passes: tile.passes(),
        sum,
    }))
}

/// The tile with the segment of this number. `None` where the segment doesn't meet the tile, or its
/// name is there already.
fn put(
    profile: &Profile,
    tile: &Tile,
    number: u16,
    work: Work,
    draws: &mut Draws,
    scratch: &mut Scratch,
) -> Result<Option<Tile>, Memory>
    requires side { profile.now.side ≡ 256 }
    requires profile { tile.now.profile ≡ profile.now }
    requires id { tile.now.id ≡ record { i = pos 0; j = pos 0 } }
    ensures profile { IfOk result (λ o. IfSome o (λ t. t.profile ≡ tile.now.profile)) }
    ensures id { IfOk result (λ o. IfSome o (λ t. t.id ≡ tile.now.id)) }
{
    let Some(name) = Name::new(1, number) else {
        return Ok(None);
    };
    let (a, b) = draws.ends(work, number);
    let Ok(s) = Ur::new(profile, name, a, b) else {
        return Ok(None);
    };
    let square = tile_box(profile, TileId { i: 0, j: 0 });
    if tile.segment(s.name()).is_some() {
        return Ok(None);
    }
    if tile.count() >= 65_536 || !meets(&s, &square) {
        return Ok(None);
    }
    Ok(Some(tile.with_segment_in(&s, scratch)?))
}

/// The tile without the segment of this number. `None` where it has none.
fn take(tile: &Tile, number: u16, scratch: &mut Scratch) -> Result<Option<Tile>, Memory>
    ensures profile { IfOk result (λ o. IfSome o (λ t. t.profile ≡ tile.now.profile)) }
    ensures id { IfOk result (λ o. IfSome o (λ t. t.id ≡ tile.now.id)) }
{
    let Some(name) = Name::new(1, number) else {
        return Ok(None);
    };
    if tile.segment(name).is_none() {
        return Ok(None);
    }
    Ok(Some(tile.without_in(name, scratch)?))
}
