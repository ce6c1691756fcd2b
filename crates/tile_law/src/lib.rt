//! The laws of tiles, for every profile, segment and list of segments: which tiles a segment meets,
//! in which order; that the part of a rounding in a tile is made by the segments that meet the
//! tile; that routes are their pieces in tiles, joined, and that passes add up over tiles.
//!
//! A call gives its caller the law, and does nothing when it runs. It reads a size or an end so
//! that what the type keeps is known.

#![tactic(auto)]

ghost use Rattle.tile_law.specs.Laws.{TilesAreMet, PixelsLieInMetTiles, MetTilesAreInReach};
ghost use Rattle.tile_law.specs.Laws.{PixelsStandByPlace, PartsAreLocal, RouteIsJoined};
ghost use Rattle.tile_law.specs.Laws.{PassesAddUp, EditsAreLocal, PartsAfterEdits};

use grid_core::{Profile, Ur};

/// `tiles` has exactly the tiles that `s` meets, by column and then row, and `along` has them in
/// the order in which `s` meets them from `p` to `q`. Each stands there once.
pub fn tiles_are_met(profile: &Profile, s: &Ur)
    ensures { TilesAreMet profile.now s.now }
{
    profile.side();
    s.p();
}

/// A pixel that `s` meets lies in a tile that `s` meets.
pub fn pixels_lie_in_met_tiles(profile: &Profile, s: &Ur)
    ensures { PixelsLieInMetTiles profile.now s.now }
{
    profile.side();
}

/// A segment within the profile's bound meets no tile whose column or row is greater than 16,384 in
/// size.
pub fn met_tiles_are_in_reach(profile: &Profile, s: &Ur)
    ensures { MetTilesAreInReach profile.now s.now }
{
    profile.side();
}

/// Of two pixels that `s` meets the one further along `s` has the greater x, or the same x and a
/// greater y, or a lesser y where `s` falls.
pub fn pixels_stand_by_place(s: &Ur)
    ensures { PixelsStandByPlace s.now }
{
    s.p();
}

/// The part of the rounding in a tile is that of the segments that meet the tile, whatever other
/// segments there are. Two lists with the same segments in a tile have the same part there.
pub fn parts_are_local(profile: &Profile, segments: &[Ur])
    ensures { PartsAreLocal profile.now segments.now }
{
    profile.side();
}

/// The route of `s` is its pieces in the tiles of `along`, joined. For a segment of the list, where
/// names rise, they are what the parts in these tiles have of it.
pub fn routes_are_joined(profile: &Profile, segments: &[Ur], s: &Ur)
    ensures { RouteIsJoined profile.now segments.now s.now }
{
    profile.side();
    s.p();
}

/// The passes of a rounding are the sum of those of its parts, over tiles that have all segments.
/// Where two lists have the same segments in all other tiles, their passes differ by as much as
/// those of the parts in these tiles.
pub fn passes_add_up(profile: &Profile, segments: &[Ur])
    ensures { PassesAddUp profile.now segments.now }
{
    profile.side();
}

/// The segments near a tile after an edit are made by those near it before. An edit with a segment
/// that doesn't meet the tile leaves them as they were.
pub fn edits_are_local(profile: &Profile, segments: &[Ur])
    ensures { EditsAreLocal profile.now segments.now }
{}

/// The part in a tile after an edit is made by the segments near the tile before. An edit with a
/// segment that doesn't meet the tile leaves it as it was.
pub fn parts_after_edits(profile: &Profile, segments: &[Ur])
    ensures { PartsAfterEdits profile.now segments.now }
{
    profile.side();
}
