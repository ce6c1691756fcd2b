//! The new contents of the tiles that a segment meets.

ghost use Rattle.std.specs.Prelude.{◌≡◌, ◌≤◌, ◌^◌, pos, ◌-ℤ◌, ◌+ℤ◌, map, length, IfOk, option_copied};
ghost use Rattle.std.specs.Prelude.{unsigned_abs, All};
ghost use Rattle.grid_core.specs.Segment.{IsSegment};
ghost use Rattle.version_core.specs.Stands.{content_passes};
ghost use Rattle.seg_edit.specs.Contents.{grown, thinned, found_contents, passes_together};
ghost use Rattle.seg_edit.specs.Contents.{MayGrow, MayShrink};

use grid_core::{Memory, Name, Profile, TileId, Ur};
use hot_tile::{Scratch, Tile};
use std::alloc::Global;
use version_core::NewTiles;

/// A tile as a version gives it.
pub(crate) type Found<'a> = (TileId, Option<&'a Tile>);

/// The tiles with the segment, and how many passes they gain.
pub(crate) fn grow_tiles(
    alloc: Global,
    profile: Profile,
    found: &[Found],
    s: &Ur,
    scratch: &mut Scratch,
) -> Result<(NewTiles, i128), Memory>
    requires within { IsSegment profile.bound s.now }
    requires ready { All (λ e. MayGrow profile s.now (e.0, option_copied e.1)) found.now }
    requires few { length found.now ≤ 2 ^ 32 }
    ensures contents { IfOk result
        (λ r. r.0 ≡ map (grown profile s.now) (found_contents found.now)) }
    ensures gain { IfOk result
        (λ r. r.1 ≡ pos (passes_together r.0) -ℤ pos (passes_together (found_contents found.now))) }
{
    let mut new = NewTiles::open(alloc, found.len().saturating_add(1))?;
    let mut gain = 0;
    for tile in found {
        let after = grow_tile(alloc, profile, tile, s, scratch)?;
        gain = moved(gain, passes(tile.1), after.passes());
        new.push(tile.0, Some(after))?;
    }
    Ok((new, gain))
}

/// The tile with the segment.
fn grow_tile(
    alloc: Global,
    profile: Profile,
    found: &Found,
    s: &Ur,
    scratch: &mut Scratch,
) -> Result<Tile, Memory>
    requires within { IsSegment profile.bound s.now }
    requires ready { MayGrow profile s.now (found.now.0, option_copied found.now.1) }
    ensures { IfOk result (λ t. (found.now.0, Some t)
        ≡ grown profile s.now (found.now.0, option_copied found.now.1)) }
{
    match found.1 {
        Some(tile) => tile.with_segment_in(s, scratch),
        None => Tile::empty(alloc, profile, found.0).with_segment_in(s, scratch),
    }
}

/// The tiles without the segment of a name, which each has, and how many passes they gain: the gain is
/// negative where they lose some.
pub(crate) fn thin_tiles(
    alloc: Global,
    profile: Profile,
    found: &[Found],
    name: Name,
    scratch: &mut Scratch,
) -> Result<(NewTiles, i128), Memory>
    requires ready { All (λ e. MayShrink profile name (e.0, option_copied e.1)) found.now }
    requires few { length found.now ≤ 2 ^ 32 }
    ensures contents { IfOk result
        (λ r. r.0 ≡ map (thinned profile name) (found_contents found.now)) }
    ensures gain { IfOk result
        (λ r. r.1 ≡ pos (passes_together r.0) -ℤ pos (passes_together (found_contents found.now))) }
{
    let mut new = NewTiles::open(alloc, found.len().saturating_add(1))?;
    let mut gain = 0;
    for tile in found {
        let after = thin_tile(profile, tile, name, scratch)?;
        gain = moved(gain, passes(tile.1), passes(after.as_ref()));
        new.push(tile.0, after)?;
    }
    Ok((new, gain))
}

/// The tile without the segment of a name, none where it was the only one.
fn thin_tile(
    profile: Profile,
    found: &Found,
    name: Name,
    scratch: &mut Scratch,
) -> Result<Option<Tile>, Memory>
    requires ready { MayShrink profile name (found.now.0, option_copied found.now.1) }
    ensures { IfOk result (λ t. (found.now.0, t)
        ≡ thinned profile name (found.now.0, option_copied found.now.1)) }
{
    let Some(tile) = found.1 else {
        return Ok(None);
    };
    let after = tile.without_in(name, scratch)?;
    if after.count() == 0 {
        Ok(None)
    } else {
        Ok(Some(after))
    }
}

/// How many passes the tile has, none where there is no tile.
fn passes(tile: Option<&Tile>) -> u64
    ensures { result ≡ content_passes (option_copied tile.entry) }
{
    match tile {
        Some(tile) => tile.passes(),
        None => 0,
    }
}

/// A gain after one tile more.
fn moved(gain: i128, before: u64, after: u64) -> i128
    requires { unsigned_abs gain ≤ 2 ^ 97 }
    ensures { result ≡ gain +ℤ (pos after -ℤ pos before) }
{
    gain + (i128::from(after) - i128::from(before))
}
