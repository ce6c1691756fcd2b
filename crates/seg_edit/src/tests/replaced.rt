//! Versions made of the new contents of a change's tiles, beside those that `apply` makes.

ghost use Rattle.std.specs.Prelude.{◌≡◌, map, option_map, IfOk, OnOk};
ghost use Rattle.std.specs.Arc.{arc_value};
ghost use Rattle.version_core.specs.Replaced.{plain_tile};
ghost use Rattle.version_core.specs.Stands.{content_of};
ghost use Rattle.version_core.specs.Version.{IsNext};
ghost use Rattle.seg_edit.specs.Waiting.{IsWaiting};

use super::many_editors::{compare, see_equal};
use super::{after, grown, insertion, name, opened, see_room, tile};
use crate::{Prepared, prepare_delete};
use grid_core::{Memory, TileId};
use hot_tile::Tile;
use std::alloc::Global;
use std::process::Abort;
use std::sync::Arc;
use std::test::Fail;
use version_core::{Looked, Version};

/// A tile with its content, `None` where no segment meets it.
type Given = (TileId, Option<Arc<Tile>>);

/// The tiles, each with what the version has of it.
fn given_tiles(
    alloc: Global,
    version: &Version,
    ids: &[TileId],
    looked: &mut Looked,
) -> Result<Vec<Given>, Memory>
    requires brand { version.now.brand ≡ looked.old.brand }
    ensures tiles { IfOk result (λ given. map plain_tile given.items
        ≡ map (λ t. (t, content_of version.now.profile t version.now.live)) ids.now) }
    ensures brand { OnOk result (looked.new.brand ≡ looked.old.brand) }
{
    let mut given = Vec::with_capacity(alloc, ids.len())?;
    for id in ids {
        given.push((*id, given_content(alloc, version, *id, looked)?))?;
    }
    Ok(given)
}

/// What the version has of the tile, in memory of its own.
fn given_content(
    alloc: Global,
    version: &Version,
    id: TileId,
    looked: &mut Looked,
) -> Result<Option<Arc<Tile>>, Memory>
    requires brand { version.now.brand ≡ looked.old.brand }
    ensures content { IfOk result (λ o. option_map arc_value o
        ≡ content_of version.now.profile id version.now.live) }
    ensures brand { OnOk result (looked.new.brand ≡ looked.old.brand) }
{
    match version.tile(id, looked)? {
        Some(tile) => Ok(Some(Arc::new(alloc, tile.copy()?)?)),
        None => Ok(None),
    }
}

/// The version after the prepared change, made of what the next version has of its tiles.
fn replaced(
    rt: &impl Abort,
    alloc: Global,
    base: &Version,
    prepared: &Prepared,
    next: &Version,
    looked: &mut Looked,
) -> Result<Version, Memory>
    requires waiting { IsWaiting base.now prepared.now }
    requires next { IsNext base.now prepared.now.change next.now }
    requires brand { next.now.brand ≡ looked.old.brand }
    ensures next { IfOk result (IsNext base.now prepared.now.change) }
    ensures brand { OnOk result (looked.new.brand ≡ looked.old.brand) }
{
    see_room(rt, base, prepared);
    let given = given_tiles(alloc, next, prepared.tiles(), looked)?;
    base.replace(prepared.change(), &given)
}

/// The version after the prepared change by `replace`, once it is seen that it is the one by `apply`,
/// and has the rounding of its live list.
fn seen_replaced(
    rt: &impl Abort,
    alloc: Global,
    base: &Version,
    prepared: &Prepared,
    looked: &mut Looked,
) -> Result<Version, Fail>
    requires waiting { IsWaiting base.now prepared.now }
    requires brand { base.now.brand ≡ looked.old.brand }
    ensures { IfOk result (λ v. v.brand ≡ looked.new.brand) }
{
    let next = after(rt, base, prepared)?;
    let version = replaced(rt, alloc, base, prepared, &next, looked)?;
    see_equal(rt, &version, &next, looked)?;
    compare(rt, alloc, &version, looked)?;
    Ok(version)
}

/// Three short segments beside the border between two columns of tiles. The second one alone meets
/// the tile in column 0 below the first row.
fn beside_border(rt: &impl Abort, alloc: Global) -> Result<(Version, Looked), Memory>
    ensures { IfOk result (λ p. p.0.brand ≡ p.1.brand) }
{
    let tiles = [tile(0, 0), tile(1, 0)];
    let (flat, mut looked) = opened(rt, alloc, name(rt, 1, 1), [250, 0, 260, 0], &tiles)?;
    let (ends, tiles) = ([255, -1, 256, 1], [tile(0, -1), tile(0, 0), tile(1, 0)]);
    let two = grown(rt, alloc, &flat, name(rt, 1, 2), ends, &tiles, &mut looked)?;
    let (ends, tiles) = ([258, -3, 259, 4], [tile(1, -1), tile(1, 0)]);
    let three = grown(rt, alloc, &two, name(rt, 1, 3), ends, &tiles, &mut looked)?;
    Ok((three, looked))
}

/// The version with a segment more, which crosses the three others.
fn with_crossing(
    rt: &impl Abort,
    alloc: Global,
    base: &Version,
    looked: &mut Looked,
) -> Result<Version, Fail>
    requires { base.now.brand ≡ looked.old.brand }
    ensures { IfOk result (λ v. v.brand ≡ looked.new.brand) }
{
    let change = insertion(rt, alloc, base, name(rt, 2, 1), [251, 3, 263, -2], looked)?;
    assert!(rt; change.tiles() == [tile(0, 0), tile(1, -1), tile(1, 0)].as_slice());
    seen_replaced(rt, alloc, base, &change, looked)
}

/// The version without the second segment.
fn without_second(
    rt: &impl Abort,
    alloc: Global,
    base: &Version,
    looked: &mut Looked,
) -> Result<Version, Fail>
    requires { base.now.brand ≡ looked.old.brand }
    ensures { IfOk result (λ v. v.brand ≡ looked.new.brand) }
{
    let change = prepare_delete(alloc, base, 2, name(rt, 1, 2), looked)?;
    assert!(rt; change.tiles() == [tile(0, -1), tile(0, 0), tile(1, 0)].as_slice());
    seen_replaced(rt, alloc, base, &change, looked)
}

#[test]
fn given_tiles_make_what_apply_makes(rt: HostRuntime) -> Result<(), Fail> {
    let (base, mut looked) = beside_border(&rt, rt.alloc())?;
    let crossed = with_crossing(&rt, rt.alloc(), &base, &mut looked)?;
    let version = without_second(&rt, rt.alloc(), &crossed, &mut looked)?;
    assert!(rt; version.tile(tile(0, -1), &mut looked)?.is_none());
    Ok(())
}
