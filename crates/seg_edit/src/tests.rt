//! Worked rows, and a drawing that editors change from older versions.

mod many_editors;
mod replaced;
mod rows;

ghost use Rattle.std.specs.Prelude.{◌≡◌, ◌+◌, ◌<◌, ◌≤◌, ◌^◌, length, IfOk, OnOk};
ghost use Rattle.grid_core.specs.Segment.{IsSegment};
ghost use Rattle.version_core.specs.Stands.{after_change};
ghost use Rattle.version_core.specs.Version.{IsNext, most_segments};
ghost use Rattle.seg_edit.specs.Waiting.{IsWaiting};

use crate::{Prepared, apply, prepare_insert};
use grid_core::{Memory, Name, Point, Profile, TileId, Ur};
use std::alloc::Global;
use std::process::Abort;
use version_core::{Look, Looked, Version};

fn name(rt: &impl Abort, editor: u8, serial: u16) -> Name {
    Name::new(editor, serial).expect(rt, "an editor from 1 to 64, and a serial above 0")
}

/// The insertion of a segment between two points, given as four coordinates. Nothing else is among
/// the looks.
fn insertion(
    rt: &impl Abort,
    alloc: Global,
    base: &Version,
    name: Name,
    ends: [i64; 4],
    looked: &mut Looked,
) -> Result<Prepared, Memory>
    requires brand { base.now.brand ≡ looked.old.brand }
    ensures waiting { IfOk result (IsWaiting base.now) }
    ensures brand { OnOk result (looked.new.brand ≡ looked.old.brand) }
{
    let s = segment(rt, base, name, ends);
    assert!(rt; base.segment(s.name(), looked)?.is_none());
    assert!(rt; looked.clear());
    prepare_insert(alloc, base, s, looked)
}

fn segment(rt: &impl Abort, base: &Version, name: Name, ends: [i64; 4]) -> Ur
    ensures { IsSegment base.now.profile.bound result }
{
    let [a, b, c, d] = ends;
    let p = Point { x: a, y: b };
    let q = Point { x: c, y: d };
    Ur::new(&base.profile(), name, p, q).expect(rt, "two ends within the bound")
}

/// The version after the prepared change.
fn after(rt: &impl Abort, current: &Version, prepared: &Prepared) -> Result<Version, Memory>
    requires { IsWaiting current.now prepared.now }
    ensures { IfOk result (IsNext current.now prepared.now.change) }
{
    see_room(rt, current, prepared);
    apply(current, prepared)
}

/// The version with a segment more, which meets these tiles.
fn grown(
    rt: &impl Abort,
    alloc: Global,
    base: &Version,
    name: Name,
    ends: [i64; 4],
    tiles: &[TileId],
    looked: &mut Looked,
) -> Result<Version, Memory>
    requires brand { base.now.brand ≡ looked.old.brand }
    ensures { IfOk result (λ v. v.brand ≡ looked.new.brand) }
{
    let change = insertion(rt, alloc, base, name, ends, looked)?;
    assert!(rt; change.tiles() == tiles);
    after(rt, base, &change)
}

/// The version with one segment, which meets these tiles.
fn opened(
    rt: &impl Abort,
    alloc: Global,
    name: Name,
    ends: [i64; 4],
    tiles: &[TileId],
) -> Result<(Version, Looked), Memory>
    ensures { IfOk result (λ p. p.0.brand ≡ p.1.brand) }
{
    let (first, mut looked) = Version::open(alloc, Profile::edition_one(), 5)?;
    let version = grown(rt, alloc, &first, name, ends, tiles, &mut looked)?;
    Ok((version, looked))
}

/// Sees that the change isn't one too many.
fn see_room(rt: &impl Abort, current: &Version, prepared: &Prepared)
    requires { IsWaiting current.now prepared.now }
    ensures few { length (after_change current.now.live prepared.now.change) ≤ most_segments }
    ensures numbered { current.now.number + 1 < 2 ^ 32 }
{
    assert!(rt; current.number() < 10_000);
    assert!(rt; current.count() < 1_000);
    assert!(rt; prepared.change().edits().len() <= 32);
}

/// The tile in this column and row.
fn tile(i: i32, j: i32) -> TileId {
    TileId { i, j }
}

/// Whether the looks are at these tiles.
fn are_at(looks: &[Look], tiles: &[TileId]) -> bool {
    if looks.len() != tiles.len() {
        return false;
    }
    for (look, id) in looks.iter().zip(tiles) {
        if *look != Look::Tile(*id) {
            return false;
        }
    }
    true
}
