//! Worked rows.

ghost use Rattle.std.specs.Prelude.{◌≡◌, IfOk, OnOk};
ghost use Rattle.seg_edit.specs.Waiting.{IsWaiting};

use super::many_editors::still_waits;
use super::{after, are_at, grown, insertion, name, opened, tile};
use crate::{PrepareFault, Prepared, prepare_delete};
use grid_core::{Memory, Name, Point, Profile};
use std::alloc::Global;
use std::process::Abort;
use std::test::Fail;
use version_core::{Look, Looked, Version};

/// Segment 3.1 alone, from (0, 0) to (2000, 0).
fn long_one(rt: &impl Abort, alloc: Global) -> Result<(Version, Looked), Memory>
    ensures { IfOk result (λ p. p.0.brand ≡ p.1.brand) }
{
    let ends = [0, 0, 2000, 0];
    let tiles = [
        tile(0, 0),
        tile(1, 0),
        tile(2, 0),
        tile(3, 0),
        tile(4, 0),
        tile(5, 0),
        tile(6, 0),
        tile(7, 0),
    ];
    opened(rt, alloc, name(rt, 3, 1), ends, &tiles)
}

/// Sees what a segment across the long one gains.
fn see_gains(
    rt: &impl Abort,
    alloc: Global,
    base: &Version,
    looked: &mut Looked,
) -> Result<(), Memory>
    requires { base.now.brand ≡ looked.old.brand }
{
    let change = insertion(rt, alloc, base, name(rt, 1, 1), [10, -5, 10, 5], looked)?;
    let tiles = [tile(0, -1), tile(0, 0)];
    assert!(rt; change.tiles() == tiles.as_slice() && are_at(looked.looks(), &tiles));
    assert!(rt; change.base() == 1 && change.gain() == 4 && change.span_gain() == 2);
    Ok(())
}

#[test]
fn version_gains(rt: HostRuntime) -> Result<(), Fail> {
    let (version, mut looked) = long_one(&rt, rt.alloc())?;
    see_gains(&rt, rt.alloc(), &version, &mut looked)?;
    Ok(())
}

/// The version after the second of two changes that were prepared on one, and then the first.
fn second_first(
    rt: &impl Abort,
    base: &Version,
    first: &Prepared,
    second: &Prepared,
    looked: &mut Looked,
) -> Result<Version, Memory>
    requires first { IsWaiting base.now first.now }
    requires second { IsWaiting base.now second.now }
    requires brand { base.now.brand ≡ looked.old.brand }
    ensures { IfOk result (λ v. v.brand ≡ looked.new.brand) }
{
    let next = after(rt, base, second)?;
    assert!(rt; still_waits(first, second, base, &next, looked)?);
    after(rt, &next, first)
}

/// The version after two changes far from one another, which were prepared on one.
fn rebased(
    rt: &impl Abort,
    alloc: Global,
    base: &Version,
    looked: &mut Looked,
) -> Result<Version, Memory>
    requires { base.now.brand ≡ looked.old.brand }
    ensures { IfOk result (λ v. v.brand ≡ looked.new.brand) }
{
    let left = insertion(rt, alloc, base, name(rt, 1, 1), [10, -5, 10, 5], looked)?;
    assert!(rt; left.tiles() == [tile(0, -1), tile(0, 0)].as_slice());
    let right = insertion(rt, alloc, base, name(rt, 2, 1), [1500, -5, 1500, 5], looked)?;
    assert!(rt; right.tiles() == [tile(5, -1), tile(5, 0)].as_slice());
    second_first(rt, base, &left, &right, looked)
}

/// Sees the route of a name.
fn see_route(
    rt: &impl Abort,
    version: &Version,
    name: Name,
    want: &[Point],
    looked: &mut Looked,
) -> Result<(), Fail>
    requires { version.now.brand ≡ looked.old.brand }
    ensures { OnOk result (looked.new.brand ≡ looked.old.brand) }
{
    let route = version.route(name, looked)?;
    assert_eq!(rt; route.as_slice(), want);
    Ok(())
}

/// Rows of one long segment with two far edits: their tiles, and that the first stands after the
/// second.
#[test]
fn version_rebased(rt: HostRuntime) -> Result<(), Fail> {
    let (base, mut looked) = long_one(&rt, rt.alloc())?;
    let version = rebased(&rt, rt.alloc(), &base, &mut looked)?;
    assert!(rt; version.number() == 3);
    assert!(rt; version.stamp(tile(5, 0)) == 2 && version.stamp(tile(0, 0)) == 3);
    let want = [
        Point { x: 0, y: 0 },
        Point { x: 10, y: 0 },
        Point { x: 1500, y: 0 },
        Point { x: 2000, y: 0 },
    ];
    see_route(&rt, &version, name(&rt, 3, 1), &want, &mut looked)
}

#[test]
fn delete_unknown(rt: HostRuntime) -> Result<(), Fail> {
    let (version, mut looked) = Version::open(rt.alloc(), Profile::edition_one(), 5)?;
    let missing = name(&rt, 1, 1);
    match prepare_delete(rt.alloc(), &version, 2, missing, &mut looked) {
        Ok(_) => assert!(rt; false),
        Err(fault) => assert!(rt; fault == PrepareFault::Unknown),
    }
    assert!(rt; looked.looks() == [Look::Name(missing)].as_slice());
    Ok(())
}

#[test]
fn tile_border(rt: HostRuntime) -> Result<(), Fail> {
    let (flat, steep) = (name(&rt, 1, 1), name(&rt, 1, 2));
    let tiles = [tile(0, 0), tile(1, 0)];
    let (first, mut looked) = opened(&rt, rt.alloc(), flat, [250, 0, 260, 0], &tiles)?;
    let tiles = [tile(0, -1), tile(0, 0), tile(1, 0)];
    let ends = [255, -1, 256, 1];
    let version = grown(&rt, rt.alloc(), &first, steep, ends, &tiles, &mut looked)?;
    let want = [
        Point { x: 250, y: 0 },
        Point { x: 256, y: 0 },
        Point { x: 260, y: 0 },
    ];
    see_route(&rt, &version, flat, &want, &mut looked)?;
    let want = [
        Point { x: 255, y: -1 },
        Point { x: 256, y: 0 },
        Point { x: 256, y: 1 },
    ];
    see_route(&rt, &version, steep, &want, &mut looked)
}
