//! What the strips tell, beside the plain scan of the rounding, over all points of fine grids.

ghost use Rattle.std.specs.Prelude.{◌≤◌, ◌^◌, length, IfOk};
ghost use Rattle.std.specs.List.Sorted.{IsStrictlySortedBy};
ghost use Rattle.grid_core.specs.Name.{label_cmp};
ghost use Rattle.grid_core.specs.LiveList.{names};
ghost use Rattle.edge_bundle.specs.Drawn.{IsDrawnWithin};

use super::{UNUSED, WORKED, four, is_within_reach, rounded};
use crate::{CellMap, Found};
use edge_bundle::{locate, rounding_is_drawn_within};
use grid_core::{Memory, Place, Point, Ur};
use round_plain::{Rounding, round};
use std::alloc::Global;
use std::process::Abort;
use std::test::Fail;

/// How many columns and rows a grid of query points has.
const COUNT: i64 = 73;

/// Long segments that cross in three strips.
const LONG: [[i64; 4]; 4] = [
    [-200, -3, 520, 9],
    [-200, 16, 520, -16],
    [0, -8, 255, -9],
    [256, 17, 257, -17],
];

/// The rounding of these segments.
fn drawn(alloc: Global, segments: &[Ur]) -> Result<Rounding, Memory>
    requires rising { IsStrictlySortedBy label_cmp (names segments.now) }
    requires few { length segments.now ≤ 65536 }
    ensures { IfOk result (λ r. IsDrawnWithin (2 ^ 30) r) }
{
    rounding_is_drawn_within(segments);
    round(alloc, segments)
}

/// The rounding of the first `count` of the four segments.
fn pictured(
    rt: &impl Abort,
    alloc: Global,
    count: usize,
    ends: [[i64; 4]; 4],
) -> Result<Rounding, Memory>
    requires { count ≤ 4 }
    ensures { IfOk result (λ r. IsDrawnWithin (2 ^ 30) r) }
{
    let segments = four(rt, ends);
    drawn(alloc, &segments[..count])
}

/// The place, without the columns of a cell.
fn place(found: &Found) -> Place {
    match *found {
        Found::Vertex(h) => Place::Vertex(h),
        Found::OnEdge(e) => Place::OnEdge(e),
        Found::Inside(cell) => Place::Between {
            above: cell.above,
            below: cell.below,
        },
    }
}

/// Whether a cell, where one was found, has the query point's column, and lies in one strip.
fn has_column(found: &Found, at: Point) -> bool {
    match *found {
        Found::Vertex(_) | Found::OnEdge(_) => true,
        Found::Inside(cell) => {
            let right = cell.right.wrapping_sub(1);
            cell.left <= at.x.div_euclid(256)
                && at.x.div_euclid(256) <= right
                && cell.left.div_euclid(256) == right.div_euclid(256)
        }
    }
}

/// Whether the strips tell what the scan tells.
fn agrees(rt: &impl Abort, picture: &Rounding, cells: &CellMap, at: Point) -> bool
    requires { IsDrawnWithin (2 ^ 30) picture.now }
{
    assert!(rt; is_within_reach(at), "a query point within reach");
    let found = cells.find(at);
    has_column(&found, at) && place(&found) == locate(picture, at)
}

/// Of how many points of a grid the strips tell something else than the scan. The grid is given by its
/// lower left point and by how far apart columns and rows are.
fn differences(rt: &impl Abort, picture: &Rounding, cells: &CellMap, grid: [i64; 4]) -> u32
    requires { IsDrawnWithin (2 ^ 30) picture.now }
{
    let [x, y, across, up] = grid;
    let mut count = 0u32;
    for i in 0..COUNT {
        for j in 0..COUNT {
            let at = Point {
                x: x.wrapping_add(i.wrapping_mul(across)),
                y: y.wrapping_add(j.wrapping_mul(up)),
            };
            if !agrees(rt, picture, cells, at) {
                count = count.wrapping_add(1);
            }
        }
    }
    count
}

#[test]
fn places_as_by_the_scan(rt: HostRuntime) -> Result<(), Fail> {
    for (name, count, ends, grid) in [
        ("worked by hand", 3, WORKED, [-1280, -1792, 64, 64]),
        ("no segment", 0, WORKED, [-1280, -1792, 64, 64]),
        (
            "four through one point",
            4,
            [[-3, 0, 3, 0], [0, -3, 0, 3], [-3, -3, 3, 3], [-3, 3, 3, -3]],
            [-1152, -1152, 32, 32],
        ),
        (
            "nearly parallel",
            4,
            [[0, 0, 8, 3], [0, 2, 8, 1], [0, 1, 8, 2], [3, 3, 7, 0]],
            [-128, -128, 32, 16],
        ),
        (
            "over two walls",
            4,
            [
                [-300, 0, 300, 40],
                [-256, 60, -255, 20],
                [255, -9, 256, 90],
                [0, -5, 511, -4],
            ],
            [-76800, -2560, 2176, 384],
        ),
        (
            "about a wall",
            4,
            [
                [-300, 0, 300, 40],
                [-256, 60, -255, 20],
                [255, -9, 256, 90],
                [0, -5, 511, -4],
            ],
            [64384, -2560, 32, 384],
        ),
        (
            "an edge that ends at a wall",
            3,
            [[0, 0, 256, 0], [256, 0, 300, 9], [10, 20, 250, 20], UNUSED],
            [63232, -256, 64, 80],
        ),
        (
            "many vertices in one column",
            4,
            [[0, 0, 9, 1], [0, 6, 9, -5], [0, -4, 9, 9], [4, -9, 5, 12]],
            [704, -2560, 16, 72],
        ),
        (
            "vertical edges in one column",
            4,
            [
                [10, -20, 10, 20],
                [10, 30, 10, 40],
                [0, 0, 20, 1],
                [0, 5, 20, -6],
            ],
            [1984, -7168, 16, 256],
        ),
        (
            "long edges over three strips",
            4,
            LONG,
            [-51200, -4608, 2560, 128],
        ),
    ] {
        let picture = pictured(&rt, rt.alloc(), count, ends)?;
        let planar = rounded(&rt, rt.alloc(), count, ends)?;
        let cells = CellMap::build(rt.alloc(), &planar)?;
        assert_eq!(rt; differences(&rt, &picture, &cells, grid), 0, "{name}");
    }
    Ok(())
}

#[test]
fn refreshed_strips_as_by_the_scan(rt: HostRuntime) -> Result<(), Fail> {
    let picture = pictured(&rt, rt.alloc(), 4, LONG)?;
    let nothing = rounded(&rt, rt.alloc(), 0, LONG)?;
    let planar = rounded(&rt, rt.alloc(), 4, LONG)?;
    let mut cells = CellMap::build(rt.alloc(), &nothing)?;
    cells.refresh(&[2, -1, 0, 1], &planar)?;
    let grid = [-51200, -4608, 2560, 128];
    assert_eq!(rt; differences(&rt, &picture, &cells, grid), 0);
    Ok(())
}
