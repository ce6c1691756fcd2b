//! Strips that are made anew after an edit.

use super::{found, rounded};
use crate::CellMap;
use grid_core::Point;
use std::process::Abort;
use std::test::Fail;

/// Before an edit, and after it: the last segment cuts the first one at a new pixel in strip 0, so that
/// the first one's edges change in the strips -2 to 1, and nothing else changes there.
const EDITED: [[i64; 4]; 4] = [
    [-300, 0, 300, 40],
    [-256, 60, -255, 20],
    [600, 10, 700, 10],
    [100, 0, 110, 60],
];

/// The strips in which something changes with the edit.
const CHANGED: [i64; 4] = [-2, -1, 0, 1];

/// A query point of a grid over the strips -4 to 4, in 1/256 of a pixel.
fn grid_point(i: i64, j: i64) -> Point {
    Point {
        x: i.wrapping_mul(7936).wrapping_sub(200_192),
        y: j.wrapping_mul(2560).wrapping_sub(2560),
    }
}

/// Of how many query points of a grid in these strips two maps tell something different.
fn differences(rt: &impl Abort, one: &CellMap, other: &CellMap, strips: &[i64]) -> u32 {
    let mut count = 0u32;
    for i in 0..60 {
        for j in 0..9 {
            let at = grid_point(i, j);
            let is_there = strips.contains(&at.x.div_euclid(65536));
            if is_there && found(rt, one, at) != found(rt, other, at) {
                count = count.wrapping_add(1);
            }
        }
    }
    count
}

#[test]
fn refreshed_strips_are_as_built_anew(rt: HostRuntime) -> Result<(), Fail> {
    let before = rounded(&rt, rt.alloc(), 3, EDITED)?;
    let after = rounded(&rt, rt.alloc(), 4, EDITED)?;
    let all = [-4, -3, -2, -1, 0, 1, 2, 3, 4];
    let built = CellMap::build(rt.alloc(), &after)?;
    let mut cells = CellMap::build(rt.alloc(), &before)?;
    for k in CHANGED {
        assert!(rt;
            differences(&rt, &cells, &built, &[k]) > 0,
            "strip {k} changes"
        );
    }
    cells.refresh(&CHANGED, &after)?;
    assert_eq!(rt; differences(&rt, &cells, &built, &all), 0, "all strips");
    let nothing = rounded(&rt, rt.alloc(), 0, EDITED)?;
    let mut cells = CellMap::build(rt.alloc(), &nothing)?;
    cells.refresh(&all, &after)?;
    assert_eq!(rt;
        differences(&rt, &cells, &built, &all),
        0,
        "strips that were left out"
    );
    Ok(())
}

#[test]
fn strips_not_given_stay(rt: HostRuntime) -> Result<(), Fail> {
    let before = rounded(&rt, rt.alloc(), 3, EDITED)?;
    let after = rounded(&rt, rt.alloc(), 4, EDITED)?;
    let old = CellMap::build(rt.alloc(), &before)?;
    let new = CellMap::build(rt.alloc(), &after)?;
    let mut cells = CellMap::build(rt.alloc(), &before)?;
    cells.refresh(&[0, 7, 0], &after)?;
    assert_eq!(rt; differences(&rt, &cells, &new, &[0]), 0, "the strip given");
    let others = [-4, -3, -2, -1, 1, 2, 3, 4];
    assert_eq!(rt;
        differences(&rt, &cells, &old, &others),
        0,
        "the strips not given"
    );
    Ok(())
}

#[test]
fn strips_that_no_edge_can_meet(rt: HostRuntime) -> Result<(), Fail> {
    let before = rounded(&rt, rt.alloc(), 3, EDITED)?;
    let old = CellMap::build(rt.alloc(), &before)?;
    let mut cells = CellMap::build(rt.alloc(), &before)?;
    cells.refresh(&[i64::MIN, 1 << 26, i64::MAX], &before)?;
    let all = [-4, -3, -2, -1, 0, 1, 2, 3, 4];
    assert_eq!(rt; differences(&rt, &cells, &old, &all), 0, "all strips");
    Ok(())
}
