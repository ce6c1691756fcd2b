//! Which of two edges a vertical line meets first, going up and going down.

ghost use Rattle.std.specs.Prelude.{◌≡◌, ◌≤◌, ◌^◌, unsigned_abs};
ghost use Rattle.grid_core.specs.Vector.{IsWithin};
ghost use Rattle.grid_core.specs.Places.{height_at, height_cmp, slope_cmp, ratio_cmp};
ghost use Rattle.grid_core.specs.Places.{upwards_cmp, downwards_cmp};
ghost use Rattle.place_test.specs.Reach.{IsEdgeWithin};

use crate::arithmetic::{offset, product, scaled, sum};
use crate::side::{direction, query_point};
use grid_core::{Edge, Point};
use std::cmp::Ordering;

/// The order of two edges upwards from the query point: the lower one at its column comes first, of
/// equally high ones that of less slope, and of one slope the lesser edge.
#[inline]
pub fn upwards(at: Point, e: &Edge, f: &Edge) -> Ordering
    requires at_within { IsWithin (2 ^ 40) at }
    requires first_within { IsEdgeWithin (2 ^ 30) e.now }
    requires second_within { IsEdgeWithin (2 ^ 30) f.now }
    ensures { result ≡ upwards_cmp at e.now f.now }
{
    match heights(at, e, f) {
        Ordering::Equal => match slopes(e, f) {
            Ordering::Equal => e.cmp(f),
            apart => apart,
        },
        apart => apart,
    }
}

/// The order of two edges downwards from the query point: the higher one at its column comes first, of
/// equally high ones that of greater slope, and of one slope the lesser edge.
#[inline]
pub fn downwards(at: Point, e: &Edge, f: &Edge) -> Ordering
    requires at_within { IsWithin (2 ^ 40) at }
    requires first_within { IsEdgeWithin (2 ^ 30) e.now }
    requires second_within { IsEdgeWithin (2 ^ 30) f.now }
    ensures { result ≡ downwards_cmp at e.now f.now }
{
    match heights(at, f, e) {
        Ordering::Equal => match slopes(f, e) {
            Ordering::Equal => e.cmp(f),
            apart => apart,
        },
        apart => apart,
    }
}

/// The order of the heights of two edges at the query point's column.
#[inline(always)]
fn heights(at: Point, e: &Edge, f: &Edge) -> Ordering
    requires at_within { IsWithin (2 ^ 40) at }
    requires first_within { IsEdgeWithin (2 ^ 30) e.now }
    requires second_within { IsEdgeWithin (2 ^ 30) f.now }
    ensures { result ≡ height_cmp at e.now f.now }
{
    ratios(height(at, e), direction(e).x, height(at, f), direction(f).x)
}

/// The order of the slopes of two edges.
#[inline(always)]
fn slopes(e: &Edge, f: &Edge) -> Ordering
    requires first_within { IsEdgeWithin (2 ^ 30) e.now }
    requires second_within { IsEdgeWithin (2 ^ 30) f.now }
    ensures { result ≡ slope_cmp e.now f.now }
{
    let d = direction(e);
    let c = direction(f);
    product(d.y, c.x).cmp(&product(c.y, d.x))
}

/// The order of the fractions `m / d` and `n / e`, of positive denominators.
#[inline(always)]
fn ratios(m: i128, d: i64, n: i128, e: i64) -> Ordering
    requires first { unsigned_abs m ≤ 2 ^ 83 }
    requires under_first { unsigned_abs d ≤ 2 ^ 31 }
    requires second { unsigned_abs n ≤ 2 ^ 83 }
    requires under_second { unsigned_abs e ≤ 2 ^ 31 }
    ensures { result ≡ ratio_cmp m d n e }
{
    scaled(m, e).cmp(&scaled(n, d))
}

/// How high the edge is at the query point's column, times the width of the edge.
#[inline(always)]
fn height(at: Point, e: &Edge) -> i128
    requires at_within { IsWithin (2 ^ 40) at }
    requires edge_within { IsEdgeWithin (2 ^ 30) e.now }
    ensures value { result ≡ height_at at e.now }
    ensures small { unsigned_abs result ≤ 2 ^ 83 }
{
    let a = query_point(e.a());
    let d = direction(e);
    sum(product(a.y, d.x), product(d.y, offset(a.x, at.x)))
}
