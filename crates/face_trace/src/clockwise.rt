//! The order of directions, clockwise from straight up.

ghost use Rattle.std.specs.Prelude.{◌≡◌, ◌^◌};
ghost use Rattle.grid_core.specs.Vector.{IsWithin};
ghost use Rattle.grid_core.specs.Contours.{half_of, clockwise_cmp, around_cmp};

use grid_core::{Point, cross, vector};
use std::cmp::Ordering;

/// The order of points around `v`: clockwise from straight up, and in one direction the lesser
/// point first.
#[inline]
pub(crate) fn around(v: Point, u: Point, w: Point) -> Ordering
    requires v_within { IsWithin (2 ^ 30) v }
    requires u_within { IsWithin (2 ^ 30) u }
    requires w_within { IsWithin (2 ^ 30) w }
    ensures { result ≡ around_cmp v u w }
{
    match clockwise(vector(v, u), vector(v, w)) {
        Ordering::Equal => u.cmp(&w),
        apart => apart,
    }
}

/// The order of two directions. The cross product is below 2^64.
#[inline(always)]
fn clockwise(d: Point, e: Point) -> Ordering
    requires first { IsWithin (2 ^ 40) d }
    requires second { IsWithin (2 ^ 40) e }
    ensures { result ≡ clockwise_cmp d e }
{
    match half(d).cmp(&half(e)) {
        Ordering::Equal => cross(d, e).cmp(&0),
        apart => apart,
    }
}

/// 0 for a direction to the right or straight up, 1 for one to the left or straight down, and 2 for
/// no way at all.
#[inline(always)]
fn half(d: Point) -> u8
    ensures { result ≡ half_of d }
{
    if d.x > 0 || d.x == 0 && d.y > 0 {
        0
    } else if d.x < 0 || d.x == 0 && d.y < 0 {
        1
    } else {
        2
    }
}
