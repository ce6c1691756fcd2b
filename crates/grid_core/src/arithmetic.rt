//! Exact whole-number arithmetic: one operation a function, and the two products of directions.

ghost use Rattle.std.specs.Prelude.{◌≡◌, ◌≤◌, ◌^◌, ◌+ℤ◌, ◌-ℤ◌, ◌*ℤ◌, unsigned_abs};
ghost use Rattle.grid_core.specs.Vector.{IsWithin, cross_of, dot_of, minus};

use crate::Point;

/// `a * b`, of factors up to 2^40 in size.
#[inline(always)]
fn product(a: i64, b: i64) -> i128
    requires left { unsigned_abs a ≤ 2 ^ 40 }
    requires right { unsigned_abs b ≤ 2 ^ 40 }
    ensures value { result ≡ a *ℤ b }
    ensures small { unsigned_abs result ≤ 2 ^ 80 }
{
    a as i128 * b as i128
}

/// `a + b`, of numbers up to 2^120 in size.
#[inline(always)]
pub fn sum(a: i128, b: i128) -> i128
    requires left { unsigned_abs a ≤ 2 ^ 120 }
    requires right { unsigned_abs b ≤ 2 ^ 120 }
    ensures { result ≡ a +ℤ b }
{
    a + b
}

/// `a - b`, of numbers up to 2^120 in size.
#[inline(always)]
fn difference(a: i128, b: i128) -> i128
    requires left { unsigned_abs a ≤ 2 ^ 120 }
    requires right { unsigned_abs b ≤ 2 ^ 120 }
    ensures { result ≡ a -ℤ b }
{
    a - b
}

/// How far it is from one coordinate to another, of coordinates up to 2^60 in size.
#[inline(always)]
pub fn offset(from: i64, to: i64) -> i64
    requires from_within { unsigned_abs from ≤ 2 ^ 60 }
    requires to_within { unsigned_abs to ≤ 2 ^ 60 }
    ensures { result ≡ to -ℤ from }
{
    to - from
}

/// The direction from one point to another, of points up to 2^39 in size.
#[inline(always)]
pub fn vector(from: Point, to: Point) -> Point
    requires from_within { IsWithin (2 ^ 39) from }
    requires to_within { IsWithin (2 ^ 39) to }
    ensures value { result ≡ minus to from }
    ensures small { IsWithin (2 ^ 40) result }
    ensures of_segments { IsWithin (2 ^ 30) from → IsWithin (2 ^ 30) to
        → IsWithin (2 ^ 31) result }
{
    let x = offset(from.x, to.x);
    let y = offset(from.y, to.y);
    Point { x, y }
}

/// The cross product `d.x * e.y - d.y * e.x`, of coordinates up to 2^40 in size.
#[inline(always)]
pub fn cross(d: Point, e: Point) -> i128
    requires first { IsWithin (2 ^ 40) d }
    requires second { IsWithin (2 ^ 40) e }
    ensures { result ≡ cross_of d e }
{
    difference(product(d.x, e.y), product(d.y, e.x))
}

/// The dot product `d.x * e.x + d.y * e.y`, of coordinates up to 2^40 in size.
#[inline(always)]
pub fn dot(d: Point, e: Point) -> i128
    requires first { IsWithin (2 ^ 40) d }
    requires second { IsWithin (2 ^ 40) e }
    ensures { result ≡ dot_of d e }
{
    sum(product(d.x, e.x), product(d.y, e.y))
}
