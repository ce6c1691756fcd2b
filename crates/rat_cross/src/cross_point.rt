//! Points at which two segments cross, as fractions of whole numbers.

ghost use Rattle.std.specs.Prelude.{◌≡◌, ℕ, pos, ◌≤◌, ◌*◌, ◌^◌, ◌<ℤ◌, ◌+ℤ◌, ◌*ℤ◌, unsigned_abs, true};
ghost use Rattle.grid_core.specs.Vector.{IsWithin};
ghost use Rattle.grid_core.specs.Crossing.{pixel_coordinate, pixel_of};
ghost use Rattle.rat_cross.specs.CrossPoint.{IsCrossPoint};
ghost use Rattle.rat_cross.specs.Narrow.{narrow_number, narrow_point};

use grid_core::{Point, sum};
use std::marker::Model;

/// The point `(num_x / den, num_y / den)` at which two segments cross, each coordinate at most 2^30
/// in size. The fractions are not reduced.
#[derive(Clone, Copy, Debug, PartialEq, Eq)]
pub struct Cross {
    num_x: i128,
    num_y: i128,
    den: i128,
}

impl Model for Cross {
    ghost use Rattle.std.specs.Prelude.{◌^◌};
    ghost use Rattle.grid_core.specs.Crossing.{RationalPoint};
    ghost use Rattle.rat_cross.specs.CrossPoint.{IsCrossPoint};

    ghost Value = { RationalPoint };

    ghost view = { λ c. record { num_x = c.num_x; num_y = c.num_y; den = c.den } };

    ghost invariant = { λ c. IsCrossPoint (2 ^ 30)
        (record { num_x = c.num_x; num_y = c.num_y; den = c.den }) };

    ghost inverse = { λ c. record { num_x = c.num_x; num_y = c.num_y; den = c.den } };
}

impl Cross {
    ghost use Rattle.std.specs.Prelude.{◌≡◌, ◌≤◌, ◌*◌, ◌^◌, pos, ◌<ℤ◌, unsigned_abs};
    ghost use Rattle.rat_cross.specs.CrossPoint.{IsCrossPoint};

    /// The point with these fractions.
    #[inline(always)]
    pub(crate) fn new(num_x: i128, num_y: i128, den: i128) -> Cross
        requires { IsCrossPoint (2 ^ 30) (record { num_x = num_x; num_y = num_y; den = den }) }
        ensures { result ≡ record { num_x = num_x; num_y = num_y; den = den } }
    {
        Cross { num_x, num_y, den }
    }

    /// The numerator of the first coordinate.
    pub fn num_x(&self) -> i128
        ensures value { result ≡ self.now.num_x }
        ensures kept { IsCrossPoint (2 ^ 30) self.now }
    {
        self.num_x
    }

    /// The numerator of the second coordinate.
    pub fn num_y(&self) -> i128
        ensures value { result ≡ self.now.num_y }
        ensures kept { IsCrossPoint (2 ^ 30) self.now }
    {
        self.num_y
    }

    /// The denominator of both, above 0: the size of the cross product of the two directions.
    pub fn den(&self) -> i128
        ensures value { result ≡ self.now.den }
        ensures kept { IsCrossPoint (2 ^ 30) self.now }
    {
        self.den
    }
}

/// The greatest size of a number that counts as narrow: 2^61.
const NARROW: i128 = 1 << 61;

/// The pixel that the point lies in: each coordinate to the nearest whole number, a half upwards.
#[inline]
pub fn pixel(c: &Cross) -> Point
    ensures value { result ≡ pixel_of c.now }
    ensures within { (n : ℕ) → IsCrossPoint n c.now → IsWithin n result }
{
    if is_narrow_point(c) {
        narrow_pixel(c)
    } else {
        wide_pixel(c)
    }
}

/// Whether 64 bits are enough to find the point's pixel.
#[inline(always)]
fn is_narrow_point(c: &Cross) -> bool
    ensures { result ≡ narrow_point c.now }
{
    is_narrow(c.num_x()) && is_narrow(c.num_y()) && is_narrow(c.den())
}

/// Whether a number is at most 2^61 in size.
#[inline(always)]
fn is_narrow(n: i128) -> bool
    ensures { result ≡ narrow_number n }
{
    -NARROW <= n && n <= NARROW
}

/// The pixel of a point with narrow numbers.
#[inline(always)]
fn narrow_pixel(c: &Cross) -> Point
    requires { narrow_point c.now ≡ true }
    ensures { result ≡ pixel_of c.now }
{
    let den = c.den() as i64;
    let x = narrow_rounded(c.num_x() as i64, den);
    let y = narrow_rounded(c.num_y() as i64, den);
    Point { x, y }
}

/// The pixel of any point.
fn wide_pixel(c: &Cross) -> Point
    ensures { result ≡ pixel_of c.now }
{
    let den = c.den();
    let x = rounded(c.num_x(), den);
    let y = rounded(c.num_y(), den);
    Point { x, y }
}

/// `n / d` to the nearest whole number, a half upwards, of numbers up to 2^61 in size.
#[inline(always)]
fn narrow_rounded(n: i64, d: i64) -> i64
    requires positive { pos 0 <ℤ d }
    requires small { unsigned_abs d ≤ 2 ^ 61 }
    requires within { unsigned_abs n ≤ 2 ^ 61 }
    ensures { result ≡ pixel_coordinate n d }
{
    narrow_sum(narrow_doubled(n), d).div_euclid(narrow_doubled(d))
}

/// `a + b`, of numbers up to 2^62 and 2^61 in size.
#[inline(always)]
fn narrow_sum(a: i64, b: i64) -> i64
    requires left { unsigned_abs a ≤ 2 ^ 62 }
    requires right { unsigned_abs b ≤ 2 ^ 61 }
    ensures { result ≡ a +ℤ b }
{
    a + b
}

/// `2 * a`, of numbers up to 2^61 in size.
#[inline(always)]
fn narrow_doubled(a: i64) -> i64
    requires { unsigned_abs a ≤ 2 ^ 61 }
    ensures value { result ≡ pos 2 *ℤ a }
    ensures small { unsigned_abs result ≤ 2 ^ 62 }
{
    2 * a
}

/// `n / d` to the nearest whole number, a half upwards.
#[inline(always)]
fn rounded(n: i128, d: i128) -> i64
    requires positive { pos 0 <ℤ d }
    requires small { unsigned_abs d ≤ 2 ^ 64 }
    requires within { unsigned_abs n ≤ 2 ^ 30 * unsigned_abs d }
    ensures { result ≡ pixel_coordinate n d }
{
    let floor = sum(doubled(n), d).div_euclid(doubled(d));
    floor as i64
}

/// `2 * a`, of numbers up to 2^100 in size.
#[inline(always)]
fn doubled(a: i128) -> i128
    requires { unsigned_abs a ≤ 2 ^ 100 }
    ensures { result ≡ pos 2 *ℤ a }
{
    2 * a
}
