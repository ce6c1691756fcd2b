//! The cross product of two directions of segments, in 64 bits.

ghost use Rattle.std.specs.Prelude.{◌≡◌, ◌≤◌, ◌^◌, ◌*ℤ◌, unsigned_abs};

use grid_core::Point;

/// The cross product `plus - minus` of two directions. The two products fit in 64 bits, and so does
/// the size of their difference, where the difference may need one more.
#[derive(Clone, Copy)]
pub(crate) struct CrossProduct {
    plus: i64,
    minus: i64,
    ghost small_plus: { unsigned_abs plus ≤ 2 ^ 62 },
    ghost small_minus: { unsigned_abs minus ≤ 2 ^ 62 },
}

impl CrossProduct {
    ghost use Rattle.std.specs.Prelude.{◌≡◌, ◌≤◌, ◌^◌, pos, int_lt, unsigned_abs};
    ghost use Rattle.grid_core.specs.Vector.{IsWithin, cross_of};
    ghost use Rattle.grid_core.specs.Crossing.{in_unit_interval};
    ghost use Rattle.rat_cross.specs.CrossProduct.{product_value};

    /// `d x e`.
    #[inline(always)]
    pub(crate) fn of(d: Point, e: Point) -> CrossProduct
        requires first { IsWithin (2 ^ 31) d }
        requires second { IsWithin (2 ^ 31) e }
        ensures { product_value result ≡ cross_of d e }
    {
        let plus = product(d.x, e.y);
        let minus = product(d.y, e.x);
        CrossProduct { plus, minus }
    }

    /// Whether the second direction points to the left of the first.
    #[inline(always)]
    pub(crate) fn is_positive(self) -> bool
        ensures { result ≡ int_lt (pos 0) (product_value self) }
    {
        self.minus < self.plus
    }

    /// Whether the second direction points to the right of the first.
    #[inline(always)]
    pub(crate) fn is_negative(self) -> bool
        ensures { result ≡ int_lt (product_value self) (pos 0) }
    {
        self.plus < self.minus
    }

    /// How far it is from 0. At most 2^63.
    #[inline(always)]
    pub(crate) fn size(self) -> u64
        ensures value { result ≡ unsigned_abs (product_value self) }
        ensures small { result ≤ 2 ^ 63 }
    {
        self.plus.abs_diff(self.minus)
    }

    /// Whether it is from 0 to `den`.
    #[inline(always)]
    pub(crate) fn lies_within(self, den: u64) -> bool
        ensures { result ≡ in_unit_interval (product_value self) (pos den) }
    {
        self.minus <= self.plus && self.size() <= den
    }
}

/// `a * b`, of factors up to 2^31 in size.
#[inline(always)]
fn product(a: i64, b: i64) -> i64
    requires left { unsigned_abs a ≤ 2 ^ 31 }
    requires right { unsigned_abs b ≤ 2 ^ 31 }
    ensures value { result ≡ a *ℤ b }
    ensures small { unsigned_abs result ≤ 2 ^ 62 }
{
    a * b
}
