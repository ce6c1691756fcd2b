//! Exact sums and products of coordinates in pixels and in 1/256 of a pixel, one operation a
//! function.

ghost use Rattle.std.specs.Prelude.{◌≡◌, pos, ◌≤◌, ◌^◌, ◌+ℤ◌, ◌-ℤ◌, ◌*ℤ◌, unsigned_abs};

/// A coordinate in pixels as one in 1/256 of a pixel. At most 2^38 in size.
#[inline(always)]
pub(crate) fn in_parts(x: i64) -> i64
    requires { unsigned_abs x ≤ 2 ^ 30 }
    ensures value { result ≡ pos 256 *ℤ x }
    ensures small { unsigned_abs result ≤ 2 ^ 38 }
{
    256 * x
}

/// How far it is from a coordinate to one of a query point. At most 2^41 in size.
#[inline(always)]
pub(crate) fn offset(from: i64, to: i64) -> i64
    requires from_within { unsigned_abs from ≤ 2 ^ 38 }
    requires to_within { unsigned_abs to ≤ 2 ^ 40 }
    ensures value { result ≡ to -ℤ from }
    ensures small { unsigned_abs result ≤ 2 ^ 41 }
{
    to - from
}

/// `a * b`. At most 2^82 in size.
#[inline(always)]
pub(crate) fn product(a: i64, b: i64) -> i128
    requires left { unsigned_abs a ≤ 2 ^ 41 }
    requires right { unsigned_abs b ≤ 2 ^ 41 }
    ensures value { result ≡ a *ℤ b }
    ensures small { unsigned_abs result ≤ 2 ^ 82 }
{
    a as i128 * b as i128
}

/// `a + b`. At most 2^83 in size.
#[inline(always)]
pub(crate) fn sum(a: i128, b: i128) -> i128
    requires left { unsigned_abs a ≤ 2 ^ 82 }
    requires right { unsigned_abs b ≤ 2 ^ 82 }
    ensures value { result ≡ a +ℤ b }
    ensures small { unsigned_abs result ≤ 2 ^ 83 }
{
    a + b
}

/// `a - b`.
#[inline(always)]
pub(crate) fn difference(a: i128, b: i128) -> i128
    requires left { unsigned_abs a ≤ 2 ^ 82 }
    requires right { unsigned_abs b ≤ 2 ^ 82 }
    ensures { result ≡ a -ℤ b }
{
    a - b
}

/// `a * b`. At most 2^114 in size.
#[inline(always)]
pub(crate) fn scaled(a: i128, b: i64) -> i128
    requires left { unsigned_abs a ≤ 2 ^ 83 }
    requires right { unsigned_abs b ≤ 2 ^ 31 }
    ensures { result ≡ a *ℤ b }
{
    a * b as i128
}
