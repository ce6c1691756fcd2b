//! The side of a segment on which a point lies, by the sign of a cross product.

ghost use Rattle.std.specs.Prelude.{◌≡◌, ◌^◌};
ghost use Rattle.grid_core.specs.Vector.{IsWithin, cross_of, minus};
ghost use Rattle.grid_core.specs.Segment.{direction};
ghost use Rattle.grid_core.specs.Side.{side_at};

use crate::{Point, Ur, cross, vector};

/// Where a point lies, seen along a segment from `p` to `q`.
#[derive(Clone, Copy, Debug, PartialEq, Eq)]
pub enum Side {
    Left,
    /// On the line through the segment.
    On,
    Right,
}

/// The side of `s` on which `at` lies (the orientation of `p`, `q` and `at`), for coordinates up
/// to 2^39 in size.
#[inline]
pub fn side_of(s: &Ur, at: Point) -> Side
    requires { IsWithin (2 ^ 39) at }
    ensures { result ≡ side_at s.now at }
{
    let orientation = orientation(s, at);
    if orientation > 0 {
        Side::Left
    } else if orientation < 0 {
        Side::Right
    } else {
        Side::On
    }
}

/// The cross product of the direction of `s` and the way from `p` to `at`. Below 2^81.
#[inline(always)]
fn orientation(s: &Ur, at: Point) -> i128
    requires { IsWithin (2 ^ 39) at }
    ensures { result ≡ cross_of (direction s.now) (minus at s.now.p) }
{
    cross(vector(s.p(), s.q()), vector(s.p(), at))
}
