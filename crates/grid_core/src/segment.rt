//! Segments of a drawing: a name and two different ends.

ghost use Rattle.std.specs.Prelude.{◌↔◌, ◌^◌, unsigned_abs, IsTrue, IsFalse};
ghost use Rattle.grid_core.specs.Vector.{IsWithin, IsOutside};

use crate::{Name, Point, Profile};
use std::cmp::Ordering;
use std::marker::Model;
use thiserror::Error;

/// A named straight segment between two different grid points, as it was drawn (an ursegment).
/// Its end `p` comes before its end `q`. Coordinates are at most 2^30 in size.
#[derive(Clone, Copy, Debug, PartialEq, Eq)]
pub struct Ur {
    name: Name,
    p: Point,
    q: Point,
}

/// Why two ends make no segment, in the order in which it is found out.
#[derive(Clone, Copy, Debug, PartialEq, Eq, Error)]
pub enum EndFault {
    /// A coordinate is greater in size than the bound.
    #[error("a coordinate is out of range")]
    Range,
    /// The ends are equal.
    #[error("the two ends are one point")]
    Point,
}

impl Model for Ur {
    ghost use Rattle.std.specs.Prelude.{◌^◌};
    ghost use Rattle.grid_core.specs.Segment.{Segment, IsSegment};

    ghost Value = { Segment };

    ghost view = { λ u. record { name = u.name; p = u.p; q = u.q } };

    ghost invariant = { λ u. IsSegment (2 ^ 30) (record { name = u.name; p = u.p; q = u.q }) };

    ghost inverse = { λ u. record { name = u.name; p = u.p; q = u.q } };
}

impl Ur {
    ghost use Rattle.std.specs.Prelude.{◌≡◌, ◌↔◌, ◌^◌, ◌⊎◌, IsErrOf, IfOk};
    ghost use Rattle.grid_core.specs.Vector.{IsWithin, IsOutside};
    ghost use Rattle.grid_core.specs.Segment.{IsSegment, segment_of};

    /// The segment between `a` and `b`, given in either order. `Range` where a coordinate of either is
    /// greater than the profile's bound in size, and else `Point` where they are one point.
    pub fn new(profile: &Profile, name: Name, a: Point, b: Point) -> Result<Ur, EndFault>
        ensures range { IsErrOf result EndFault.Range
            ↔ (IsOutside profile.now.bound a ⊎ IsOutside profile.now.bound b) }
        ensures point { IsErrOf result EndFault.Point
            ↔ ((a ≡ b) × IsWithin profile.now.bound a) }
        ensures value { IfOk result (λ s. s ≡ segment_of name a b) }
        ensures within { IfOk result (IsSegment profile.now.bound) }
    {
        let bound = profile.bound().unsigned_abs();
        if !is_within(bound, a) || !is_within(bound, b) {
            return Err(EndFault::Range);
        }
        match a.cmp(&b) {
            Ordering::Less => Ok(Ur { name, p: a, q: b }),
            Ordering::Equal => Err(EndFault::Point),
            Ordering::Greater => Ok(Ur { name, p: b, q: a }),
        }
    }

    /// The name that the segment keeps for ever.
    pub fn name(&self) -> Name
        ensures value { result ≡ self.now.name }
        ensures kept { IsSegment (2 ^ 30) self.now }
    {
        self.name
    }

    /// The lesser end.
    pub fn p(&self) -> Point
        ensures value { result ≡ self.now.p }
        ensures kept { IsSegment (2 ^ 30) self.now }
    {
        self.p
    }

    /// The greater end.
    pub fn q(&self) -> Point
        ensures value { result ≡ self.now.q }
        ensures kept { IsSegment (2 ^ 30) self.now }
    {
        self.q
    }
}

/// Whether neither coordinate is greater in size than `bound`.
fn is_within(bound: u64, a: Point) -> bool
    ensures outside { IsFalse result ↔ IsOutside bound a }
    ensures within { IsTrue result → IsWithin bound a }
{
    a.x.unsigned_abs() <= bound && a.y.unsigned_abs() <= bound
}
