//! Half-edges: edges with one of their two directions.

ghost use Rattle.std.specs.Hash as fed;
ghost use Rattle.std.specs.Prelude.{◌++◌};
ghost use Rattle.std.specs.Cmp.Rules.{hashing};
ghost use Rattle.std.proofs.Common.{rules};

use crate::clockwise::around;
use grid_core::{Point, cross};
use std::cmp::Ordering;
use std::hash::{Hash, Hasher};
use std::marker::Model;

/// An edge with one of its two directions. Coordinates are at most 2^30 in size.
/// Half-edges are ordered by their starts, and at one start by their ends.
#[derive(Clone, Copy, Debug, PartialEq, Eq, PartialOrd, Ord)]
pub(crate) struct HalfEdge {
    origin: Point,
    target: Point,
}

impl Model for HalfEdge {
    ghost use Rattle.grid_core.specs.Contours as contours;
    ghost use Rattle.face_trace.specs.HalfEdge.{IsWithinReach};

    ghost Value = { contours.HalfEdge };

    ghost view = { λ h. record { origin = h.origin; target = h.target } };

    ghost invariant = { λ h. IsWithinReach (record { origin = h.origin; target = h.target }) };

    ghost inverse = { λ h. record { origin = h.origin; target = h.target } };
}

impl Hash for HalfEdge {
    ghost hash_input = { λ h. (fed.i64 h.origin.x ++ fed.i64 h.origin.y)
        ++ (fed.i64 h.target.x ++ fed.i64 h.target.y) };

    ghost respects_eq = { Prim.search (hashing, rules) };

    fn hash<H: Hasher>(&self, state: &mut H) {
        self.origin.x.hash(state);
        self.origin.y.hash(state);
        self.target.x.hash(state);
        self.target.y.hash(state);
    }
}

impl HalfEdge {
    ghost use Rattle.std.specs.Prelude.{◌≡◌, ◌≤◌, ◌^◌, unsigned_abs};
    ghost use Rattle.grid_core.specs.Vector.{IsWithin, cross_of};
    ghost use Rattle.face_trace.specs.HalfEdge.{spoke_cmp, IsWithinReach};

    /// The half-edge from `origin` to `target`.
    #[inline(always)]
    pub(crate) fn between(origin: Point, target: Point) -> HalfEdge
        requires origin_within { IsWithin (2 ^ 30) origin }
        requires target_within { IsWithin (2 ^ 30) target }
        ensures { result ≡ record { origin = origin; target = target } }
    {
        HalfEdge { origin, target }
    }

    /// Where it starts.
    #[inline(always)]
    pub(crate) fn origin(&self) -> Point
        ensures { result ≡ self.now.origin }
    {
        self.origin
    }

    /// The cross product of its start and its end, at most 2^61 in size.
    #[inline(always)]
    pub(crate) fn cross(&self) -> i128
        ensures value { result ≡ cross_of self.now.origin self.now.target }
        ensures small { unsigned_abs result ≤ 2 ^ 61 }
    {
        cross(self.origin, self.target)
    }

    /// The order by starts, and at one start clockwise from straight up.
    #[inline(always)]
    pub(crate) fn around(&self, other: &HalfEdge) -> Ordering
        ensures { result ≡ spoke_cmp self.now other.now }
    {
        match self.origin.cmp(&other.origin) {
            Ordering::Equal => around(self.origin, self.target, other.target),
            apart => apart,
        }
    }
}
