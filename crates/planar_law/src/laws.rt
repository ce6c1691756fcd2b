//! What holds of every rounding: it is planar, close to its segments, and within their bound.
//! A call gives its caller the law, and does nothing when it runs.

ghost use Rattle.planar_law.specs.Laws.{RoundingIsPlanar, RouteIsNear, RoundingStaysWithin};

use grid_core::Ur;

/// Two different edges of the rounding have no point in common but a common end, and no hot pixel's
/// centre lies inside an edge.
pub fn planar_of_rounding(segments: &[Ur])
    ensures { RoundingIsPlanar segments.now }
{}

/// Each point of an edge of the route of `s` is within 1/2 of a point of `s`, in each coordinate.
pub fn near_of_route(segments: &[Ur], s: &Ur)
    ensures { RouteIsNear segments.now s.now }
{}

/// Where no coordinate of the segments is greater in size than a bound, none of the hot pixels is.
pub fn rounding_stays_within(segments: &[Ur])
    ensures { RoundingStaysWithin segments.now }
{}
