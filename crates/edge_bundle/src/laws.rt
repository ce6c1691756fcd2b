//! What holds of every rounding. A call gives its caller the law, and does nothing when it runs.

ghost use Rattle.std.specs.Prelude.{◌≡◌, ◌^◌, map};
ghost use Rattle.grid_core.specs.Rounding.{rounding_of};
ghost use Rattle.edge_bundle.specs.Drawn.{IsDrawnWithin};

use grid_core::Ur;
use round_plain::Rounding;

/// The rounding of these segments has no coordinate greater than 2^30 in size, so that `locate` takes
/// it: as the type of a segment keeps, they have none, and a rounding stays within their bound.
pub fn rounding_is_drawn_within(segments: &[Ur])
    ensures { IsDrawnWithin (2 ^ 30) (rounding_of segments.now) }
{
    for s in segments {
        let _p = s.p();
    }
}

/// A rounding of the segments of its own routes has no coordinate greater than 2^30 in size: the law
/// for who holds a rounding, and no longer its segments.
pub fn picture_is_drawn_within(picture: &Rounding)
    requires { picture.now ≡ rounding_of (map (λ r. r.ur) picture.now.routes) }
    ensures { IsDrawnWithin (2 ^ 30) picture.now }
{
    for routed in picture.routes() {
        let _p = routed.ur.p();
    }
}
