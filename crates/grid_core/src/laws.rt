//! What follows from the definitions, for every segment, box and list of segments.
//! A call gives its caller the law, and does nothing when it runs.

ghost use Rattle.std.specs.Prelude.{Contains};
ghost use Rattle.grid_core.specs.Laws.{MeetsWhereAPointLies, ProductsTellPixelsApart};
ghost use Rattle.grid_core.specs.Laws.{HotIsCounted, RouteIsMet, RouteRunsFromPToQ};
ghost use Rattle.grid_core.specs.Laws.{EdgesAreOfRoutes, BundleIsOfRoutes};

use crate::{Edge, PixelBox, Ur};

/// `s` meets the box exactly where some point of `s` lies in it: `p + (a / b) (q - p)`, for whole
/// numbers `a` and `b` with `0 <= a <= b` and `0 < b`.
pub fn meets_where_a_point_lies(s: &Ur, area: PixelBox)
    ensures { MeetsWhereAPointLies s.now area }
{}

/// Two different pixels that `s` meets have different dot products with its direction.
pub fn products_tell_pixels_apart(s: &Ur)
    ensures { ProductsTellPixelsApart s.now }
{}

/// A pixel is hot exactly where the sum of its two counts is above 0.
/// Hot pixels stand in order, each once.
pub fn hot_pixels_are_counted(segments: &[Ur])
    ensures { HotIsCounted segments.now }
{}

/// The route of `s` has exactly the hot pixels that `s` meets.
/// They stand in order along `s`, each once.
pub fn routes_are_met(segments: &[Ur], s: &Ur)
    ensures { RouteIsMet segments.now s.now }
{}

/// The route of a segment of the list begins with its end `p` and ends with its end `q`.
pub fn routes_run_from_p_to_q(segments: &[Ur], s: &Ur)
    requires { Contains segments.now s.now }
    ensures { RouteRunsFromPToQ segments.now s.now }
{}

/// The edges are exactly those of the segments' routes. They stand in order, each once.
pub fn edges_are_of_routes(segments: &[Ur])
    ensures { EdgesAreOfRoutes segments.now }
{}

/// A bundle has exactly the names of the segments whose routes have the edge.
/// It rises where the names of the segments rise.
pub fn bundles_are_of_routes(segments: &[Ur], edge: &Edge)
    ensures { BundleIsOfRoutes segments.now edge.now }
{}
