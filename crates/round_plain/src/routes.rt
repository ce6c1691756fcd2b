//! Routes: which hot pixels a segment meets, in their order along it.

ghost use Rattle.std.specs.Prelude.{◌≡◌, ◌^◌, All, IfOk};
ghost use Rattle.grid_core.specs.Vector.{IsWithin};
ghost use Rattle.round_plain.specs.Routes.{pixels, route_among, routes_among, step_along};

use crate::{Points, Routed};
use grid_core::{Memory, Point, Ur, Vertex, dot, vector};
use pixel_test::meets_pixel;
use std::alloc::Global;
use std::collections::BTreeSet;

/// A pixel with how far along a segment it is: the product of its centre with the direction.
#[derive(Clone, Copy, PartialEq, Eq, PartialOrd, Ord)]
struct Step {
    product: i128,
    pixel: Point,
}

/// The segments with their routes through the given hot pixels.
pub(crate) fn routes(
    alloc: Global,
    segments: &[Ur],
    vertices: &[Vertex],
) -> Result<Vec<Routed>, Memory>
    requires { All (λ v. IsWithin (2 ^ 30) v.at) vertices.now }
    ensures { IfOk result (λ rs. rs.items ≡ routes_among (pixels vertices.now) segments.now) }
{
    let mut routes = Vec::new(alloc);
    for s in segments {
        let points = route(alloc, s, vertices)?;
        routes.push(Routed { ur: *s, points })?;
    }
    Ok(routes)
}

/// The route of a segment through the given hot pixels.
fn route(alloc: Global, s: &Ur, vertices: &[Vertex]) -> Result<Points, Memory>
    requires { All (λ v. IsWithin (2 ^ 30) v.at) vertices.now }
    ensures { IfOk result (λ points. points ≡ route_among (pixels vertices.now) s.now) }
{
    let mut met = BTreeSet::new(alloc);
    for v in vertices {
        if meets_pixel(s, v.at) {
            met.insert(step_of(s, v.at))?;
        }
    }
    let points = met.into_iter().map(|step| step.pixel).collect(alloc)?;
    Ok(Points::of(points))
}

/// The pixel with its product, of coordinates up to 2^30 in size.
fn step_of(s: &Ur, pixel: Point) -> Step
    requires { IsWithin (2 ^ 30) pixel }
    ensures { result ≡ step_along s.now pixel }
{
    let product = dot(pixel, vector(s.p(), s.q()));
    Step { product, pixel }
}
