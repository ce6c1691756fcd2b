//! The scan over the vertices and edges of a rounding.

ghost use Rattle.std.specs.Prelude.{◌≡◌, ◌^◌, List};
ghost use Rattle.grid_core.specs.Vector.{IsWithin};
ghost use Rattle.grid_core.specs.Segment.{Segment};
ghost use Rattle.grid_core.specs.Rounding.{rounding_of};
ghost use Rattle.grid_core.specs.Places.{place_among, place_of};
ghost use Rattle.edge_bundle.specs.Drawn.{vertices_of, edges_of, IsDrawnWithin};

use grid_core::{Place, Point};
use place_test::Nearest;
use round_plain::Rounding;

/// Where a query point, in 1/256 of a pixel, lies among the vertices and edges of a rounding. The
/// rounding has no coordinate greater than 2^30 in size, as those of segments within this bound have
/// none, and the point none greater than 2^40. Takes no memory.
pub fn locate(picture: &Rounding, at: Point) -> Place
    requires drawn_within { IsDrawnWithin (2 ^ 30) picture.now }
    requires at_within { IsWithin (2 ^ 40) at }
    ensures among { result ≡ place_among (vertices_of picture.now) (edges_of picture.now) at }
    ensures place { (ss : List Segment)
        → picture.now ≡ rounding_of ss
        → result ≡ place_of ss at }
{
    let mut nearest = Nearest::of_nothing();
    for vertex in picture.vertices() {
        nearest.add_vertex(at, vertex.at);
    }
    for bundled in picture.edges() {
        nearest.add_edge(at, &bundled.edge);
    }
    nearest.place()
}
