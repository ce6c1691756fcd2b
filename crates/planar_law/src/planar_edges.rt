//! The edges and vertices of a rounding, as a planar straight-line graph.

ghost use Rattle.std.specs.Prelude.{All, ◌^◌};
ghost use Rattle.grid_core.specs.Segment.{IsSegment};

use grid_core::{Edge, Point, Ur};
use std::marker::Model;

/// The edges and vertices of a rounding. Two different edges have no point in common but a common
/// end, and no vertex lies inside an edge. Edges and vertices stand in order, each once; each edge
/// joins two vertices, and no coordinate is greater than 2^30 in size.
#[derive(Drop)]
pub struct PlanarEdges {
    edges: Vec<Edge>,
    vertices: Vec<Point>,
}

impl Model for PlanarEdges {
    ghost use Rattle.std.specs.Prelude.{◌^◌};
    ghost use Rattle.planar_law.specs.PlanarEdges.{Graph, IsPlanarGraph};

    ghost Value = { Graph };

    ghost view = { λ p. record { edges = p.edges.items; vertices = p.vertices.items } };

    ghost invariant = { λ p. IsPlanarGraph (2 ^ 30)
        (record { edges = p.edges.items; vertices = p.vertices.items }) };
}

impl PlanarEdges {
    ghost use Rattle.std.specs.Prelude.{◌≡◌, ◌^◌};
    ghost use Rattle.planar_law.specs.PlanarEdges.{IsPlanarGraph, graph_of};

    /// The graph of the rounding of these segments, from its edges and its hot pixels, both in
    /// order. Takes no memory.
    pub fn of(segments: &[Ur], edges: Vec<Edge>, vertices: Vec<Point>) -> PlanarEdges
        requires { record { edges = edges.items; vertices = vertices.items }
            ≡ graph_of segments.now }
        ensures { result ≡ graph_of segments.now }
    {
        tell_bounds(segments);
        PlanarEdges { edges, vertices }
    }

    /// The edges, in order of lesser end, then greater end.
    pub fn edges(&self) -> &[Edge]
        ensures value { result.now ≡ self.now.edges }
        ensures kept { IsPlanarGraph (2 ^ 30) self.now }
    {
        self.edges.as_slice()
    }

    /// The vertices, in order of x, then y.
    pub fn vertices(&self) -> &[Point]
        ensures value { result.now ≡ self.now.vertices }
        ensures kept { IsPlanarGraph (2 ^ 30) self.now }
    {
        self.vertices.as_slice()
    }
}

/// Tells that no coordinate is greater than 2^30 in size, as the type of each segment keeps.
fn tell_bounds(segments: &[Ur])
    ensures { All (IsSegment (2 ^ 30)) segments.now }
{
    for s in segments {
        let _p = s.p();
    }
}
