//! A snap rounding as values: the routes, the vertices, and the edges with their bundles.

use crate::{Names, Points};
use grid_core::{Edge, Ur, Vertex};
use std::marker::Model;

/// A segment with its route.
#[derive(Drop)]
pub struct Routed {
    /// The segment.
    pub ur: Ur,
    /// The hot pixels that it passes through, from its `p` to its `q`.
    pub points: Points,
}

impl Model for Routed {
    ghost use Rattle.grid_core.specs.Rounding.{RoutedSegment};

    ghost Value = { RoutedSegment };

    ghost view = { λ r. record { ur = r.ur; points = r.points } };

    ghost inverse = { λ r. record { ur = r.ur; points = r.points } };
}

/// An edge with its bundle.
#[derive(Drop)]
pub struct Bundled {
    /// The edge.
    pub edge: Edge,
    /// The names of the segments whose routes have it, in order.
    pub names: Names,
}

impl Model for Bundled {
    ghost use Rattle.grid_core.specs.Rounding.{BundledEdge};

    ghost Value = { BundledEdge };

    ghost view = { λ b. record { edge = b.edge; names = b.names } };

    ghost inverse = { λ b. record { edge = b.edge; names = b.names } };
}

/// A snap rounding: the routes by name, the hot pixels in order with their counts, and the edges in
/// order with their bundles.
#[derive(Drop)]
pub struct Rounding {
    routes: Vec<Routed>,
    vertices: Vec<Vertex>,
    edges: Vec<Bundled>,
}

impl Model for Rounding {
    ghost use Rattle.grid_core.specs.Rounding.{SnapRounding};

    ghost Value = { SnapRounding };

    ghost view = { λ r. record {
      routes = r.routes.items;
      vertices = r.vertices.items;
      edges = r.edges.items;
    } };
}

impl Rounding {
    ghost use Rattle.std.specs.Prelude.{◌≡◌};

    /// The rounding with these parts. Takes no memory.
    pub fn of_parts(routes: Vec<Routed>, vertices: Vec<Vertex>, edges: Vec<Bundled>) -> Rounding
        ensures { result ≡ record {
          routes = routes.items;
          vertices = vertices.items;
          edges = edges.items;
        } }
    {
        Rounding {
            routes,
            vertices,
            edges,
        }
    }

    /// The segments with their routes, in order of name.
    pub fn routes(&self) -> &[Routed]
        ensures { result.now ≡ self.now.routes }
    {
        self.routes.as_slice()
    }

    /// The hot pixels with their counts, in order.
    pub fn vertices(&self) -> &[Vertex]
        ensures { result.now ≡ self.now.vertices }
    {
        self.vertices.as_slice()
    }

    /// The edges with their bundles, in order.
    pub fn edges(&self) -> &[Bundled]
        ensures { result.now ≡ self.now.edges }
    {
        self.edges.as_slice()
    }
}
