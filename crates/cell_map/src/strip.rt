//! What lies in one strip, as it is filled, and the plain scan for a query point.

ghost use Rattle.std.specs.Prelude.{◌≡◌, ◌^◌, All, OnOk};
ghost use Rattle.grid_core.specs.Vector.{IsWithin};
ghost use Rattle.place_test.specs.Reach.{IsEdgeWithin};
ghost use Rattle.place_test.specs.Nearest.{around};
ghost use Rattle.cell_map.specs.Strips.{meets_strip, lies_in_strip};
ghost use Rattle.cell_map.specs.Found.{found_among};

use crate::Found;
use crate::arranged::ArrangedStrip;
use crate::cell::{cell, strip_at};
use grid_core::{Edge, Memory, Place, Point};
use place_test::Nearest;
use std::alloc::Global;
use std::marker::Model;

/// The edges that meet a strip, whole, and the vertices in it, as far as it is filled. No coordinate is
/// greater than 2^30 in size.
#[derive(Drop)]
pub(crate) struct Strip {
    edges: Vec<Edge>,
    vertices: Vec<Point>,
}

impl Model for Strip {
    ghost use Rattle.std.specs.Prelude.{◌^◌};
    ghost use Rattle.planar_law.specs.PlanarEdges.{Graph};
    ghost use Rattle.cell_map.specs.Strips.{IsStripWithin};

    ghost Value = { Graph };

    ghost view = { λ s. record { edges = s.edges.items; vertices = s.vertices.items } };

    ghost invariant = { λ s. IsStripWithin (2 ^ 30)
        (record { edges = s.edges.items; vertices = s.vertices.items }) };
}

impl Strip {
    ghost use Rattle.std.specs.Prelude.{◌≡◌, ◌^◌, if◌then◌else◌, All, IfOk, OnOk};
    ghost use Rattle.grid_core.specs.Vector.{IsWithin};
    ghost use Rattle.place_test.specs.Reach.{IsEdgeWithin};
    ghost use Rattle.cell_map.specs.Strips.{empty_strip, with_edge, with_vertex};
    ghost use Rattle.cell_map.specs.Strips.{meets_strip, lies_in_strip, strip_of_graph};
    ghost use Rattle.cell_map.specs.Arranged.{IsSearchable};

    /// A strip in which nothing lies. Takes no memory.
    pub(crate) fn empty(alloc: Global) -> Strip
        ensures { result ≡ empty_strip }
    {
        Strip {
            edges: Vec::new(alloc),
            vertices: Vec::new(alloc),
        }
    }

    /// What of a graph lies in a strip.
    pub(crate) fn of(
        alloc: Global,
        k: i64,
        vertices: &[Point],
        edges: &[Edge],
    ) -> Result<Strip, Memory>
        requires vertices_within { All (IsWithin (2 ^ 30)) vertices.now }
        requires edges_within { All (IsEdgeWithin (2 ^ 30)) edges.now }
        ensures { IfOk result (λ s. s
            ≡ strip_of_graph (record { edges = edges.now; vertices = vertices.now }) k) }
    {
        let mut strip = Strip::empty(alloc);
        for e in edges {
            strip.add_edge(k, e)?;
        }
        for h in vertices {
            strip.add_vertex(k, *h)?;
        }
        Ok(strip)
    }

    /// Puts an edge behind the others, where it meets strip `k`.
    fn add_edge(&mut self, k: i64, e: &Edge) -> Result<(), Memory>
        requires { IsEdgeWithin (2 ^ 30) e.now }
        ensures { OnOk result (self.new
            ≡ (if meets_strip k e.now then with_edge e.now self.old else self.old)) }
    {
        if meets_strip(k, e) {
            self.push_edge(e)
        } else {
            Ok(())
        }
    }

    /// Puts a vertex behind the others, where it lies in strip `k`.
    fn add_vertex(&mut self, k: i64, h: Point) -> Result<(), Memory>
        requires { IsWithin (2 ^ 30) h }
        ensures { OnOk result (self.new
            ≡ (if lies_in_strip k h then with_vertex h self.old else self.old)) }
    {
        if lies_in_strip(k, h) {
            self.push_vertex(h)
        } else {
            Ok(())
        }
    }

    /// Puts an edge behind the others.
    pub(crate) fn push_edge(&mut self, e: &Edge) -> Result<(), Memory>
        requires { IsEdgeWithin (2 ^ 30) e.now }
        ensures { OnOk result (self.new ≡ with_edge e.now self.old) }
    {
        self.edges.push(*e)?;
        Ok(())
    }

    /// Puts a vertex behind the others.
    pub(crate) fn push_vertex(&mut self, h: Point) -> Result<(), Memory>
        requires { IsWithin (2 ^ 30) h }
        ensures { OnOk result (self.new ≡ with_vertex h self.old) }
    {
        self.vertices.push(h)?;
        Ok(())
    }

    /// Strip `k`, once it is complete, arranged for a search.
    pub(crate) fn arrange(self, alloc: Global, k: i64) -> Result<ArrangedStrip, Memory>
        requires { IsSearchable k self }
        ensures { IfOk result (λ s. s ≡ self) }
    {
        let Strip { edges, vertices } = self;
        ArrangedStrip::of(alloc, k, edges, vertices)
    }
}

/// Whether the edge meets strip `k`.
#[inline(always)]
fn meets_strip(k: i64, e: &Edge) -> bool
    requires { IsEdgeWithin (2 ^ 30) e.now }
    ensures { result ≡ meets_strip k e.now }
{
    strip_at(e.a().x) <= k && k <= strip_at(e.b().x)
}

/// Whether the vertex lies in strip `k`.
#[inline(always)]
fn lies_in_strip(k: i64, h: Point) -> bool
    requires { IsWithin (2 ^ 30) h }
    ensures { result ≡ lies_in_strip k h }
{
    strip_at(h.x) == k
}

/// Where a query point lies among vertices and edges, with its cell in a strip of 256 columns.
pub(crate) fn find_among(vertices: &[Point], edges: &[Edge], at: Point) -> Found
    requires at_within { IsWithin (2 ^ 40) at }
    requires vertices_within { All (IsWithin (2 ^ 30)) vertices.now }
    requires edges_within { All (IsEdgeWithin (2 ^ 30)) edges.now }
    ensures { result ≡ found_among vertices.now edges.now at }
{
    let nearest = scan(vertices, edges, at);
    match nearest.place() {
        Place::Vertex(h) => Found::Vertex(h),
        Place::OnEdge(e) => Found::OnEdge(e),
        Place::Between { .. } => {
            Found::Inside(cell(vertices, at, nearest.above(), nearest.below()))
        }
    }
}

/// What lies nearest to a query point among vertices and edges.
fn scan(vertices: &[Point], edges: &[Edge], at: Point) -> Nearest
    requires at_within { IsWithin (2 ^ 40) at }
    requires vertices_within { All (IsWithin (2 ^ 30)) vertices.now }
    requires edges_within { All (IsEdgeWithin (2 ^ 30)) edges.now }
    ensures { result ≡ around vertices.now edges.now at }
{
    let mut nearest = Nearest::of_nothing();
    for h in vertices {
        nearest.add_vertex(at, *h);
    }
    for e in edges {
        nearest.add_edge(at, e);
    }
    nearest
}
