//! All half-edges of a drawing.

ghost use Rattle.std.specs.Prelude.{◌≡◌, ◌^◌, ◌*◌, ◌≤◌, ◌<◌, ◌↔◌, ◌+ℤ◌, unsigned_abs};
ghost use Rattle.std.specs.Prelude.{length, All, IfOk, IfSome, IsTrue};
ghost use Rattle.grid_core.specs.Vector.{IsWithin};
ghost use Rattle.grid_core.specs.Edge.{IsEdge};
ghost use Rattle.grid_core.specs.Contours.{contour_of, half_edges};
ghost use Rattle.face_trace.specs.Links.{AreEdgesInOrder, IsPlaced};
ghost use Rattle.face_trace.specs.Links.{IsNumberOf, IsLesser, IsLeastFrom, IsContourFrom};

use crate::contour::Contour;
use crate::half_edge::HalfEdge;
use crate::spokes::{nexts_of, spokes_of};
use grid_core::{Edge, Memory, Point};
use indexmap::IndexSet;
use std::alloc::Global;
use std::marker::Model;

/// The half-edges of the edges of a drawing, each with its next.
#[derive(Drop)]
pub struct HalfEdges {
    /// By number: those of edge i have the numbers 2 i and 2 i + 1.
    halves: IndexSet<HalfEdge>,
    /// For each number that of the half-edge's next.
    nexts: Vec<usize>,
}

impl Model for HalfEdges {
    ghost use Rattle.std.specs.Prelude.{List};
    ghost use Rattle.grid_core.specs.Edge.{EdgeEnds};
    ghost use Rattle.face_trace.specs.Links.{AreLinked, edges_of};

    ghost Value = { List EdgeEnds };

    ghost view = { λ h. edges_of h.halves.keys };

    ghost invariant = { λ h. AreLinked (edges_of h.halves.keys) h.halves.keys h.nexts.items };
}

impl HalfEdges {
    /// Whether `build` takes these edges: they are in rising order, each once, and no coordinate is
    /// greater than 2^30 in size.
    pub fn takes(edges: &[Edge]) -> bool
        ensures { IsTrue result ↔ AreEdgesInOrder edges.now }
    {
        for i in 0..edges.len() {
            if !is_placed(edges, i) {
                return false;
            }
        }
        true
    }

    /// The half-edges of these edges. The call takes as long as one sort of them.
    pub fn build(alloc: Global, edges: &[Edge]) -> Result<HalfEdges, Memory>
        requires { AreEdgesInOrder edges.now }
        ensures { IfOk result (λ h. h ≡ edges.now) }
    {
        let halves = numbered(alloc, edges)?;
        let spokes = spokes_of(alloc, halves.as_slice())?;
        let nexts = nexts_of(alloc, &spokes)?;
        Ok(HalfEdges { halves, nexts })
    }

    /// The contour that has the half-edge from `from` to `to`. `None` where the two points aren't
    /// the ends of an edge.
    pub fn contour(&self, from: Point, to: Point) -> Result<Option<Contour>, Memory>
        ensures value { IfOk result (λ c. c ≡ contour_of self.now from to) }
        ensures small { IfOk result (λ c. IfSome c
            (λ w. unsigned_abs w.area2 ≤ 2 ^ 61 * length w.points)) }
    {
        match self.number_of(from, to) {
            None => Ok(None),
            Some(start) => Ok(Some(self.contour_from(self.least_from(start))?)),
        }
    }

    /// The number of the half-edge from `from` to `to`.
    fn number_of(&self, from: Point, to: Point) -> Option<usize>
        ensures { IsNumberOf (half_edges self.now) (record { origin = from; target = to }) result }
    {
        let halves = &self.halves;
        if is_within(from) && is_within(to) {
            halves.get_index_of(&HalfEdge::between(from, to))
        } else {
            None
        }
    }

    /// The number of the least half-edge of the walk from number `start`.
    fn least_from(&self, start: usize) -> usize
        requires { start < length (half_edges self.now) }
        ensures { IsLeastFrom self.now start result }
    {
        let halves = self.halves.as_slice();
        let mut least = start;
        let mut at = self.nexts[start];
        while at != start {
            least = lesser(halves, at, least);
            at = self.nexts[at];
        }
        least
    }

    /// The contour of the walk from number `start`.
    fn contour_from(&self, start: usize) -> Result<Contour, Memory>
        requires { start < length (half_edges self.now) }
        ensures value { IfOk result (IsContourFrom self.now start) }
        ensures small { IfOk result (λ c. unsigned_abs c.area2 ≤ 2 ^ 61 * length c.points) }
    {
        let halves = self.halves.as_slice();
        let mut points = Vec::new(*self.nexts.allocator());
        let mut area2 = 0;
        let mut at = start;
        loop {
            let half = halves[at];
            let cross = half.cross();
            points.push(half.origin())?;
            at = self.nexts[at];
            area2 = sum(area2, cross);
            if at == start {
                break;
            }
        }
        Ok(Contour { points, area2 })
    }
}

/// The number of the lesser of two half-edges.
#[inline(always)]
fn lesser(halves: &[HalfEdge], at: usize, least: usize) -> usize
    requires at_within { at < length halves.now }
    requires least_within { least < length halves.now }
    ensures { IsLesser halves.now at least result }
{
    if halves[at] < halves[least] {
        at
    } else {
        least
    }
}

/// `a + b`, where `b` is at most 2^61 in size and `a` the sum of fewer than 2^64 such numbers.
#[inline(always)]
fn sum(a: i128, b: i128) -> i128
    requires many { unsigned_abs a ≤ 2 ^ 125 }
    requires one { unsigned_abs b ≤ 2 ^ 61 }
    ensures { result ≡ a +ℤ b }
{
    a + b
}

/// Whether the edge at `i` lies within 2^30, and comes after the one before it.
fn is_placed(edges: &[Edge], i: usize) -> bool
    requires { i < length edges.now }
    ensures { IsTrue result ↔ IsPlaced edges.now i }
{
    if !is_within(edges[i].a()) || !is_within(edges[i].b()) {
        return false;
    }
    i == 0 || edges[i - 1] < edges[i]
}

/// Whether neither coordinate is greater than 2^30 in size.
#[inline(always)]
fn is_within(a: Point) -> bool
    ensures { IsTrue result ↔ IsWithin (2 ^ 30) a }
{
    a.x.unsigned_abs() <= 1 << 30 && a.y.unsigned_abs() <= 1 << 30
}

/// The half-edges of each edge in turn, from its lesser end and from its greater end.
fn numbered(alloc: Global, edges: &[Edge]) -> Result<IndexSet<HalfEdge>, Memory>
    requires { AreEdgesInOrder edges.now }
    ensures keys { IfOk result (λ s. s.keys ≡ half_edges edges.now) }
    ensures edges { IfOk result (λ s. All IsEdge edges.now) }
{
    let mut halves = IndexSet::new(alloc);
    for edge in edges {
        halves.insert(HalfEdge::between(edge.a(), edge.b()))?;
        halves.insert(HalfEdge::between(edge.b(), edge.a()))?;
    }
    Ok(halves)
}
