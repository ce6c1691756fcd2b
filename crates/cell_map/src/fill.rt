//! The strips of a graph, filled edge by edge and vertex by vertex.

ghost use Rattle.std.specs.Prelude.{◌≤◌, ◌^◌, ◌&&◌, int_le, unsigned_abs, All, OnOk, IfOk};
ghost use Rattle.grid_core.specs.Vector.{IsWithin};
ghost use Rattle.place_test.specs.Reach.{IsEdgeWithin};
ghost use Rattle.cell_map.specs.Strips.{Changes, ChangesWhere, AreStripsOf};
ghost use Rattle.cell_map.specs.Strips.{strip_at, meets_strip, with_edge, with_vertex};

use crate::cell::strip_at;
use crate::strip::Strip;
use grid_core::{Edge, Memory, Point};
use std::alloc::Global;
use std::collections::BTreeMap;

/// The strips of a graph, by number. Those in which nothing lies are left out.
pub(crate) fn strips(
    alloc: Global,
    vertices: &[Point],
    edges: &[Edge],
) -> Result<BTreeMap<i64, Strip>, Memory>
    requires vertices_within { All (IsWithin (2 ^ 30)) vertices.now }
    requires edges_within { All (IsEdgeWithin (2 ^ 30)) edges.now }
    ensures { IfOk result (λ m.
        AreStripsOf (record { edges = edges.now; vertices = vertices.now }) m.entries) }
{
    let mut strips = BTreeMap::new(alloc);
    for e in edges {
        add_edge(alloc, &mut strips, e)?;
    }
    for h in vertices {
        add_vertex(alloc, &mut strips, *h)?;
    }
    Ok(strips)
}

/// Puts an edge into each strip that it meets.
fn add_edge(alloc: Global, strips: &mut BTreeMap<i64, Strip>, e: &Edge) -> Result<(), Memory>
    requires { IsEdgeWithin (2 ^ 30) e.now }
    ensures { OnOk result (ChangesWhere (λ k. meets_strip k e.now) (with_edge e.now)
        strips.old.entries strips.new.entries) }
{
    add_pieces(alloc, strips, strip_at(e.a().x), strip_at(e.b().x), e)
}

/// Puts an edge into the strips from the first to the last.
fn add_pieces(
    alloc: Global,
    strips: &mut BTreeMap<i64, Strip>,
    first: i64,
    last: i64,
    e: &Edge,
) -> Result<(), Memory>
    requires edge_within { IsEdgeWithin (2 ^ 30) e.now }
    requires last_within { unsigned_abs last ≤ 2 ^ 25 }
    ensures { OnOk result (ChangesWhere (λ k. int_le first k && int_le k last) (with_edge e.now)
        strips.old.entries strips.new.entries) }
{
    for k in first..last + 1 {
        put_edge(alloc, strips, k, e)?;
    }
    Ok(())
}

/// Puts an edge into a strip.
fn put_edge(
    alloc: Global,
    strips: &mut BTreeMap<i64, Strip>,
    k: i64,
    e: &Edge,
) -> Result<(), Memory>
    requires { IsEdgeWithin (2 ^ 30) e.now }
    ensures { OnOk result (Changes k (with_edge e.now) strips.old.entries strips.new.entries) }
{
    match strips.get_mut(&k) {
        Some(strip) => strip.push_edge(e),
        None => {
            let mut strip = Strip::empty(alloc);
            strip.push_edge(e)?;
            strips.insert(k, strip)?;
            Ok(())
        }
    }
}

/// Puts a vertex into the strip in which it lies.
fn add_vertex(alloc: Global, strips: &mut BTreeMap<i64, Strip>, h: Point) -> Result<(), Memory>
    requires { IsWithin (2 ^ 30) h }
    ensures { OnOk result (Changes (strip_at h.x) (with_vertex h)
        strips.old.entries strips.new.entries) }
{
    put_vertex(alloc, strips, strip_at(h.x), h)
}

/// Puts a vertex into a strip.
fn put_vertex(
    alloc: Global,
    strips: &mut BTreeMap<i64, Strip>,
    k: i64,
    h: Point,
) -> Result<(), Memory>
    requires { IsWithin (2 ^ 30) h }
    ensures { OnOk result (Changes k (with_vertex h) strips.old.entries strips.new.entries) }
{
    match strips.get_mut(&k) {
        Some(strip) => strip.push_vertex(h),
        None => {
            let mut strip = Strip::empty(alloc);
            strip.push_vertex(h)?;
            strips.insert(k, strip)?;
            Ok(())
        }
    }
}
