//! A strip in which places are searched for by halves.

ghost use Rattle.std.specs.Prelude.{◌≡◌, ◌^◌, ℤ, Some, None, IfOk, OnOk};
ghost use Rattle.grid_core.specs.Vector.{IsWithin};
ghost use Rattle.grid_core.specs.Places.{strip_of};
ghost use Rattle.place_test.specs.Nearest.{vertex_among};
ghost use Rattle.cell_map.specs.Strips.{strip_in, HaveSame, Changes};
ghost use Rattle.cell_map.specs.Arranged.{IsSearchable, IsArranged};
ghost use Rattle.cell_map.specs.Found.{found_among};

use crate::Found;
use crate::cell::strip_of;
use crate::columns::{cell_in_order, vertex_at};
use crate::strip::{Strip, find_among};
use edge_search::EdgeSearch;
use grid_core::{Edge, Memory, Place, Point};
use std::alloc::Global;
use std::collections::BTreeMap;
use std::marker::Model;

/// A complete strip: a search among the edges that meet it, whole, and the vertices in it, in order. Each
/// end of an edge in the strip is one of the vertices. No coordinate is greater than 2^30 in size.
#[derive(Drop)]
pub(crate) struct ArrangedStrip {
    /// `None` where no edge meets the strip.
    search: Option<EdgeSearch>,
    vertices: Vec<Point>,
}

impl Model for ArrangedStrip {
    ghost use Rattle.std.specs.Prelude.{◌^◌};
    ghost use Rattle.planar_law.specs.PlanarEdges.{Graph};
    ghost use Rattle.cell_map.specs.Arranged.{searched_edges, IsArranged};

    ghost Value = { Graph };

    ghost view = { λ s. record { edges = searched_edges s.search; vertices = s.vertices.items } };

    ghost invariant = { λ s. IsArranged (2 ^ 30) s.search s.vertices.items };
}

impl ArrangedStrip {
    ghost use Rattle.std.specs.Prelude.{◌≡◌, ◌^◌, None, IfOk};
    ghost use Rattle.grid_core.specs.Vector.{IsWithin};
    ghost use Rattle.place_test.specs.Nearest.{vertex_among};
    ghost use Rattle.cell_map.specs.Strips.{empty_strip, IsStripWithin};
    ghost use Rattle.cell_map.specs.Arranged.{IsSearchable};
    ghost use Rattle.cell_map.specs.Found.{found_among};

    /// A strip in which nothing lies. Takes no memory.
    pub(crate) fn empty(alloc: Global) -> ArrangedStrip
        ensures { result ≡ empty_strip }
    {
        ArrangedStrip {
            search: None,
            vertices: Vec::new(alloc),
        }
    }

    /// Strip `k`, from the edges that meet it and the vertices in it.
    pub(crate) fn of(
        alloc: Global,
        k: i64,
        edges: Vec<Edge>,
        vertices: Vec<Point>,
    ) -> Result<ArrangedStrip, Memory>
        requires within { IsStripWithin (2 ^ 30)
            (record { edges = edges.items; vertices = vertices.items }) }
        requires searchable { IsSearchable k
            (record { edges = edges.items; vertices = vertices.items }) }
        ensures { IfOk result (λ s. s
            ≡ record { edges = edges.items; vertices = vertices.items }) }
    {
        let search = if edges.is_empty() {
            None
        } else {
            Some(EdgeSearch::of(alloc, k, edges)?)
        };
        Ok(ArrangedStrip { search, vertices })
    }

    /// Where a query point lies among what lies in the strip, with its cell.
    pub(crate) fn find(&self, at: Point) -> Found
        requires { IsWithin (2 ^ 40) at }
        ensures { result ≡ found_among self.now.vertices self.now.edges at }
    {
        match vertex_at(self.vertices.as_slice(), at) {
            Some(h) => Found::Vertex(h),
            None => self.find_off_vertices(at),
        }
    }

    /// Where a query point that is at no vertex lies, with its cell.
    fn find_off_vertices(&self, at: Point) -> Found
        requires at_within { IsWithin (2 ^ 40) at }
        requires off_vertices { vertex_among self.now.vertices at ≡ None }
        ensures { result ≡ found_among self.now.vertices self.now.edges at }
    {
        let vertices = self.vertices.as_slice();
        match &self.search {
            Some(search) => find_by(search, vertices, at),
            None => Found::Inside(cell_in_order(vertices, at, None, None)),
        }
    }
}

/// Where a query point that is at no vertex lies, with its cell. By a scan where the point isn't in the
/// search's strip, as no query of a map is.
fn find_by(search: &EdgeSearch, vertices: &[Point], at: Point) -> Found
    requires at_within { IsWithin (2 ^ 40) at }
    requires arranged { IsArranged (2 ^ 30) (Some search.now) vertices.now }
    requires off_vertices { vertex_among vertices.now at ≡ None }
    ensures { result ≡ found_among vertices.now search.now.edges at }
{
    if strip_of(at) == search.strip() {
        search_place(search, vertices, at)
    } else {
        find_among(vertices, search.edges(), at)
    }
}

/// Where a query point of the search's strip that is at no vertex lies, with its cell.
fn search_place(search: &EdgeSearch, vertices: &[Point], at: Point) -> Found
    requires at_within { IsWithin (2 ^ 40) at }
    requires strip { strip_of 256 at ≡ search.now.strip }
    requires arranged { IsArranged (2 ^ 30) (Some search.now) vertices.now }
    requires off_vertices { vertex_among vertices.now at ≡ None }
    ensures { result ≡ found_among vertices.now search.now.edges at }
{
    match search.place(at) {
        Place::Vertex(h) => Found::Vertex(h),
        Place::OnEdge(e) => Found::OnEdge(e),
        Place::Between { above, below } => {
            Found::Inside(cell_in_order(vertices, at, above, below))
        }
    }
}

/// The same strips, each arranged for a search.
pub(crate) fn arrange_all(
    alloc: Global,
    filled: BTreeMap<i64, Strip>,
) -> Result<BTreeMap<i64, ArrangedStrip>, Memory>
    requires { (k : ℤ) → IsSearchable k (strip_in filled.entries k) }
    ensures { IfOk result (λ m. HaveSame filled.entries m.entries) }
{
    let mut strips = BTreeMap::new(alloc);
    for (k, strip) in filled {
        put(&mut strips, k, strip.arrange(alloc, k)?)?;
    }
    Ok(strips)
}

/// Puts a strip under its number.
fn put(
    strips: &mut BTreeMap<i64, ArrangedStrip>,
    k: i64,
    strip: ArrangedStrip,
) -> Result<(), Memory>
    ensures { OnOk result (Changes k (λ s. strip) strips.old.entries strips.new.entries) }
{
    strips.insert(k, strip)?;
    Ok(())
}
