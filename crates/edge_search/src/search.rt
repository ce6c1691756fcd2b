//! Edges that don't cross, and the search among them for what is nearest to a query point.

use crate::candidates::{add_pieces, candidates};
use crate::node::{floor, leaf_of};
use crate::order::pieces_of;
use crate::piece::Piece;
use crate::verticals::{vertical_near, verticals_of};
use grid_core::{Edge, Memory, Place, Point};
use place_test::Nearest;
use std::alloc::Global;
use std::marker::Model;

/// The edges that meet a strip of 256 columns, by pieces in order. They don't cross, and have no coordinate greater
/// than 2^30 in size.
#[derive(Drop)]
pub struct EdgeSearch {
    strip: i64,
    edges: Vec<Edge>,
    pieces: Vec<Piece>,
    verticals: Vec<Edge>,
}

impl Model for EdgeSearch {
    ghost use Rattle.std.specs.Prelude.{◌^◌};
    ghost use Rattle.edge_search.specs.Search.{Searched};
    ghost use Rattle.edge_search.specs.Pieces.{IsSearch};

    ghost Value = { Searched };

    ghost view = { λ s. record { strip = s.strip; edges = s.edges.items } };

    ghost invariant = { λ s. IsSearch (2 ^ 30) s.strip s.edges.items s.pieces.items s.verticals.items };
}

impl EdgeSearch {
    ghost use Rattle.std.specs.Prelude.{◌≡◌, ◌≤◌, ◌^◌, unsigned_abs, [], All, IfOk};
    ghost use Rattle.grid_core.specs.Vector.{IsWithin};
    ghost use Rattle.grid_core.specs.Places.{strip_of, place_among};
    ghost use Rattle.place_test.specs.Reach.{IsEdgeWithin};
    ghost use Rattle.edge_search.specs.Search.{DontCross, NoneEndsAt, IsPairWithin};
    ghost use Rattle.edge_search.specs.Found.{IsNearestVertical, IsNearest};

    /// A search among edges that don't cross, for query points in this strip. The strip's number is at most 2^25 in
    /// size. Takes as long as a sort of at most 16 pieces an edge.
    pub fn of(alloc: Global, strip: i64, edges: Vec<Edge>) -> Result<EdgeSearch, Memory>
        requires strip_within { unsigned_abs strip ≤ 2 ^ 25 }
        requires within { All (IsEdgeWithin (2 ^ 30)) edges.items }
        requires apart { DontCross edges.items }
        ensures { IfOk result (λ s. s ≡ record { strip = strip; edges = edges.items }) }
    {
        let pieces = pieces_of(alloc, strip, edges.as_slice())?;
        let verticals = verticals_of(alloc, edges.as_slice())?;
        Ok(EdgeSearch {
            strip,
            edges,
            pieces,
            verticals,
        })
    }

    /// The edges, as they were given.
    pub fn edges(&self) -> &[Edge]
        ensures { result.now ≡ self.now.edges }
    {
        self.edges.as_slice()
    }

    /// The number of the strip.
    pub fn strip(&self) -> i64
        ensures { result ≡ self.now.strip }
    {
        self.strip
    }

    /// Where a query point of the strip, in 1/256 of a pixel, lies among the edges, if it is at no end of one: on
    /// the least edge that has it, or else between the nearest above and below. Takes no memory.
    pub fn place(&self, at: Point) -> Place
        requires at_within { IsWithin (2 ^ 40) at }
        requires strip { strip_of 256 at ≡ self.now.strip }
        requires at_no_end { NoneEndsAt self.now.edges at }
        ensures value { result ≡ place_among [] self.now.edges at }
        ensures within { IsPairWithin (2 ^ 30) result }
    {
        self.nearest(at).place()
    }

    /// What is nearest to a query point of the strip, in 1/256 of a pixel, that is at no end of an edge. Each node
    /// of the tree that has the point's column is looked at, from the leaf up.
    fn nearest(&self, at: Point) -> Nearest
        requires at_within { IsWithin (2 ^ 40) at }
        requires strip { strip_of 256 at ≡ self.now.strip }
        requires at_no_end { NoneEndsAt self.now.edges at }
        ensures found { IsNearest self.now.edges at result }
        ensures kept { DontCross self.now.edges }
        ensures within { All (IsEdgeWithin (2 ^ 30)) self.now.edges }
    {
        let pieces = self.pieces.as_slice();
        let leaf = leaf_of(self.strip, at);
        let mut nearest = self.nearest_vertical(at);
        let mut node = leaf;
        'nodes: while 0 < node {
            add_pieces(&mut nearest, candidates(pieces, node, at), at);
            node = floor(node, 2);
        }
        nearest
    }

    /// What is nearest to a query point, in 1/256 of a pixel, among one vertical edge: that which has the point, or
    /// another or none where none has it.
    fn nearest_vertical(&self, at: Point) -> Nearest
        requires at_within { IsWithin (2 ^ 40) at }
        requires at_no_end { NoneEndsAt self.now.edges at }
        ensures { IsNearestVertical self.now.edges at result }
    {
        let mut nearest = Nearest::of_nothing();
        if let Some(e) = vertical_near(&self.verticals, at) {
            nearest.add_edge(at, &e);
        }
        nearest
    }
}
