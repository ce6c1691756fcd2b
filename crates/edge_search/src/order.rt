//! The pieces of the edges of a strip, in order.

ghost use Rattle.std.specs.Prelude.{◌≡◌, ◌≤◌, ◌^◌, unsigned_abs, map, All, IfOk};
ghost use Rattle.place_test.specs.Reach.{IsEdgeWithin};
ghost use Rattle.edge_search.specs.Pieces.{ArePieces};
ghost use Rattle.edge_search.specs.Ranks.{AreRanked};
ghost use Rattle.edge_search.specs.Search.{DontCross};

use crate::cut::cut;
use crate::piece::Piece;
use crate::rank::RankedPiece;
use grid_core::{Edge, Memory};
use std::alloc::Global;

/// The pieces of edges over the columns of a strip, by node and over one node from below. At most 16 an edge.
pub(crate) fn pieces_of(alloc: Global, strip: i64, edges: &[Edge]) -> Result<Vec<Piece>, Memory>
    requires strip_within { unsigned_abs strip ≤ 2 ^ 25 }
    requires within { All (IsEdgeWithin (2 ^ 30)) edges.now }
    requires apart { DontCross edges.now }
    ensures { IfOk result (λ ps. ArePieces strip edges.now ps.items) }
{
    let mut ranked = ranked_pieces(alloc, strip, edges)?;
    ranked.sort_unstable_by(|r: &RankedPiece, s: &RankedPiece| r.order(s));
    without_ranks(alloc, &ranked)
}

/// The pieces of edges over the columns of a strip, with their ranks.
fn ranked_pieces(alloc: Global, strip: i64, edges: &[Edge]) -> Result<Vec<RankedPiece>, Memory>
    requires strip_within { unsigned_abs strip ≤ 2 ^ 25 }
    requires within { All (IsEdgeWithin (2 ^ 30)) edges.now }
    ensures { IfOk result (λ found. AreRanked strip edges.now found.items) }
{
    let mut found = Vec::new(alloc);
    for e in edges {
        cut(strip, e, &mut found)?;
    }
    Ok(found)
}

/// The pieces alone.
fn without_ranks(alloc: Global, ranked: &[RankedPiece]) -> Result<Vec<Piece>, Memory>
    ensures { IfOk result (λ pieces. pieces.items ≡ map (λ r. r.piece) ranked.now) }
{
    let mut pieces = Vec::with_capacity(alloc, ranked.len())?;
    for r in ranked {
        pieces.push(r.piece)?;
    }
    Ok(pieces)
}
