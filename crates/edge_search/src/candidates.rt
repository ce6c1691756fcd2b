//! The pieces over a node that are nearest to a query point, which is in 1/256 of a pixel.

ghost use Rattle.std.specs.Prelude.{◌≡◌, ◌^◌, [], ◌++◌, List};
ghost use Rattle.grid_core.specs.Vector.{IsWithin};
ghost use Rattle.grid_core.specs.Edge.{EdgeEnds};
ghost use Rattle.place_test.specs.Reach.{IsEdgeWithin};
ghost use Rattle.place_test.specs.Nearest.{around};
ghost use Rattle.edge_search.specs.Candidates.{edges_of, is_passed, ArePiecesWithin, AreInOrder};
ghost use Rattle.edge_search.specs.Candidates.{HaveColumn, IsDivision, AreNear};

use crate::piece::Piece;
use grid_core::Point;
use place_test::{Nearest, is_left_of};

/// Takes the edges of pieces into what is nearest to a query point.
pub(crate) fn add_pieces(nearest: &mut Nearest, pieces: &[Piece], at: Point)
    requires at_within { IsWithin (2 ^ 40) at }
    requires within { ArePiecesWithin (2 ^ 30) pieces.now }
    ensures { (es : List EdgeEnds) → nearest.old ≡ around [] es at
        → nearest.new ≡ around [] (es ++ edges_of pieces.now) at }
{
    for p in pieces {
        nearest.add_edge(at, &p.edge);
    }
}

/// Of pieces in order, those over a node that are nearest to a query point, which is in the column of all over
/// the node: the first that the point isn't above, and the one before it.
pub(crate) fn candidates(pieces: &[Piece], node: i64, at: Point) -> &[Piece]
    requires at_within { IsWithin (2 ^ 40) at }
    requires within { ArePiecesWithin (2 ^ 30) pieces.now }
    requires order { AreInOrder pieces.now }
    requires column { HaveColumn node at pieces.now }
    ensures { AreNear node at pieces.now result.now }
{
    let index = first_not_passed(pieces, node, at);
    &pieces[index.saturating_sub(1)..pieces.len().min(index + 1)]
}

/// The index of the first piece over the node that the point isn't above, or where it would stand. By halves.
fn first_not_passed(pieces: &[Piece], node: i64, at: Point) -> usize
    requires at_within { IsWithin (2 ^ 40) at }
    requires within { ArePiecesWithin (2 ^ 30) pieces.now }
    ensures { IsDivision node at pieces.now result }
{
    let mut low = 0;
    let mut high = pieces.len();
    'halves: while low < high {
        let middle = low + (high - low) / 2;
        if is_passed(&pieces[middle], node, at) {
            low = middle + 1;
        } else {
            high = middle;
        }
    }
    low
}

/// Whether the piece's node comes before this one, or it is over this node and the point is above it.
#[inline(always)]
fn is_passed(p: &Piece, node: i64, at: Point) -> bool
    requires at_within { IsWithin (2 ^ 40) at }
    requires within { IsEdgeWithin (2 ^ 30) p.now.edge }
    ensures { result ≡ is_passed node at p.now }
{
    p.node < node || p.node == node && is_left_of(at, &p.edge)
}
