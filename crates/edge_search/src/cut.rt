//! The cutting of an edge into its pieces over the columns of a strip.

ghost use Rattle.std.specs.Prelude.{◌≡◌, ◌↔◌, ◌≤◌, ◌%◌, ◌^◌, pos, ◌-ℤ◌, ◌*ℤ◌, unsigned_abs};
ghost use Rattle.std.specs.Prelude.{[], ◌∷◌, IfOk, IsTrue};
ghost use Rattle.place_test.specs.Reach.{IsEdgeWithin};
ghost use Rattle.edge_search.specs.Pieces.{IsPiece};
ghost use Rattle.edge_search.specs.Ranks.{ranked_piece};
ghost use Rattle.edge_search.specs.Cuts.{IsNearestLeaf, pushed_if, HavePiecesOf};

use crate::rank::{RankedPiece, ranked_piece};
use grid_core::{Edge, Memory};

/// Adds the pieces of an edge, at most 16: those over the widest nodes of which it has all columns. Of one width it
/// has the nodes from `first` on and before `end`. Where `first` is odd, its parent has columns that aren't the
/// edge's, and so has the parent of the last node where `end` is odd: these two become pieces. All others lie two
/// by two below nodes of twice the width.
pub(crate) fn cut(strip: i64, e: &Edge, found: &mut Vec<RankedPiece>) -> Result<(), Memory>
    requires strip_within { unsigned_abs strip ≤ 2 ^ 25 }
    requires edge_within { IsEdgeWithin (2 ^ 30) e.now }
    ensures { IfOk result (λ _. HavePiecesOf strip e.now found.old.items found.new.items) }
{
    let mut first = nearest_leaf(strip, e.a().x);
    let mut end = nearest_leaf(strip, e.b().x);
    let mut width = 1;
    while first < end {
        push_if(is_odd(first), strip, e, first, width, found)?;
        push_if(is_odd(end), strip, e, end - 1, width, found)?;
        first = (first + 1) / 2;
        end /= 2;
        width *= 2;
    }
    Ok(())
}

/// Adds the piece over a node if it is wanted.
#[inline(always)]
fn push_if(
    wanted: bool,
    strip: i64,
    e: &Edge,
    node: u32,
    width: u32,
    found: &mut Vec<RankedPiece>,
) -> Result<(), Memory>
    requires strip_within { unsigned_abs strip ≤ 2 ^ 25 }
    requires edge_within { IsEdgeWithin (2 ^ 30) e.now }
    requires piece { IsPiece strip (e.now ∷ []) (pos width)
        (record { node = pos node; edge = e.now }) }
    ensures { IfOk result (λ _. found.new.items
        ≡ pushed_if wanted found.old.items (ranked_piece strip e.now (pos node) (pos width))) }
{
    if wanted {
        found.push(ranked_piece(strip, e, i64::from(node), i64::from(width)))?;
    }
    Ok(())
}

/// The leaf of a column, in pixels, or the nearest of 256 to 512 where it is none of the strip's.
#[inline(always)]
fn nearest_leaf(strip: i64, x: i64) -> u32
    requires strip_within { unsigned_abs strip ≤ 2 ^ 25 }
    requires column_within { unsigned_abs x ≤ 2 ^ 30 }
    ensures { IsNearestLeaf strip x result }
{
    (256 + distance(strip, x).clamp(0, 256)) as u32
}

/// How far a column, in pixels, lies right of a strip's first.
#[inline(always)]
fn distance(strip: i64, x: i64) -> i64
    requires strip_within { unsigned_abs strip ≤ 2 ^ 25 }
    requires column_within { unsigned_abs x ≤ 2 ^ 30 }
    ensures { result ≡ x -ℤ pos 256 *ℤ strip }
{
    x - 256 * strip
}

/// Whether the number is odd.
#[inline(always)]
fn is_odd(n: u32) -> bool
    ensures { IsTrue result ↔ (n % 2 ≡ 1) }
{
    n % 2 == 1
}
