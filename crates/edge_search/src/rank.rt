//! Ranks of pieces: whole numbers by which the pieces over one node stand in order from below.

ghost use Rattle.std.specs.Prelude.{◌≡◌, ℕ, ◌≤◌, ◌^◌, ◌*◌, pos, ◌+ℤ◌, ◌-ℤ◌, ◌*ℤ◌, ◌<ℤ◌};
ghost use Rattle.std.specs.Prelude.{unsigned_abs, [], ◌∷◌};
ghost use Rattle.std.specs.Int.{int_div_euclid};
ghost use Rattle.grid_core.specs.Vector.{IsWithin};
ghost use Rattle.grid_core.specs.Places.{edge_direction, height_at};
ghost use Rattle.place_test.specs.Reach.{IsEdgeWithin};
ghost use Rattle.edge_search.specs.EdgeOrder.{IsInside};
ghost use Rattle.edge_search.specs.Pieces.{column, IsNode, IsPiece};
ghost use Rattle.edge_search.specs.Ranks.{rank_at, point_inside, ranked_piece};

use crate::piece::Piece;
use grid_core::{Edge, Point, offset, sum, vector};
use place_test::query_point;
use std::cmp::Ordering;

/// 2^62. A rank is a height times this, rounded down. Heights are fractions of denominators up to 2^31, so two that
/// differ are 2^-62 apart at least.
const SCALE: i128 = 4_611_686_018_427_387_904;

/// A piece with its rank among those over its node.
#[derive(Clone, Copy, Debug)]
pub(crate) struct RankedPiece {
    pub(crate) piece: Piece,
    /// Below 2^103 in size.
    pub(crate) rank: i128,
}

impl RankedPiece {
    ghost use Rattle.std.specs.Prelude.{◌≡◌};
    ghost use Rattle.edge_search.specs.Ranks.{ranked_cmp};

    /// By node, and over one node by rank.
    #[inline(always)]
    pub(crate) fn order(&self, other: &RankedPiece) -> Ordering
        ensures { result ≡ ranked_cmp self.now other.now }
    {
        self.piece
            .node
            .cmp(&other.piece.node)
            .then(self.rank.cmp(&other.rank))
    }
}

/// The piece of an edge over a node of so many columns of the strip, with its rank.
pub(crate) fn ranked_piece(strip: i64, e: &Edge, node: i64, width: i64) -> RankedPiece
    requires strip_within { unsigned_abs strip ≤ 2 ^ 25 }
    requires edge_within { IsEdgeWithin (2 ^ 30) e.now }
    requires piece { IsPiece strip (e.now ∷ []) width (record { node = node; edge = e.now }) }
    ensures { result ≡ ranked_piece strip e.now node width }
{
    let at = point_inside(strip, node, width);
    RankedPiece {
        piece: Piece { node, edge: *e },
        rank: rank(at, e),
    }
}

/// A query point, in 1/256 of a pixel, inside the first column of a node.
#[inline(always)]
fn point_inside(strip: i64, node: i64, width: i64) -> Point
    requires strip_within { unsigned_abs strip ≤ 2 ^ 25 }
    requires node { IsNode node width }
    ensures { result ≡ point_inside strip node width }
{
    let x = just_inside(column(strip, first_leaf(node, width)));
    Point { x, y: 0 }
}

/// What is inside a column by 1/256 of a pixel, in this unit.
#[inline(always)]
fn just_inside(column: i64) -> i64
    requires { unsigned_abs column ≤ 2 ^ 34 }
    ensures { result ≡ pos 256 *ℤ column +ℤ pos 1 }
{
    256 * column + 1
}

/// The first leaf of a node.
#[inline(always)]
fn first_leaf(node: i64, width: i64) -> i64
    requires { IsNode node width }
    ensures value { result ≡ node *ℤ width }
    ensures small { unsigned_abs result ≤ 2 ^ 9 }
{
    node * width
}

/// The column of a strip that is a leaf, in pixels. At most 2^34 in size.
#[inline(always)]
fn column(strip: i64, leaf: i64) -> i64
    requires strip_within { unsigned_abs strip ≤ 2 ^ 25 }
    requires leaf_within { unsigned_abs leaf ≤ 2 ^ 9 }
    ensures value { result ≡ column strip leaf }
    ensures small { unsigned_abs result ≤ 2 ^ 34 }
{
    256 * strip + (leaf - 256)
}

/// The rank of an edge at the column of a query point inside it, in 1/256 of a pixel.
fn rank(at: Point, e: &Edge) -> i128
    requires edge_within { IsEdgeWithin (2 ^ 30) e.now }
    requires inside { IsInside at e.now }
    ensures { result ≡ rank_at at e.now }
{
    scaled_ratio(height(at, e), direction(e).x)
}

/// How high the edge is at the query point's column, times the width of the edge.
#[inline(always)]
fn height(at: Point, e: &Edge) -> i128
    requires edge_within { IsEdgeWithin (2 ^ 30) e.now }
    requires inside { IsInside at e.now }
    ensures { result ≡ height_at at e.now }
{
    let a = query_point(e.a());
    let d = direction(e);
    sum(product(a.y, d.x), product(d.y, offset(a.x, at.x)))
}

/// The direction of an edge, from its lesser end to its greater end.
#[inline(always)]
fn direction(e: &Edge) -> Point
    requires { IsEdgeWithin (2 ^ 30) e.now }
    ensures value { result ≡ edge_direction e.now }
    ensures small { IsWithin (2 ^ 31) result }
{
    vector(e.a(), e.b())
}

/// `a * b`, of factors up to 2^40 in size.
#[inline(always)]
fn product(a: i64, b: i64) -> i128
    requires left { unsigned_abs a ≤ 2 ^ 40 }
    requires right { unsigned_abs b ≤ 2 ^ 40 }
    ensures value { result ≡ a *ℤ b }
    ensures small { unsigned_abs result ≤ 2 ^ 80 }
{
    a as i128 * b as i128
}

/// The fraction `n / d`, at most 2^40 in size, times 2^62 and rounded down.
#[inline(always)]
fn scaled_ratio(n: i128, d: i64) -> i128
    requires small { unsigned_abs n ≤ 2 ^ 40 * unsigned_abs d }
    requires positive { pos 0 <ℤ d }
    requires narrow { unsigned_abs d ≤ 2 ^ 31 }
    ensures { result ≡ int_div_euclid (n *ℤ pos (2 ^ 62)) d }
{
    sum(scaled(floor(n, d)), floor(scaled(rest(n, d)), d))
}

/// `a * 2^62`, of a number up to 2^40 in size.
#[inline(always)]
fn scaled(a: i128) -> i128
    requires { unsigned_abs a ≤ 2 ^ 40 }
    ensures value { result ≡ a *ℤ pos (2 ^ 62) }
    ensures small { unsigned_abs result ≤ 2 ^ 102 }
{
    a * SCALE
}

/// `n / d` rounded down, of a number up to 2^102 in size.
#[inline(always)]
fn floor(n: i128, d: i64) -> i128
    requires many { unsigned_abs n ≤ 2 ^ 102 }
    requires positive { pos 0 <ℤ d }
    ensures value { result ≡ int_div_euclid n d }
    ensures small { (m : ℕ) → unsigned_abs n ≤ m * unsigned_abs d → unsigned_abs result ≤ m }
{
    n.div_euclid(d as i128)
}

/// What `n` is above `d` times `n / d` rounded down.
#[inline(always)]
fn rest(n: i128, d: i64) -> i128
    requires positive { pos 0 <ℤ d }
    requires narrow { unsigned_abs d ≤ 2 ^ 31 }
    ensures value { result ≡ n -ℤ int_div_euclid n d *ℤ d }
    ensures small { unsigned_abs result ≤ 2 ^ 31 }
{
    n.rem_euclid(d as i128)
}
