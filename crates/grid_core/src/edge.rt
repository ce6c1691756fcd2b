//! Edges between grid points.

ghost use Rattle.std.proofs.Common.{rules};
ghost use Rattle.std.specs.Cmp.{po};
ghost use Rattle.std.specs.Cmp.Rules.{comparing};
ghost use Rattle.std.specs.Ordering.{as_partial_cmp};

use crate::Point;
use std::cmp::Ordering;
use std::marker::Model;

/// Two different grid points, joined. `a` comes before `b`: by x, and at one x by y.
/// Edges are ordered by `a`, and at one `a` by `b`.
#[derive(Clone, Copy, Debug, PartialEq, Eq)]
pub struct Edge {
    a: Point,
    b: Point,
}

impl Model for Edge {
    ghost use Rattle.grid_core.specs.Edge.{EdgeEnds, IsEdge};

    ghost Value = { EdgeEnds };

    ghost view = { λ e. record { a = e.a; b = e.b } };

    ghost invariant = { λ e. IsEdge (record { a = e.a; b = e.b }) };

    ghost inverse = { λ e. record { a = e.a; b = e.b } };
}

impl Edge {
    ghost use Rattle.std.specs.Prelude.{◌≡◌, ◌↔◌, IsNone, IfSome};
    ghost use Rattle.grid_core.specs.Edge.{IsEdge, edge_between};

    /// The edge between `u` and `v`, given in either order. `None` where they are equal.
    pub fn of(u: Point, v: Point) -> Option<Edge>
        ensures equal { IsNone result ↔ (u ≡ v) }
        ensures value { IfSome result (λ e. e ≡ edge_between u v) }
    {
        match u.cmp(&v) {
            Ordering::Less => Some(Edge { a: u, b: v }),
            Ordering::Equal => None,
            Ordering::Greater => Some(Edge { a: v, b: u }),
        }
    }

    /// The lesser end.
    pub fn a(&self) -> Point
        ensures value { result ≡ self.now.a }
        ensures kept { IsEdge self.now }
    {
        self.a
    }

    /// The greater end.
    pub fn b(&self) -> Point
        ensures value { result ≡ self.now.b }
        ensures kept { IsEdge self.now }
    {
        self.b
    }
}

impl Ord for Edge {
    ghost use Rattle.grid_core.specs.Edge.{edge_cmp};
    ghost use Rattle.grid_core.specs.Orders.{edges_in_order};

    ghost cmp = { edge_cmp };

    ghost total = { edges_in_order };

    ghost matches_partial_cmp = { Prim.search (comparing, rules) };

    ghost matches_eq = { Prim.search (comparing, rules) };

    fn cmp(&self, other: &Edge) -> Ordering {
        self.a.cmp(&other.a).then(self.b.cmp(&other.b))
    }
}

impl PartialOrd for Edge {
    ghost use Rattle.grid_core.specs.Edge.{edge_cmp};
    ghost use Rattle.grid_core.specs.Orders.{edges_in_order};

    ghost partial_cmp = { as_partial_cmp edge_cmp };

    ghost laws = { po edges_in_order (Prim.search (comparing, rules)) };

    fn partial_cmp(&self, other: &Edge) -> Option<Ordering> {
        Some(self.cmp(other))
    }
}
