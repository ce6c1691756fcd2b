//! The vertical edges, in order, and the one that a query point is on. Query points are in 1/256 of a pixel.

ghost use Rattle.std.specs.Prelude.{◌≡◌, ◌^◌, Some, Contains, IsTrue, IfOk, IfSome};
ghost use Rattle.grid_core.specs.Vector.{IsWithin};
ghost use Rattle.grid_core.specs.Edge.{EdgeEnds};
ghost use Rattle.grid_core.specs.Places.{lies_on};
ghost use Rattle.edge_search.specs.Pieces.{AreVerticals};
ghost use Rattle.edge_search.specs.Search.{DontCross, NoneEndsAt};

use crate::node::floor;
use grid_core::{Edge, Memory, Point};
use std::alloc::Global;

/// The vertical ones of some edges, in order.
pub(crate) fn verticals_of(alloc: Global, edges: &[Edge]) -> Result<Vec<Edge>, Memory>
    ensures { IfOk result (λ vs. AreVerticals edges.now vs.items) }
{
    let mut verticals = Vec::new(alloc);
    for e in edges {
        if e.a().x == e.b().x {
            verticals.push(*e)?;
        }
    }
    verticals.sort_unstable();
    Ok(verticals)
}

/// Of vertical edges in order, the last whose lower end doesn't come after a query point's pixel. Where one of them
/// has the point, it is that one: a later one would begin on it.
pub(crate) fn vertical_near(verticals: &[Edge], at: Point) -> Option<Edge>
    requires at_within { IsWithin (2 ^ 40) at }
    requires vertical { AreVerticals verticals.now verticals.now }
    requires apart { DontCross verticals.now }
    requires at_no_end { NoneEndsAt verticals.now at }
    ensures member { IfSome result (Contains verticals.now) }
    ensures found { (e : EdgeEnds) → Contains verticals.now e → IsTrue (lies_on at e) → result ≡ Some e }
{
    let x = floor(at.x, 256);
    let y = floor(at.y, 256);
    let pixel = Point { x, y };
    let index = verticals.partition_point(|e| e.a() <= pixel);
    verticals[..index].last().copied()
}
