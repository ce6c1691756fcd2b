ghost use Rattle.std.specs.Prelude.{◌≡◌, ◌^◌, ◌↔◌, [], ◌∷◌, pos, IfOk, IsTrue};
ghost use Rattle.grid_core.specs.Vector.{IsWithin};
ghost use Rattle.grid_core.specs.Places.{strip_of};
ghost use Rattle.place_test.specs.Reach.{IsEdgeWithin};

use crate::EdgeSearch;
use grid_core::{Edge, Memory, Place, Point};
use place_test::is_at;
use std::alloc::Global;
use std::process::Abort;
use std::test::Fail;

/// The place of a query point that has no edge above it and none below.
const NOTHING: Place = Place::Between {
    above: None,
    below: None,
};

/// The edge between two points, given as four coordinates.
fn edge(rt: &impl Abort, ends: [i64; 4]) -> Edge
    ensures { IsEdgeWithin (2 ^ 30) result }
{
    let [a, b, c, d] = ends;
    let edge = Edge::of(Point { x: a, y: b }, Point { x: c, y: d }).expect(rt, "two points");
    assert!(rt;
        is_within(edge.a()) && is_within(edge.b()),
        "an edge within reach"
    );
    edge
}

/// Whether neither coordinate is greater than 2^30 in size.
fn is_within(h: Point) -> bool
    ensures { IsTrue result ↔ IsWithin (2 ^ 30) h }
{
    h.x.unsigned_abs() <= 1 << 30 && h.y.unsigned_abs() <= 1 << 30
}

/// A search in strip 0 for places about one edge.
fn search(alloc: Global, edge: Edge) -> Result<EdgeSearch, Memory>
    requires { IsEdgeWithin (2 ^ 30) edge }
    ensures { IfOk result (λ s. s ≡ record { strip = pos 0; edges = edge ∷ [] }) }
{
    let mut edges = Vec::new(alloc);
    edges.push(edge)?;
    EdgeSearch::of(alloc, 0, edges)
}

/// Where a query point of strip 0 that is no end of the edge lies.
fn place(rt: &impl Abort, search: &EdgeSearch, edge: Edge, at: Point) -> Place
    requires edge_within { IsEdgeWithin (2 ^ 30) edge }
    requires search { search.now ≡ record { strip = pos 0; edges = edge ∷ [] } }
{
    assert!(rt;
        is_in_reach(at) && is_in_first_strip(at),
        "a query point of strip 0"
    );
    assert!(rt;
        !is_at(at, edge.a()) && !is_at(at, edge.b()),
        "a query point that is no end"
    );
    search.place(at)
}

/// Whether neither coordinate is greater than 2^40 in size.
fn is_in_reach(at: Point) -> bool
    ensures { IsTrue result ↔ IsWithin (2 ^ 40) at }
{
    at.x.unsigned_abs() <= 1 << 40 && at.y.unsigned_abs() <= 1 << 40
}

/// Whether the query point's column is one of strip 0.
fn is_in_first_strip(at: Point) -> bool
    ensures { IsTrue result ↔ (strip_of 256 at ≡ pos 0) }
{
    at.x.div_euclid(65_536) == 0
}

/// The place of a query point with this edge above it, and none below.
fn under(edge: Edge) -> Place {
    Place::Between {
        above: Some(edge),
        below: None,
    }
}

/// The place of a query point with this edge below it, and none above.
fn over(edge: Edge) -> Place {
    Place::Between {
        above: None,
        below: Some(edge),
    }
}

#[test]
fn about_one_edge(rt: HostRuntime) -> Result<(), Fail> {
    for (ends, points) in [
        (
            [-300, 0, 300, 0],
            [
                ([0, -1], "under"),
                ([0, 0], "on"),
                ([65535, 1], "over"),
                ([65535, -1], "under"),
                ([25600, 256], "over"),
            ],
        ),
        (
            [10, 0, 20, 10],
            [
                ([2559, 0], "apart"),
                ([2560, -1], "under"),
                ([2561, 1], "on"),
                ([5119, 2560], "over"),
                ([5120, 0], "apart"),
            ],
        ),
        (
            [255, 7, 255, 9],
            [
                ([65280, 2000], "on"),
                ([65280, 1791], "apart"),
                ([65280, 2305], "apart"),
                ([65279, 2000], "apart"),
                ([65281, 2000], "apart"),
            ],
        ),
        (
            [256, 7, 300, 9],
            [
                ([65535, 2000], "apart"),
                ([65535, 1792], "apart"),
                ([0, 0], "apart"),
                ([65280, -9999999999], "apart"),
                ([1, 9999999999], "apart"),
            ],
        ),
    ] {
        let edge = edge(&rt, ends);
        let search = search(rt.alloc(), edge)?;
        for ([x, y], want) in points {
            let found = place(&rt, &search, edge, Point { x, y });
            let wanted = match want {
                "on" => Place::OnEdge(edge),
                "under" => under(edge),
                "over" => over(edge),
                _ => NOTHING,
            };
            assert!(rt; found == wanted, "{x} {y}");
        }
    }
    Ok(())
}
