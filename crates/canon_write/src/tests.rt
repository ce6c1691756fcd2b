use super::*;
use grid_core::{Edge, Memory, Name, Point, Profile, Ur, Vertex};
use round_plain::{Bundled, Names, Points, Rounding, Routed};
use std::alloc::Global;
use std::test::Fail;

fn point(x: i64, y: i64) -> Point {
    Point { x, y }
}

fn routed(alloc: Global, serial: u16, points: &[Point]) -> Option<Routed> {
    let name = Name::new(1, serial)?;
    let (first, last) = (points.first()?, points.last()?);
    let ur = Ur::new(&Profile::edition_one(), name, *first, *last).ok()?;
    let points = Points::of(Vec::from_slice(alloc, points).ok()?);
    Some(Routed { ur, points })
}

fn bundled(alloc: Global, u: Point, v: Point, serial: u16) -> Option<Bundled> {
    let mut names = Names::open(alloc);
    names.push(Name::new(1, serial)?).ok()?;
    let edge = Edge::of(u, v)?;
    Some(Bundled { edge, names })
}

fn vertex(x: i64, y: i64, ends: u32, crossings: u32) -> Vertex {
    let at = point(x, y);
    Vertex {
        at,
        ends,
        crossings,
    }
}

// The rounding of (0,0)-(5,2) and (0,2)-(5,0), which cross at (2.5, 1).
fn half_exactly_picture(alloc: Global) -> Option<Rounding> {
    let (a, b, c) = (point(0, 0), point(3, 1), point(5, 2));
    let (d, e) = (point(0, 2), point(5, 0));
    let mut routes = Vec::new(alloc);
    routes.push(routed(alloc, 1, &[a, b, c])?).ok()?;
    routes.push(routed(alloc, 2, &[d, b, e])?).ok()?;
    let mut vertices = Vec::new(alloc);
    for (x, y, ends, crossings) in [
        (0, 0, 1, 0),
        (0, 2, 1, 0),
        (3, 1, 0, 1),
        (5, 0, 1, 0),
        (5, 2, 1, 0),
    ] {
        vertices.push(vertex(x, y, ends, crossings)).ok()?;
    }
    let mut edges = Vec::new(alloc);
    for (u, v, serial) in [(a, b, 1), (d, b, 2), (b, e, 2), (b, c, 1)] {
        edges.push(bundled(alloc, u, v, serial)?).ok()?;
    }
    Some(Rounding::of_parts(routes, vertices, edges))
}

const HALF_EXACTLY: &str = "arrangement 2
segments 2
1.1 0 0 5 2 route 3 0 0 3 1 5 2
1.2 0 2 5 0 route 3 0 2 3 1 5 0
vertices 5
0 0 ends 1 crossings 0
0 2 ends 1 crossings 0
3 1 ends 0 crossings 1
5 0 ends 1 crossings 0
5 2 ends 1 crossings 0
edges 4
0 0 3 1 names 1 1.1
0 2 3 1 names 1 1.2
3 1 5 0 names 1 1.2
3 1 5 2 names 1 1.1
end
";

const EMPTY: &str = "arrangement 0
segments 0
vertices 0
edges 0
end
";

#[test]
fn half_exactly(rt: HostRuntime) -> Result<(), Memory> {
    let picture = half_exactly_picture(rt.alloc()).expect(&rt, "a rounding");
    let text = arrangement_text(rt.alloc(), 2, &picture)?;
    assert!(rt; text.as_slice() == HALF_EXACTLY.as_bytes());
    Ok(())
}

#[test]
fn an_empty_drawing(rt: HostRuntime) -> Result<(), Memory> {
    let alloc = rt.alloc();
    let picture = Rounding::of_parts(Vec::new(alloc), Vec::new(alloc), Vec::new(alloc));
    let text = arrangement_text(alloc, 0, &picture)?;
    assert!(rt; text.as_slice() == EMPTY.as_bytes());
    let mut out = Vec::from_slice(alloc, b"final\n")?;
    push_arrangement(&mut out, 0, &picture)?;
    let want = b"final\narrangement 0\nsegments 0\nvertices 0\nedges 0\nend\n";
    assert!(rt; out.as_slice() == want.as_slice());
    Ok(())
}
