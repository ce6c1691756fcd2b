use crate::{Contour, HalfEdges, next_is_one_to_one, walks_come_back};
use grid_core::{Edge, Point};
use std::alloc::Global;
use std::process::Abort;
use std::test::Fail;

/// The half-edges of edges with these ends, four coordinates each, in rising order.
fn drawn(rt: &impl Abort, alloc: Global, ends: &[[i64; 4]]) -> Result<HalfEdges, Fail> {
    let mut edges = Vec::new(alloc);
    for [a, b, c, d] in ends {
        edges.push(Edge::of(Point { x: *a, y: *b }, Point { x: *c, y: *d }).expect(
            rt,
            "two points",
        ))?;
    }
    assert!(rt; HalfEdges::takes(&edges), "the edges rise");
    next_is_one_to_one(&edges);
    walks_come_back(&edges);
    Ok(HalfEdges::build(alloc, &edges)?)
}

/// How many points a contour has, its `area2`, and the points.
fn line(alloc: Global, contour: &Contour) -> Result<String, Fail> {
    let mut text = format!(in alloc; "{} {}", contour.points.len(), contour.area2)?;
    for point in contour.points.iter() {
        text.push_str(&format!(in alloc; " {} {}", point.x, point.y)?)?;
    }
    text.push_str("\n")?;
    Ok(text)
}

/// The contour from one point to another, as a line.
fn traced(alloc: Global, half_edges: &HalfEdges, ends: [i64; 4]) -> Result<String, Fail> {
    let [a, b, c, d] = ends;
    match half_edges.contour(Point { x: a, y: b }, Point { x: c, y: d })? {
        Some(contour) => line(alloc, &contour),
        None => Ok(String::from_str(alloc, "no edge\n")?),
    }
}

/// All contours, each once, by their least half-edges, which run from a lesser point to a greater.
fn all(rt: &impl Abort, alloc: Global, ends: &[[i64; 4]]) -> Result<String, Fail> {
    let half_edges = drawn(rt, alloc, ends)?;
    let mut text = String::new(alloc);
    for [a, b, c, d] in ends {
        let from = Point { x: *a, y: *b };
        let to = Point { x: *c, y: *d };
        let contour = half_edges.contour(from, to)?.expect(rt, "an edge");
        if contour.points.first() == Some(&from) && contour.points.get(1) == Some(&to) {
            text.push_str(&line(alloc, &contour)?)?;
        }
    }
    Ok(text)
}

#[test]
fn contours(rt: HostRuntime) -> Result<(), Fail> {
    let alloc = rt.alloc();
    let half_edges = drawn(
        &rt,
        alloc,
        &[[0, 0, 0, 8], [0, 0, 2, 2], [0, 0, 8, 0], [0, 8, 8, 0]],
    )?;
    for (ends, want) in [
        ([0, 0, 8, 0], "5 64 0 0 2 2 0 0 8 0 0 8\n"),
        ([2, 2, 0, 0], "5 64 0 0 2 2 0 0 8 0 0 8\n"),
        ([8, 0, 0, 0], "3 -64 0 0 0 8 8 0\n"),
        ([0, 0, 9, 9], "no edge\n"),
        ([2, 2, 2, 2], "no edge\n"),
        ([0, 0, i64::MIN, i64::MAX], "no edge\n"),
    ] {
        assert_eq!(rt; traced(alloc, &half_edges, ends)?.as_str(), want);
    }
    Ok(())
}

#[test]
fn contour_of_one_edge(rt: HostRuntime) -> Result<(), Fail> {
    let alloc = rt.alloc();
    let half_edges = drawn(&rt, alloc, &[[0, 0, 1, 0]])?;
    assert_eq!(rt;
        traced(alloc, &half_edges, [1, 0, 0, 0])?.as_str(),
        "2 0 0 0 1 0\n"
    );
    Ok(())
}

#[test]
fn contour_of_none(rt: HostRuntime) -> Result<(), Fail> {
    let alloc = rt.alloc();
    let half_edges = drawn(&rt, alloc, &[])?;
    assert_eq!(rt;
        traced(alloc, &half_edges, [1, 0, 0, 0])?.as_str(),
        "no edge\n"
    );
    assert!(rt;
        !HalfEdges::takes(&[Edge::of(Point { x: 0, y: 0 }, Point { x: 0, y: 1 << 31 }).expect(
            &rt,
            "two points"
        )])
    );
    Ok(())
}

#[test]
fn all_contours_of_drawings(rt: HostRuntime) -> Result<(), Fail> {
    let alloc = rt.alloc();
    assert_eq!(rt;
        all(&rt, alloc, &[[0, 0, 0, 3], [0, 0, 1, 1], [0, 0, 2, 2]])?.as_str(),
        "6 0 0 0 0 3 0 0 1 1 0 0 2 2\n",
        "two neighbours in one direction"
    );
    assert_eq!(rt;
        all(
            &rt,
            alloc,
            &[
                [-1, -1, -1, 0],
                [-1, -1, 0, -1],
                [-1, -1, 0, 0],
                [-1, 0, -1, 1],
                [-1, 0, 0, 0],
                [-1, 1, 0, 0],
                [-1, 1, 0, 1],
                [0, -1, 0, 0],
                [0, -1, 1, -1],
                [0, 0, 0, 1],
                [0, 0, 1, -1],
                [0, 0, 1, 0],
                [0, 0, 1, 1],
                [0, 1, 1, 1],
                [1, -1, 1, 0],
                [1, 0, 1, 1],
            ]
        )?
        .as_str(),
        "\
8 -8 -1 -1 -1 0 -1 1 0 1 1 1 1 0 1 -1 0 -1
3 1 -1 -1 0 -1 0 0
3 1 -1 -1 0 0 -1 0
3 1 -1 0 0 0 -1 1
3 1 -1 1 0 0 0 1
3 1 0 -1 1 -1 0 0
3 1 0 0 1 -1 1 0
3 1 0 0 1 0 1 1
3 1 0 0 1 1 0 1
",
        "a vertex of degree 8"
    );
    assert_eq!(rt;
        all(
            &rt,
            alloc,
            &[
                [0, 0, 0, 20],
                [0, 0, 20, 0],
                [0, 20, 20, 0],
                [3, 3, 3, 6],
                [3, 3, 6, 3],
                [3, 6, 6, 3],
            ]
        )?
        .as_str(),
        "\
3 -400 0 0 0 20 20 0
3 400 0 0 20 0 0 20
3 -9 3 3 3 6 6 3
3 9 3 3 6 3 3 6
",
        "a triangle in a triangle"
    );
    assert_eq!(rt;
        all(
            &rt,
            alloc,
            &[
                [-12, 4, -2, -1],
                [-11, -7, 0, -2],
                [-11, 8, -6, 7],
                [-8, 12, 1, 2],
                [-5, -3, -2, -1],
                [-2, -1, 0, -2],
                [-2, -1, 1, 2],
                [-1, -4, 1, -3],
                [0, -2, 1, -3],
                [0, -2, 3, -1],
                [1, -3, 3, -4],
                [1, -3, 3, -2],
                [1, 2, 2, 3],
                [1, 2, 3, 1],
                [2, 3, 2, 6],
                [2, 3, 3, 1],
                [2, 3, 9, 8],
                [3, -4, 3, -2],
                [3, -4, 4, -11],
                [3, -4, 11, -8],
                [3, -2, 3, -1],
                [3, -2, 4, -1],
                [3, -1, 3, 1],
                [3, -1, 4, -1],
                [3, 1, 4, -1],
                [4, -1, 5, -1],
                [4, -1, 10, 2],
                [5, -1, 9, -6],
                [5, -1, 10, 2],
                [10, 2, 11, 2],
            ]
        )?
        .as_str(),
        "\
34 -43 -12 4 -2 -1 1 2 -8 12 1 2 2 3 2 6 2 3 9 8 2 3 3 1 4 -1 10 2 11 2 10 2 5 -1 9 -6 5 -1 4 -1 3 -2 \
3 -4 11 -8 3 -4 4 -11 3 -4 1 -3 -1 -4 1 -3 0 -2 -11 -7 0 -2 -2 -1 -5 -3 -2 -1
2 0 -11 8 -6 7
5 24 -2 -1 0 -2 3 -1 3 1 1 2
4 6 0 -2 1 -3 3 -2 3 -1
3 4 1 -3 3 -4 3 -2
3 3 1 2 3 1 2 3
3 1 3 -2 4 -1 3 -1
3 2 3 -1 4 -1 3 1
3 3 4 -1 5 -1 10 2
",
        "the rounding of seven segments"
    );
    Ok(())
}
