ghost use Rattle.std.specs.Prelude.{◌≡◌, ◌≤◌, [], ◌∷◌, length, map, IfOk};
ghost use Rattle.std.specs.List.Sorted.{IsStrictlySortedBy};
ghost use Rattle.grid_core.specs.Name.{label_cmp};
ghost use Rattle.grid_core.specs.LiveList.{names};
ghost use Rattle.planar_law.specs.PlanarEdges.{graph_of};

use crate::{PlanarEdges, near_of_route, planar_of_rounding, rounding_stays_within};
use grid_core::{Edge, Memory, Name, Point, Profile, Ur};
use round_plain::{Rounding, round};
use std::alloc::{AllocError, Global};
use std::cmp::Ordering;
use std::process::Abort;
use std::test::Fail;

/// For a case with fewer than four segments.
const UNUSED: [i64; 4] = [0, 0, 1, 0];

/// Segment `1.serial` between two points, given as four coordinates.
fn segment(rt: &impl Abort, serial: u16, ends: [i64; 4]) -> Ur
    ensures { result.name ≡ record { editor = 1; serial = serial } }
{
    let [a, b, c, d] = ends;
    let name = Name::new(1, serial).expect(rt, "a serial above 0");
    let p = Point { x: a, y: b };
    let q = Point { x: c, y: d };
    Ur::new(&Profile::edition_one(), name, p, q).expect(rt, "two ends within the bound")
}

/// Segments `1.1` to `1.4`.
fn four(rt: &impl Abort, ends: [[i64; 4]; 4]) -> [Ur; 4]
    ensures { names result
        ≡ record { editor = 1; serial = 1 }
        ∷ record { editor = 1; serial = 2 }
        ∷ record { editor = 1; serial = 3 }
        ∷ record { editor = 1; serial = 4 }
        ∷ [] }
{
    let [first, second, third, fourth] = ends;
    let first = segment(rt, 1, first);
    let second = segment(rt, 2, second);
    let third = segment(rt, 3, third);
    let fourth = segment(rt, 4, fourth);
    [first, second, third, fourth]
}

/// The edges of a rounding, without their bundles.
fn edges(alloc: Global, picture: &Rounding) -> Result<Vec<Edge>, AllocError>
    ensures { IfOk result (λ v. v.items ≡ map (λ e. e.edge) picture.now.edges) }
{
    picture.edges().iter().map(|e| e.edge).collect(alloc)
}

/// The vertices of a rounding, without their counts.
fn vertices(alloc: Global, picture: &Rounding) -> Result<Vec<Point>, AllocError>
    ensures { IfOk result (λ v. v.items ≡ map (λ w. w.at) picture.now.vertices) }
{
    picture.vertices().iter().map(|w| w.at).collect(alloc)
}

/// The graph of the rounding of these segments.
fn graph(alloc: Global, segments: &[Ur]) -> Result<PlanarEdges, Memory>
    requires rising { IsStrictlySortedBy label_cmp (names segments.now) }
    requires few { length segments.now ≤ 65536 }
    ensures { IfOk result (λ p. p ≡ graph_of segments.now) }
{
    let picture = round(alloc, segments)?;
    let edges = edges(alloc, &picture)?;
    let vertices = vertices(alloc, &picture)?;
    Ok(PlanarEdges::of(segments, edges, vertices))
}

/// The side of `h`, seen from `a` to `b`. Coordinates are small, so that nothing wraps.
fn side(a: Point, b: Point, h: Point) -> Ordering {
    let first = b.x.wrapping_sub(a.x).wrapping_mul(h.y.wrapping_sub(a.y));
    let second = b.y.wrapping_sub(a.y).wrapping_mul(h.x.wrapping_sub(a.x));
    first.cmp(&second)
}

/// Whether `h` is a point of the line from `a` to `b`, and neither of the two.
fn is_inside(h: Point, ends: [Point; 2]) -> bool {
    let [a, b] = ends;
    h != a
        && h != b
        && side(a, b, h) == Ordering::Equal
        && a.x.min(b.x) <= h.x
        && h.x <= a.x.max(b.x)
        && a.y.min(b.y) <= h.y
        && h.y <= a.y.max(b.y)
}

/// Whether one of the two is left, and the other is right.
fn differ(one: Ordering, other: Ordering) -> bool {
    one != Ordering::Equal && one == other.reverse()
}

/// Whether two lines have a point in common that isn't an end of both.
fn meet_inside(one: [Point; 2], other: [Point; 2]) -> bool {
    let [a, b] = one;
    let [c, d] = other;
    (differ(side(a, b, c), side(a, b, d)) && differ(side(c, d, a), side(c, d, b)))
        || is_inside(c, one)
        || is_inside(d, one)
        || is_inside(a, other)
        || is_inside(b, other)
}

/// Whether some two of the lines have a point in common that isn't an end of both.
fn some_meet_inside(lines: &[[Point; 2]]) -> bool {
    for (i, one) in lines.iter().enumerate() {
        for other in &lines[i + 1..] {
            if meet_inside(*one, *other) {
                return true;
            }
        }
    }
    false
}

/// The graph of the rounding of the first `count` of the four segments.
fn rounded(
    rt: &impl Abort,
    alloc: Global,
    count: usize,
    ends: [[i64; 4]; 4],
) -> Result<PlanarEdges, Fail>
    requires { count ≤ 4 }
{
    let segments = four(rt, ends);
    Ok(graph(alloc, &segments[..count])?)
}

/// The first `count` of the four segments as lines.
fn drawn(alloc: Global, count: usize, ends: [[i64; 4]; 4]) -> Result<Vec<[Point; 2]>, AllocError>
    requires { count ≤ 4 }
{
    let mut lines = Vec::new(alloc);
    for line in &ends[..count] {
        let [a, b, c, d] = *line;
        lines.push([Point { x: a, y: b }, Point { x: c, y: d }])?;
    }
    Ok(lines)
}

/// The edges as lines.
fn edge_lines(alloc: Global, planar: &PlanarEdges) -> Result<Vec<[Point; 2]>, AllocError> {
    let mut lines = Vec::new(alloc);
    for e in planar.edges() {
        lines.push([e.a(), e.b()])?;
    }
    Ok(lines)
}

/// Whether some vertex is a point of a line, and neither of its ends.
fn some_inside(vertices: &[Point], lines: &[[Point; 2]]) -> bool {
    for line in lines {
        for h in vertices {
            if is_inside(*h, *line) {
                return true;
            }
        }
    }
    false
}

/// Tests the edges of the first `count` segments pairwise, and against each vertex. Wanted are
/// whether two of the segments meet elsewhere than at a common end, and how many vertices and edges
/// there are.
fn test_edges(
    rt: &impl Abort,
    alloc: Global,
    row: &str,
    count: usize,
    ends: [[i64; 4]; 4],
    want: (bool, usize, usize),
) -> Result<(), Fail>
    requires { count ≤ 4 }
{
    let (meet, vertices, edges) = want;
    let drawn = drawn(alloc, count, ends)?;
    assert_eq!(rt; some_meet_inside(&drawn), meet, "{row}: as it is drawn");

    let planar = rounded(rt, alloc, count, ends)?;
    let lines = edge_lines(alloc, &planar)?;
    assert!(rt;
        !some_meet_inside(&lines),
        "{row}: edges meet at common ends alone"
    );
    assert!(rt;
        !some_inside(planar.vertices(), &lines),
        "{row}: no vertex is inside an edge"
    );
    assert_eq!(rt; planar.vertices().len(), vertices, "{row}: vertices");
    assert_eq!(rt; planar.edges().len(), edges, "{row}: edges");
    Ok(())
}

#[test]
fn worked_drawings(rt: HostRuntime) -> Result<(), Fail> {
    for (row, count, ends, want) in [
        (
            "nothing",
            0,
            [UNUSED, UNUSED, UNUSED, UNUSED],
            (false, 0, 0),
        ),
        (
            "half_exactly",
            2,
            [[0, 0, 5, 2], [0, 2, 5, 0], UNUSED, UNUSED],
            (true, 5, 4),
        ),
        (
            "closed_corner",
            3,
            [[0, 0, 5, 2], [0, 2, 5, 0], [2, 1, 3, 0], UNUSED],
            (true, 7, 6),
        ),
        (
            "open_corner",
            3,
            [[0, 0, 5, 2], [0, 2, 5, 0], [3, 0, 4, 1], UNUSED],
            (true, 7, 6),
        ),
        (
            "same_ends_twice",
            2,
            [[0, 0, 4, 0], [4, 0, 0, 0], UNUSED, UNUSED],
            (false, 2, 1),
        ),
        (
            "overlap_and_touch",
            3,
            [[0, 0, 10, 0], [5, 0, 15, 0], [5, 0, 5, 5], UNUSED],
            (true, 5, 4),
        ),
        (
            "tile_border",
            2,
            [[250, 0, 260, 0], [255, -1, 256, 1], UNUSED, UNUSED],
            (true, 5, 4),
        ),
        (
            "flat and steep",
            4,
            [
                [0, 0, 30, 1],
                [0, 1, 30, 0],
                [10, -3, 20, 4],
                [14, 5, 15, -5],
            ],
            (true, 11, 11),
        ),
        (
            "nearly parallel",
            4,
            [[0, 0, 40, 3], [0, 2, 40, 1], [0, 1, 40, 2], [3, 3, 37, 0]],
            (true, 9, 8),
        ),
    ] {
        test_edges(&rt, rt.alloc(), row, count, ends, want)?;
    }
    Ok(())
}

#[test]
fn hostile_drawings(rt: HostRuntime) -> Result<(), Fail> {
    let star = [[-3, 0, 3, 0], [0, -3, 0, 3], [-3, -3, 3, 3], [-3, 3, 3, -3]];
    test_edges(
        &rt,
        rt.alloc(),
        "four through one point",
        4,
        star,
        (true, 9, 8),
    )
}

#[test]
fn laws_of_a_drawing(rt: HostRuntime) -> Result<(), Fail> {
    let segments = four(&rt, [[0, 0, 5, 2], [0, 2, 5, 0], UNUSED, UNUSED]);
    let s = segment(&rt, 5, [0, 0, 9, 4]);
    planar_of_rounding(&segments);
    near_of_route(&segments, &s);
    rounding_stays_within(&segments);
    Ok(())
}
