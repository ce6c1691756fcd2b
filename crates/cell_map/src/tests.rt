ghost use Rattle.std.specs.Prelude.{◌≡◌, ◌≤◌, ◌^◌, ◌↔◌, [], ◌∷◌, length, map, IfOk, IsTrue};
ghost use Rattle.std.specs.List.Sorted.{IsStrictlySortedBy};
ghost use Rattle.grid_core.specs.Vector.{IsWithin};
ghost use Rattle.grid_core.specs.Name.{label_cmp};
ghost use Rattle.grid_core.specs.LiveList.{names};
ghost use Rattle.planar_law.specs.PlanarEdges.{graph_of};

mod beside_scan;
mod refreshed;

use crate::{CellMap, Found};
use grid_core::{Cell, Edge, Memory, Name, Point, Profile, Ur};
use planar_law::PlanarEdges;
use round_plain::{Rounding, round};
use std::alloc::{AllocError, Global};
use std::process::Abort;
use std::test::Fail;

/// For a case with fewer than four segments.
const UNUSED: [i64; 4] = [0, 0, 1, 0];

/// The letters of the first edges of a drawing.
const LETTERS: [&str; 12] = ["a", "b", "c", "d", "e", "f", "g", "h", "i", "j", "k", "l"];

/// Segment `1.serial` between two points, given as four coordinates.
fn segment(rt: &impl Abort, serial: u16, ends: [i64; 4]) -> Ur
    ensures { result.name ≡ record { editor = 1; serial = serial } }
{
    let [a, b, c, d] = ends;
    let name = Name::new(1, serial).expect(rt, "a serial above 0");
    let p = Point { x: a, y: b };
    let q = Point { x: c, y: d };
    Ur::new(&Profile::edition_one(), name, p, q).expect(rt, "two ends within the bound")
}

/// Segments `1.1` to `1.4`.
fn four(rt: &impl Abort, ends: [[i64; 4]; 4]) -> [Ur; 4]
    ensures { names result
        ≡ record { editor = 1; serial = 1 }
        ∷ record { editor = 1; serial = 2 }
        ∷ record { editor = 1; serial = 3 }
        ∷ record { editor = 1; serial = 4 }
        ∷ [] }
{
    let [first, second, third, fourth] = ends;
    let first = segment(rt, 1, first);
    let second = segment(rt, 2, second);
    let third = segment(rt, 3, third);
    let fourth = segment(rt, 4, fourth);
    [first, second, third, fourth]
}

/// The edges of a rounding, without their bundles.
fn edges(alloc: Global, picture: &Rounding) -> Result<Vec<Edge>, AllocError>
    ensures { IfOk result (λ v. v.items ≡ map (λ e. e.edge) picture.now.edges) }
{
    picture.edges().iter().map(|e| e.edge).collect(alloc)
}

/// The vertices of a rounding, without their counts.
fn vertices(alloc: Global, picture: &Rounding) -> Result<Vec<Point>, AllocError>
    ensures { IfOk result (λ v. v.items ≡ map (λ w. w.at) picture.now.vertices) }
{
    picture.vertices().iter().map(|w| w.at).collect(alloc)
}

/// The graph of the rounding of these segments.
fn graph(alloc: Global, segments: &[Ur]) -> Result<PlanarEdges, Memory>
    requires rising { IsStrictlySortedBy label_cmp (names segments.now) }
    requires few { length segments.now ≤ 65536 }
    ensures { IfOk result (λ p. p ≡ graph_of segments.now) }
{
    let picture = round(alloc, segments)?;
    let edges = edges(alloc, &picture)?;
    let vertices = vertices(alloc, &picture)?;
    Ok(PlanarEdges::of(segments, edges, vertices))
}

/// The graph of the rounding of the first `count` of the four segments.
fn rounded(
    rt: &impl Abort,
    alloc: Global,
    count: usize,
    ends: [[i64; 4]; 4],
) -> Result<PlanarEdges, Memory>
    requires { count ≤ 4 }
{
    let segments = four(rt, ends);
    graph(alloc, &segments[..count])
}

/// Whether neither coordinate is greater than 2^40 in size.
fn is_within_reach(at: Point) -> bool
    ensures { IsTrue result ↔ IsWithin (2 ^ 40) at }
{
    at.x.unsigned_abs() <= 1 << 40 && at.y.unsigned_abs() <= 1 << 40
}

/// The edge between two points, given as four coordinates.
fn edge(rt: &impl Abort, ends: [i64; 4]) -> Edge {
    let [a, b, c, d] = ends;
    Edge::of(Point { x: a, y: b }, Point { x: c, y: d }).expect(rt, "two points")
}

/// Where a query point lies.
fn found(rt: &impl Abort, cells: &CellMap, at: Point) -> Found {
    assert!(rt; is_within_reach(at), "a query point within reach");
    cells.find(at)
}

/// The drawing that was worked by hand.
const WORKED: [[i64; 4]; 4] = [[0, 0, 10, 0], [0, 0, 10, 10], [4, -6, 4, -2], UNUSED];

#[test]
fn cell_inside(rt: HostRuntime) -> Result<(), Fail> {
    let planar = rounded(&rt, rt.alloc(), 3, WORKED)?;
    let cells = CellMap::build(rt.alloc(), &planar)?;
    let want = Cell {
        above: Some(edge(&rt, [0, 0, 10, 10])),
        below: Some(edge(&rt, [0, 0, 10, 0])),
        left: 0,
        right: 10,
    };
    assert!(rt; found(&rt, &cells, Point { x: 512, y: 256 }) == Found::Inside(want));
    Ok(())
}

#[test]
fn cell_below(rt: HostRuntime) -> Result<(), Fail> {
    let planar = rounded(&rt, rt.alloc(), 3, WORKED)?;
    let cells = CellMap::build(rt.alloc(), &planar)?;
    let want = Cell {
        above: Some(edge(&rt, [0, 0, 10, 0])),
        below: None,
        left: 4,
        right: 10,
    };
    assert!(rt; found(&rt, &cells, Point { x: 1024, y: -2048 }) == Found::Inside(want));
    Ok(())
}

#[test]
fn cell_of_nothing(rt: HostRuntime) -> Result<(), Fail> {
    let planar = rounded(&rt, rt.alloc(), 0, WORKED)?;
    let cells = CellMap::build(rt.alloc(), &planar)?;
    let want = Cell {
        above: None,
        below: None,
        left: 0,
        right: 256,
    };
    assert!(rt; found(&rt, &cells, Point { x: 256, y: 0 }) == Found::Inside(want));
    Ok(())
}

/// The letter of an edge: `a` for the first edge of the drawing, `b` for the second, and so on.
fn letter(planar: &PlanarEdges, edge: Edge) -> &'static str {
    for (other, letter) in planar.edges().iter().zip(LETTERS.iter()) {
        if *other == edge {
            return letter;
        }
    }
    "?"
}

/// The letter of an edge, or `-` where there is none.
fn letter_or_none(planar: &PlanarEdges, edge: Option<Edge>) -> &'static str {
    match edge {
        Some(edge) => letter(planar, edge),
        None => "-",
    }
}

/// Appends a line for what was found: `**` for a vertex, `=` and a letter for an edge, and for a cell
/// the letters of its edges and its two columns.
fn push_found(
    alloc: Global,
    text: &mut String,
    planar: &PlanarEdges,
    found: Found,
) -> Result<(), AllocError> {
    match found {
        Found::Vertex(_) => text.push_str("**\n"),
        Found::OnEdge(edge) => {
            text.push_str("=")?;
            text.push_str(letter(planar, edge))?;
            text.push_str("\n")
        }
        Found::Inside(cell) => {
            text.push_str(letter_or_none(planar, cell.above))?;
            text.push_str(letter_or_none(planar, cell.below))?;
            text.push_str(&format!(in alloc; " {} {}\n", cell.left, cell.right)?)
        }
    }
}

#[test]
fn cells_of_drawings(rt: HostRuntime) -> Result<(), Fail> {
    for (name, count, ends, points, want) in [
        (
            "four through one point",
            4,
            [[-3, 0, 3, 0], [0, -3, 0, 3], [-3, -3, 3, 3], [-3, 3, 3, -3]],
            [
                [0, 128],
                [0, 1280],
                [-65537, 512],
                [-48, -856],
                [-768, 512],
                [0, 512],
                [-1, 256],
                [-651, -47],
                [-768, -640],
                [-65536, 256],
                [65535, -768],
                [527, -415],
                [-768, -256],
                [131072, 1024],
                [131071, -768],
                [9999999999, -9999999999],
            ],
            "\
=e
-h 0 3
-- -512 -256
a- -3 0
cb -3 0
=e
-c -3 0
ba -3 0
ba -3 0
-- -256 -3
-- 3 256
gf 0 3
ba -3 0
-- 512 768
-- 256 512
-- 39062272 39062528
",
        ),
        (
            "nearly parallel",
            4,
            [[0, 0, 8, 3], [0, 2, 8, 1], [0, 1, 8, 2], [3, 3, 7, 0]],
            [
                [768, 512],
                [-65536, 0],
                [65535, 768],
                [514, 804],
                [2048, 896],
                [-65536, 0],
                [-1, 1024],
                [923, -256],
                [1280, 256],
                [-65536, 0],
                [65535, -256],
                [1059, 317],
                [2048, 640],
                [-131072, 768],
                [-65537, 512],
                [-9999999999, 9999999999],
            ],
            "\
=c
-- -256 0
-- 8 256
-c 0 3
-- 8 256
-- -256 0
-- -256 0
a- 0 4
**
-- -256 0
-- 8 256
e- 4 5
-- 8 256
-- -512 -256
-- -512 -256
-- -39062528 -39062272
",
        ),
        (
            "over two walls",
            4,
            [
                [-300, 0, 300, 40],
                [-256, 60, -255, 20],
                [255, -9, 256, 90],
                [0, -5, 511, -4],
            ],
            [
                [65280, -1536],
                [65536, 12544],
                [-1, -1024],
                [-9944, -1855],
                [65280, -1280],
                [-131072, 15104],
                [131071, 8960],
                [21561, 16352],
                [-76800, 0],
                [-131072, 20224],
                [-1, 17408],
                [-25584, 1296],
                [0, -1280],
                [0, 13824],
                [65535, 14336],
                [-9999999999, 9999999999],
            ],
            "\
=d
-h 256 300
a- -256 0
a- -256 0
**
-- -512 -300
-- 511 512
-a 0 255
**
-- -512 -300
-a -255 0
a- -256 0
**
-a 0 255
gh 255 256
-- -39062528 -39062272
",
        ),
        (
            "an edge that ends at a wall",
            3,
            [[0, 0, 256, 0], [256, 0, 300, 9], [10, 20, 250, 20], UNUSED],
            [
                [0, 128],
                [0, 1792],
                [-65537, 2816],
                [11651, 1407],
                [64000, 5248],
                [131072, 2304],
                [-1, 2048],
                [35833, 4165],
                [0, 0],
                [0, 1792],
                [-1, 0],
                [19212, 5345],
                [64000, 5120],
                [-65536, 5376],
                [-65537, 0],
                [9999999999, -9999999999],
            ],
            "\
-a 0 10
-a 0 10
-- -512 -256
ba 10 250
-a 250 256
-- 512 768
-- -256 0
ba 10 250
**
-a 0 10
-- -256 0
-b 10 250
**
-- -256 0
-- -512 -256
-- 39062272 39062528
",
        ),
    ] {
        let planar = rounded(&rt, rt.alloc(), count, ends)?;
        let cells = CellMap::build(rt.alloc(), &planar)?;
        let mut text = String::new(rt.alloc());
        for [x, y] in points {
            let found = found(&rt, &cells, Point { x, y });
            push_found(rt.alloc(), &mut text, &planar, found)?;
        }
        assert_eq!(rt; text.as_str(), want, "{name}");
    }
    Ok(())
}
