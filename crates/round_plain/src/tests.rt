ghost use Rattle.std.specs.Prelude.{◌≡◌, ◌≤◌, [], ◌∷◌};
ghost use Rattle.grid_core.specs.LiveList.{names};

use crate::{Bundled, Names, Points, Rounding, round};
use grid_core::{Edge, Name, Point, Profile, Ur, Vertex};
use std::alloc::{AllocError, Global};
use std::process::Abort;
use std::test::Fail;

/// For a case with fewer than four segments.
const UNUSED: [i64; 4] = [0, 0, 1, 0];

/// Segment `1.serial` between two points, given as four coordinates.
fn segment(rt: &impl Abort, serial: u16, ends: [i64; 4]) -> Ur
    ensures { result.name ≡ record { editor = 1; serial = serial } }
{
    let [a, b, c, d] = ends;
    let name = Name::new(1, serial).expect(rt, "a serial above 0");
    let p = Point { x: a, y: b };
    let q = Point { x: c, y: d };
    Ur::new(&Profile::edition_one(), name, p, q).expect(rt, "two ends within the bound")
}

/// Segments `1.1` to `1.4`.
fn four(rt: &impl Abort, ends: [[i64; 4]; 4]) -> [Ur; 4]
    ensures { names result
        ≡ record { editor = 1; serial = 1 }
        ∷ record { editor = 1; serial = 2 }
        ∷ record { editor = 1; serial = 3 }
        ∷ record { editor = 1; serial = 4 }
        ∷ [] }
{
    let [first, second, third, fourth] = ends;
    let first = segment(rt, 1, first);
    let second = segment(rt, 2, second);
    let third = segment(rt, 3, third);
    let fourth = segment(rt, 4, fourth);
    [first, second, third, fourth]
}

/// A line for each route, vertex and edge: points as `x y`, counts as `ends/crossings`, names as
/// `editor.serial`.
fn lines(alloc: Global, picture: &Rounding) -> Result<String, AllocError> {
    let mut text = String::new(alloc);
    for routed in picture.routes() {
        let name = routed.ur.name();
        text.push_str(&format!(in alloc; "{}.{}", name.editor(), name.serial())?)?;
        for h in routed.points.as_slice() {
            text.push_str(&format!(in alloc; " {} {}", h.x, h.y)?)?;
        }
        text.push_str("\n")?;
    }
    for v in picture.vertices() {
        text.push_str(&format!(in alloc; "{} {} {}/{}\n", v.at.x, v.at.y, v.ends, v.crossings)?)?;
    }
    for bundled in picture.edges() {
        let a = bundled.edge.a();
        let b = bundled.edge.b();
        text.push_str(&format!(in alloc; "{} {} {} {}", a.x, a.y, b.x, b.y)?)?;
        for name in bundled.names.names() {
            text.push_str(&format!(in alloc; " {}.{}", name.editor(), name.serial())?)?;
        }
        text.push_str("\n")?;
    }
    Ok(text)
}

/// The rounding of the first `count` of the four segments, as lines.
fn rounded(
    rt: &impl Abort,
    alloc: Global,
    count: usize,
    ends: [[i64; 4]; 4],
) -> Result<String, Fail>
    requires { count ≤ 4 }
{
    let segments = four(rt, ends);
    let picture = round(alloc, &segments[..count])?;
    Ok(lines(alloc, &picture)?)
}

#[test]
fn worked_drawings(rt: HostRuntime) -> Result<(), Fail> {
    for (row, count, ends, want) in [
        ("nothing", 0, [UNUSED, UNUSED, UNUSED, UNUSED], ""),
        (
            "half_exactly",
            2,
            [[0, 0, 5, 2], [0, 2, 5, 0], UNUSED, UNUSED],
            "\
1.1 0 0 3 1 5 2
1.2 0 2 3 1 5 0
0 0 1/0
0 2 1/0
3 1 0/1
5 0 1/0
5 2 1/0
0 0 3 1 1.1
0 2 3 1 1.2
3 1 5 0 1.2
3 1 5 2 1.1
",
        ),
        (
            "closed_corner",
            3,
            [[0, 0, 5, 2], [0, 2, 5, 0], [2, 1, 3, 0], UNUSED],
            "\
1.1 0 0 2 1 3 1 5 2
1.2 0 2 2 1 3 1 5 0
1.3 2 1 3 1 3 0
0 0 1/0
0 2 1/0
2 1 1/1
3 0 1/0
3 1 0/1
5 0 1/0
5 2 1/0
0 0 2 1 1.1
0 2 2 1 1.2
2 1 3 1 1.1 1.2 1.3
3 0 3 1 1.3
3 1 5 0 1.2
3 1 5 2 1.1
",
        ),
        (
            "open_corner",
            3,
            [[0, 0, 5, 2], [0, 2, 5, 0], [3, 0, 4, 1], UNUSED],
            "\
1.1 0 0 3 1 4 1 5 2
1.2 0 2 3 1 4 1 5 0
1.3 3 0 4 1
0 0 1/0
0 2 1/0
3 0 1/0
3 1 0/1
4 1 1/1
5 0 1/0
5 2 1/0
0 0 3 1 1.1
0 2 3 1 1.2
3 0 4 1 1.3
3 1 4 1 1.1 1.2
4 1 5 0 1.2
4 1 5 2 1.1
",
        ),
        (
            "same_ends_twice",
            2,
            [[0, 0, 4, 0], [4, 0, 0, 0], UNUSED, UNUSED],
            "\
1.1 0 0 4 0
1.2 0 0 4 0
0 0 2/0
4 0 2/0
0 0 4 0 1.1 1.2
",
        ),
        (
            "overlap_and_touch",
            3,
            [[0, 0, 10, 0], [5, 0, 15, 0], [5, 0, 5, 5], UNUSED],
            "\
1.1 0 0 5 0 10 0
1.2 5 0 10 0 15 0
1.3 5 0 5 5
0 0 1/0
5 0 2/2
5 5 1/0
10 0 1/0
15 0 1/0
0 0 5 0 1.1
5 0 5 5 1.3
5 0 10 0 1.1 1.2
10 0 15 0 1.2
",
        ),
        (
            "star",
            4,
            [[-3, 0, 3, 0], [0, -3, 0, 3], [-3, -3, 3, 3], [-3, 3, 3, -3]],
            "\
1.1 -3 0 0 0 3 0
1.2 0 -3 0 0 0 3
1.3 -3 -3 0 0 3 3
1.4 -3 3 0 0 3 -3
-3 -3 1/0
-3 0 1/0
-3 3 1/0
0 -3 1/0
0 0 0/6
0 3 1/0
3 -3 1/0
3 0 1/0
3 3 1/0
-3 -3 0 0 1.3
-3 0 0 0 1.1
-3 3 0 0 1.4
0 -3 0 0 1.2
0 0 0 3 1.2
0 0 3 -3 1.4
0 0 3 0 1.1
0 0 3 3 1.3
",
        ),
    ] {
        let picture = rounded(&rt, rt.alloc(), count, ends)?;
        assert_eq!(rt; picture.as_str(), want, "{row}");
    }
    Ok(())
}

#[test]
fn more_names_than_the_value_has_places_for(rt: HostRuntime) -> Result<(), Fail> {
    let mut names = Names::open(rt.alloc());
    for serial in 1..=9 {
        names.push(Name::new(64, serial).ok_or("a serial above 0")?)?;
    }
    assert_eq!(rt; names.names().len(), 9);
    for (name, serial) in names.names().iter().zip(1..=9) {
        assert_eq!(rt; (name.editor(), name.serial()), (64, serial));
    }
    Ok(())
}

#[test]
fn parts_put_together(rt: HostRuntime) -> Result<(), Fail> {
    let alloc = rt.alloc();
    let u = Point { x: 0, y: 0 };
    let v = Point { x: 4, y: 0 };
    let points = Points::of([u, v].to_vec(alloc)?);
    assert_eq!(rt; points.as_slice(), [u, v].as_slice());
    assert_eq!(rt; points.into_vec().as_slice(), [u, v].as_slice());
    let vertices = [Vertex {
        at: u,
        ends: 1,
        crossings: 0,
    }]
    .to_vec(alloc)?;
    let mut edges = Vec::new(alloc);
    let edge = Edge::of(v, u).ok_or("two points")?;
    edges.push(Bundled {
        edge,
        names: Names::open(alloc),
    })?;
    let picture = Rounding::of_parts(Vec::new(alloc), vertices, edges);
    assert_eq!(rt; lines(alloc, &picture)?.as_str(), "0 0 1/0\n0 0 4 0\n");
    Ok(())
}
