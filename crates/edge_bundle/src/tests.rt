ghost use Rattle.std.specs.Prelude.{◌≡◌, ◌≤◌, ◌^◌, ◌↔◌, [], ◌∷◌, length, IfOk, IsTrue};
ghost use Rattle.std.specs.List.Sorted.{IsStrictlySortedBy};
ghost use Rattle.grid_core.specs.Vector.{IsWithin};
ghost use Rattle.grid_core.specs.Name.{label_cmp};
ghost use Rattle.grid_core.specs.LiveList.{names};
ghost use Rattle.edge_bundle.specs.Drawn.{IsDrawnWithin};

use crate::{locate, picture_is_drawn_within, rounding_is_drawn_within};
use grid_core::{Edge, Memory, Name, Place, Point, Profile, Ur};
use round_plain::{Rounding, round};
use std::alloc::{AllocError, Global};
use std::process::Abort;
use std::test::Fail;

/// For a case with fewer than four segments.
const UNUSED: [i64; 4] = [0, 0, 1, 0];

/// The letters of the first edges of a drawing.
const LETTERS: [&str; 12] = ["a", "b", "c", "d", "e", "f", "g", "h", "i", "j", "k", "l"];

/// Segment `1.serial` between two points, given as four coordinates.
fn segment(rt: &impl Abort, serial: u16, ends: [i64; 4]) -> Ur
    ensures { result.name ≡ record { editor = 1; serial = serial } }
{
    let [a, b, c, d] = ends;
    let name = Name::new(1, serial).expect(rt, "a serial above 0");
    let p = Point { x: a, y: b };
    let q = Point { x: c, y: d };
    Ur::new(&Profile::edition_one(), name, p, q).expect(rt, "two ends within the bound")
}

/// Segments `1.1` to `1.4`.
fn four(rt: &impl Abort, ends: [[i64; 4]; 4]) -> [Ur; 4]
    ensures { names result
        ≡ record { editor = 1; serial = 1 }
        ∷ record { editor = 1; serial = 2 }
        ∷ record { editor = 1; serial = 3 }
        ∷ record { editor = 1; serial = 4 }
        ∷ [] }
{
    let [first, second, third, fourth] = ends;
    let first = segment(rt, 1, first);
    let second = segment(rt, 2, second);
    let third = segment(rt, 3, third);
    let fourth = segment(rt, 4, fourth);
    [first, second, third, fourth]
}

/// The rounding of these segments. Either law alone would tell how far out it lies.
fn drawn(alloc: Global, segments: &[Ur]) -> Result<Rounding, Memory>
    requires rising { IsStrictlySortedBy label_cmp (names segments.now) }
    requires few { length segments.now ≤ 65536 }
    ensures { IfOk result (λ r. IsDrawnWithin (2 ^ 30) r) }
{
    rounding_is_drawn_within(segments);
    let picture = round(alloc, segments)?;
    picture_is_drawn_within(&picture);
    Ok(picture)
}

/// The rounding of the first `count` of the four segments.
fn rounded(
    rt: &impl Abort,
    alloc: Global,
    count: usize,
    ends: [[i64; 4]; 4],
) -> Result<Rounding, Memory>
    requires { count ≤ 4 }
    ensures { IfOk result (λ r. IsDrawnWithin (2 ^ 30) r) }
{
    let segments = four(rt, ends);
    drawn(alloc, &segments[..count])
}

/// Whether neither coordinate is greater than 2^40 in size.
fn is_within_reach(at: Point) -> bool
    ensures { IsTrue result ↔ IsWithin (2 ^ 40) at }
{
    at.x.unsigned_abs() <= 1 << 40 && at.y.unsigned_abs() <= 1 << 40
}

/// The place of a query point.
fn located(rt: &impl Abort, picture: &Rounding, at: Point) -> Place
    requires { IsDrawnWithin (2 ^ 30) picture.now }
{
    assert!(rt; is_within_reach(at), "a query point within reach");
    locate(picture, at)
}

/// The edge between two points, given as four coordinates.
fn edge(rt: &impl Abort, ends: [i64; 4]) -> Edge {
    let [a, b, c, d] = ends;
    Edge::of(Point { x: a, y: b }, Point { x: c, y: d }).expect(rt, "two points")
}

#[test]
fn places(rt: HostRuntime) -> Result<(), Fail> {
    let picture = rounded(
        &rt,
        rt.alloc(),
        3,
        [[0, 0, 10, 0], [0, 0, 10, 10], [4, -6, 4, -2], UNUSED],
    )?;
    let level = edge(&rt, [0, 0, 10, 0]);
    let rising = edge(&rt, [0, 0, 10, 10]);
    let vertical = edge(&rt, [4, -6, 4, -2]);
    let between = |above, below| Place::Between { above, below };
    for (x, y, want) in [
        (0, 0, Place::Vertex(Point { x: 0, y: 0 })),
        (1280, 0, Place::OnEdge(level)),
        (512, 256, between(Some(rising), Some(level))),
        (1024, -1024, Place::OnEdge(vertical)),
        (1024, -2048, between(Some(level), None)),
        (0, -256, between(Some(level), None)),
        (0, 256, between(None, Some(rising))),
        (2560, 1280, between(None, None)),
        (-9_999_999_999, 9_999_999_999, between(None, None)),
    ] {
        let place = located(&rt, &picture, Point { x, y });
        assert!(rt; place == want, "{x} {y}: {place:?}");
    }
    Ok(())
}

/// The letter of an edge: `a` for the first edge of the drawing, `b` for the second, and so on.
fn letter(picture: &Rounding, edge: Edge) -> &'static str {
    for (bundled, letter) in picture.edges().iter().zip(LETTERS.iter()) {
        if bundled.edge == edge {
            return letter;
        }
    }
    "?"
}

/// The letter of an edge, or `-` where there is none.
fn letter_or_none(picture: &Rounding, edge: Option<Edge>) -> &'static str {
    match edge {
        Some(edge) => letter(picture, edge),
        None => "-",
    }
}

/// Appends two signs for a place: `**` for a vertex, `=` and a letter for an edge, and two letters
/// for the edges above and below.
fn push_place(text: &mut String, picture: &Rounding, place: Place) -> Result<(), AllocError> {
    match place {
        Place::Vertex(_) => text.push_str("**"),
        Place::OnEdge(edge) => {
            text.push_str("=")?;
            text.push_str(letter(picture, edge))
        }
        Place::Between { above, below } => {
            text.push_str(letter_or_none(picture, above))?;
            text.push_str(letter_or_none(picture, below))
        }
    }
}

/// The places of all query points in steps of half a pixel, in rows from the uppermost on. `area` has
/// the column and the row of the lower left one in half pixels, and how many columns and rows there
/// are.
fn map(
    rt: &impl Abort,
    alloc: Global,
    picture: &Rounding,
    area: [i64; 4],
) -> Result<String, AllocError>
    requires { IsDrawnWithin (2 ^ 30) picture.now }
{
    let [left, bottom, columns, rows] = area;
    let mut text = String::new(alloc);
    for row in 0..rows {
        let y = bottom
            .wrapping_add(rows)
            .wrapping_sub(row)
            .wrapping_sub(1)
            .wrapping_mul(128);
        for column in 0..columns {
            let x = left.wrapping_add(column).wrapping_mul(128);
            push_place(&mut text, picture, located(rt, picture, Point { x, y }))?;
            text.push_str(if column.wrapping_add(1) < columns {
                " "
            } else {
                "\n"
            })?;
        }
    }
    Ok(text)
}

#[test]
fn places_of_drawings(rt: HostRuntime) -> Result<(), Fail> {
    for (name, count, ends, area, want) in [
        (
            "a fan to the right",
            4,
            [[0, 0, 4, 0], [0, 0, 4, 2], [0, 0, 4, 4], [0, 0, 4, -2]],
            [-1, -5, 11, 15],
            "\
-- -d -d -d -d -d -d -d -d -- --
-- -d -d -d -d -d -d -d -d ** --
-- -d -d -d -d -d -d -d =d -- --
-- -d -d -d -d -d -d =d dc -- --
-- -d -d -d -d -d =d dc dc -- --
-- -d -d -d -d =d dc dc dc ** --
-- -d -d -d =d dc dc =c cb -- --
-- -d -d =d dc =c cb cb cb -- --
-- -d =d =c cb cb cb cb cb -- --
-- ** =b =b =b =b =b =b =b ** --
-- a- a- =a ba ba ba ba ba -- --
-- a- a- a- a- =a ba ba ba -- --
-- a- a- a- a- a- a- =a ba -- --
-- a- a- a- a- a- a- a- a- ** --
-- a- a- a- a- a- a- a- a- -- --
",
        ),
        (
            "a fan to the left",
            4,
            [[0, 0, -4, 0], [0, 0, -4, 2], [0, 0, -4, 4], [0, 0, -4, -2]],
            [-9, -5, 11, 15],
            "\
-- -d -d -d -d -d -d -d -d -- --
-- ** -d -d -d -d -d -d -d -- --
-- dc =d -d -d -d -d -d -d -- --
-- dc dc =d -d -d -d -d -d -- --
-- dc dc dc =d -d -d -d -d -- --
-- ** dc dc dc =d -d -d -d -- --
-- cb cb =c dc dc =d -d -d -- --
-- cb cb cb cb =c dc =d -d -- --
-- cb cb cb cb cb cb =c =d -- --
-- ** =b =b =b =b =b =b =b ** --
-- ba ba ba ba ba ba =a a- -- --
-- ba ba ba ba =a a- a- a- -- --
-- ba ba =a a- a- a- a- a- -- --
-- ** a- a- a- a- a- a- a- -- --
-- a- a- a- a- a- a- a- a- -- --
",
        ),
        (
            "four through one point",
            4,
            [[-3, 0, 3, 0], [0, -3, 0, 3], [-3, -3, 3, 3], [-3, 3, 3, -3]],
            [-7, -7, 15, 15],
            "\
-- -c -c -c -c -c -c -h -h -h -h -h -h -- --
-- ** -c -c -c -c -c ** -h -h -h -h -h ** --
-- cb =c -c -c -c -c =e -h -h -h -h =h -- --
-- cb cb =c -c -c -c =e -h -h -h =h hg -- --
-- cb cb cb =c -c -c =e -h -h =h hg hg -- --
-- cb cb cb cb =c -c =e -h =h hg hg hg -- --
-- cb cb cb cb cb =c =e =h hg hg hg hg -- --
-- ** =b =b =b =b =b ** =g =g =g =g =g ** --
-- ba ba ba ba ba =a =d =f gf gf gf gf -- --
-- ba ba ba ba =a a- =d f- =f gf gf gf -- --
-- ba ba ba =a a- a- =d f- f- =f gf gf -- --
-- ba ba =a a- a- a- =d f- f- f- =f gf -- --
-- ba =a a- a- a- a- =d f- f- f- f- =f -- --
-- ** a- a- a- a- a- ** f- f- f- f- f- ** --
-- a- a- a- a- a- a- f- f- f- f- f- f- -- --
",
        ),
        (
            "nearly parallel",
            4,
            [[0, 0, 8, 3], [0, 2, 8, 1], [0, 1, 8, 2], [3, 3, 7, 0]],
            [-1, -1, 19, 9],
            "\
-- -c -c -c -c -c -c -d -d -f -f -k -k -k -k -k -k -- --
-- -c -c -c -c -c -c ** -d -f -f -k -k -k -k -k -k ** --
-- -c -c -c -c -c -c dc =d -f -f -k -k -k =k kj kj -- --
-- ** =c =c =c =c =c =c =c ** =f ** =j =j =j =j =j ** --
-- cb cb cb cb =b ba =a a- e- =e =g ji ji ji ji ji -- --
-- ** ba ba ba =a a- a- a- e- e- ** =i =i =i =i =i ** --
-- ba ba =a a- a- a- a- a- e- e- h- h- =h ih i- i- -- --
-- ** a- a- a- a- a- a- a- e- e- h- h- h- h- ** i- -- --
-- a- a- a- a- a- a- a- a- e- e- h- h- h- h- i- i- -- --
",
        ),
        (
            "a vertical edge between two",
            3,
            [[0, 0, 6, 0], [0, 5, 6, 5], [3, 1, 3, 4], UNUSED],
            [-1, -1, 15, 13],
            "\
-- -b -b -b -b -b -b -b -b -b -b -b -b -- --
-- ** =b =b =b =b =b =b =b =b =b =b =b ** --
-- ba ba ba ba ba ba ba ba ba ba ba ba -- --
-- ba ba ba ba ba ba ** ba ba ba ba ba -- --
-- ba ba ba ba ba ba =c ba ba ba ba ba -- --
-- ba ba ba ba ba ba =c ba ba ba ba ba -- --
-- ba ba ba ba ba ba =c ba ba ba ba ba -- --
-- ba ba ba ba ba ba =c ba ba ba ba ba -- --
-- ba ba ba ba ba ba =c ba ba ba ba ba -- --
-- ba ba ba ba ba ba ** ba ba ba ba ba -- --
-- ba ba ba ba ba ba ba ba ba ba ba ba -- --
-- ** =a =a =a =a =a =a =a =a =a =a =a ** --
-- a- a- a- a- a- a- a- a- a- a- a- a- -- --
",
        ),
    ] {
        let picture = rounded(&rt, rt.alloc(), count, ends)?;
        let text = map(&rt, rt.alloc(), &picture, area)?;
        assert_eq!(rt; text.as_str(), want, "{name}");
    }
    Ok(())
}
