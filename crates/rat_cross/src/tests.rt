use crate::{crossing, pixel};
use grid_core::{Name, Point, Profile, Ur};
use std::process::Abort;

/// The segment between two points, given as four coordinates.
fn segment(rt: &impl Abort, ends: [i64; 4]) -> Ur {
    let [a, b, c, d] = ends;
    let name = Name::new(1, 1).expect(rt, "editor 1, serial 1");
    let p = Point { x: a, y: b };
    let q = Point { x: c, y: d };
    Ur::new(&Profile::edition_one(), name, p, q).expect(rt, "two ends within the bound")
}

#[test]
fn worked_crossings(rt: HostRuntime) {
    for (first, second, want) in [
        ([0, 0, 5, 2], [0, 2, 5, 0], Some((50, 20, 20))),
        ([0, 0, 5, 2], [2, 1, 3, 0], Some((15, 6, 7))),
        ([-5, 0, 0, 1], [-5, 1, 0, 0], Some((-25, 5, 10))),
        ([0, 0, 10, 0], [5, 0, 5, 5], Some((250, 0, 50))),
        ([0, 0, 10, 0], [5, 0, 15, 0], None),
        ([0, 0, 4, 0], [5, -1, 5, 1], None),
    ] {
        let s = segment(&rt, first);
        let t = segment(&rt, second);
        let found = crossing(&s, &t).map(|c| (c.num_x(), c.num_y(), c.den()));
        assert_eq!(rt; found, want, "{first:?} and {second:?}");
    }
}

#[test]
fn worked_pixels(rt: HostRuntime) {
    for (first, second, x, y) in [
        ([0, 0, 5, 2], [0, 2, 5, 0], 3, 1),
        ([0, 0, 5, 2], [2, 1, 3, 0], 2, 1),
        ([-5, 0, 0, 1], [-5, 1, 0, 0], -2, 1),
        ([0, 0, 10, 0], [5, 0, 5, 5], 5, 0),
    ] {
        let s = segment(&rt, first);
        let t = segment(&rt, second);
        let c = crossing(&s, &t).expect(&rt, "the two cross");
        assert_eq!(rt; pixel(&c), Point { x, y }, "{first:?} and {second:?}");
    }
}

/// Near a corner of the range numerators are greater than 2^61, and near its middle they aren't.
#[test]
fn pixels_over_the_whole_range(rt: HostRuntime) {
    for (way, first, second, x, y) in [
        (
            "at a corner",
            [-1_048_576, -1_048_576, 1_048_576, 1_048_576],
            [1_048_576, -1_048_576, 1_048_576, 1_048_576],
            1_048_576,
            1_048_576,
        ),
        (
            "near a corner",
            [-1_048_576, -1_048_576, 1_048_576, 1_048_575],
            [1_048_573, -1_048_576, 1_048_576, 1_048_576],
            1_048_576,
            1_048_575,
        ),
        (
            "near the opposite corner",
            [-1_048_576, -1_048_575, 1_048_576, 1_048_576],
            [-1_048_576, -1_048_576, -1_048_573, 1_048_576],
            -1_048_576,
            -1_048_575,
        ),
        (
            "near the middle",
            [-1_048_576, 1_048_576, 1_048_576, -1_048_575],
            [-1_048_575, -1_048_576, 1_048_576, 1_048_576],
            1,
            0,
        ),
    ] {
        let s = segment(&rt, first);
        let t = segment(&rt, second);
        let c = crossing(&s, &t).expect(&rt, "the two cross");
        assert_eq!(rt; pixel(&c), Point { x, y }, "{way}");
    }
}
