use crate::{meets, meets_pixel, meets_tile};
use grid_core::{Name, PixelBox, Point, Profile, TileId, Ur};
use std::process::Abort;

/// The segment between two points, given as four coordinates.
fn segment(rt: &impl Abort, ends: [i64; 4]) -> Ur {
    let [a, b, c, d] = ends;
    let name = Name::new(1, 1).expect(rt, "editor 1, serial 1");
    let p = Point { x: a, y: b };
    let q = Point { x: c, y: d };
    Ur::new(&Profile::edition_one(), name, p, q).expect(rt, "two ends within the bound")
}

#[test]
fn worked_pixels(rt: HostRuntime) {
    for (ends, x, y, want) in [
        ([2, 1, 3, 0], 3, 1, true),
        ([3, 0, 4, 1], 3, 1, false),
        ([3, 0, 4, 1], 4, 0, false),
        ([3, 0, 4, 1], 4, 1, true),
        ([0, 0, 5, 2], 4, 1, true),
    ] {
        let s = segment(&rt, ends);
        let met = meets_pixel(&s, Point { x, y });
        assert_eq!(rt; met, want, "{ends:?} at ({x}, {y})");
    }
}

#[test]
fn ways_to_touch_a_pixel(rt: HostRuntime) {
    for (way, ends, want) in [
        ("lower left corner alone", [-1, 0, 0, -1], true),
        ("lower right corner alone", [0, -1, 1, 0], false),
        ("upper left corner alone", [-1, 0, 0, 1], false),
        ("upper right corner alone", [0, 1, 1, 0], false),
        ("lower left to upper right", [-1, -1, 1, 1], true),
        ("upper left to lower right", [-1, 1, 1, -1], true),
        ("level through the centre", [-2, 0, 2, 0], true),
        ("upright through the centre", [0, -2, 0, 2], true),
        ("left to top", [-1, 0, 1, 1], true),
        ("bottom to right", [-1, -1, 1, 0], true),
        ("left to bottom", [-1, 0, 1, -1], true),
        ("top to right", [-1, 1, 1, 0], true),
        ("left to right, rising", [-2, -1, 3, 1], true),
        ("left to right, falling", [-2, 1, 3, -1], true),
        ("bottom to top, steep", [-1, -3, 1, 2], true),
        ("top to bottom, steep", [-1, 3, 1, -2], true),
        ("lower left corner to top", [-1, -2, 0, 1], true),
        ("top to lower right corner", [0, 1, 1, -2], true),
        ("past the upper left corner", [-2, 0, 0, 2], false),
        ("past the lower right corner", [0, -2, 2, 0], false),
        ("past the upper right corner", [0, 2, 2, 0], false),
        ("past the lower left corner", [-2, 0, 0, -2], false),
        ("level, one row below", [-2, -1, 2, -1], false),
        ("level, one row above", [-2, 1, 2, 1], false),
        ("upright, one column left", [-1, -2, -1, 2], false),
        ("upright, one column right", [1, -2, 1, 2], false),
        ("ends left of it", [-3, 0, -1, 0], false),
        ("begins right of it", [1, 0, 3, 0], false),
        ("ends below it", [0, -3, 0, -1], false),
        ("begins above it", [0, 1, 0, 3], false),
        ("from the centre to the right", [0, 0, 3, 0], true),
        ("from the centre upwards", [0, 0, 0, 3], true),
        ("from the centre, rising", [0, 0, 1, 1], true),
        ("from the centre, falling", [0, 0, 1, -1], true),
        ("to the centre from the left", [-3, 0, 0, 0], true),
        ("to the centre from below", [0, -3, 0, 0], true),
        ("to the centre, rising", [-1, -1, 0, 0], true),
        ("to the centre, falling", [-1, 1, 0, 0], true),
    ] {
        let s = segment(&rt, ends);
        assert_eq!(rt; meets_pixel(&s, Point { x: 0, y: 0 }), want, "{way}");
    }
}

#[test]
fn boxes_of_several_pixels(rt: HostRuntime) {
    let area = PixelBox {
        lo: Point { x: 0, y: 0 },
        hi: Point { x: 3, y: 1 },
    };
    for (way, ends, want) in [
        ("inside", [1, 0, 2, 1], true),
        ("over the upper left corner", [-1, 1, 0, 3], false),
        ("through the upper left pixel", [-1, 0, 1, 2], true),
        ("through the lower right pixel", [2, -1, 4, 1], true),
        ("under the lower right corner", [3, -2, 5, 1], false),
        ("along its right side, one column off", [4, -3, 4, 4], false),
        ("the lower left corner alone", [-1, 0, 0, -1], true),
        ("the upper right corner alone", [3, 2, 4, 1], false),
    ] {
        let s = segment(&rt, ends);
        assert_eq!(rt; meets(&s, &area), want, "{way}");
    }
}

#[test]
fn tiles_around_a_corner(rt: HostRuntime) {
    for (way, ends, tiles) in [
        (
            "up through the corner",
            [255, 255, 256, 256],
            [true, false, false, true],
        ),
        (
            "down through the corner",
            [255, 256, 256, 255],
            [false, true, true, true],
        ),
        (
            "level in the last row",
            [0, 255, 300, 255],
            [true, false, true, false],
        ),
        (
            "upright in the first column",
            [256, 0, 256, 300],
            [false, false, true, true],
        ),
        (
            "steep, below the corner",
            [254, 250, 257, 260],
            [true, false, true, true],
        ),
        (
            "steep, above the corner",
            [253, 252, 258, 262],
            [true, true, false, true],
        ),
    ] {
        let s = segment(&rt, ends);
        let [lower_left, upper_left, lower_right, upper_right] = tiles;
        for (i, j, want) in [
            (0, 0, lower_left),
            (0, 1, upper_left),
            (1, 0, lower_right),
            (1, 1, upper_right),
        ] {
            let met = meets_tile(&s, &Profile::edition_one(), TileId { i, j });
            assert_eq!(rt; met, want, "{way}, tile ({i}, {j})");
        }
    }
}
