use crate::{push_tiles, tiles};
use grid_core::{Name, Point, Profile, TileId, Ur};
use std::alloc::{AllocError, Global};
use std::fmt::Write;
use std::process::Abort;
use std::test::Fail;

/// The segment between two points, given as four coordinates.
fn segment(rt: &impl Abort, ends: [i64; 4]) -> Ur {
    let [a, b, c, d] = ends;
    let name = Name::new(1, 1).expect(rt, "editor 1, serial 1");
    let p = Point { x: a, y: b };
    let q = Point { x: c, y: d };
    Ur::new(&Profile::edition_one(), name, p, q).expect(rt, "two ends within the bound")
}

/// Tiles as text.
fn text_of(alloc: Global, ts: &[TileId]) -> Result<String, AllocError> {
    let mut text = String::new(alloc);
    for t in ts {
        if !text.is_empty() {
            text.push(' ')?;
        }
        write!(text, "{},{}", t.i, t.j)?;
    }
    Ok(text)
}

#[test]
fn worked_walks(rt: HostRuntime) -> Result<(), Fail> {
    let profile = Profile::edition_one();
    for (way, ends, want) in [
        (
            "row two_far_edits, the first edit",
            [10, -5, 10, 5],
            "0,-1 0,0",
        ),
        (
            "row two_far_edits, the second edit",
            [1500, -5, 1500, 5],
            "5,-1 5,0",
        ),
        ("row tile_border, along a row", [250, 0, 260, 0], "0,0 1,0"),
        (
            "row tile_border, past a corner",
            [255, -1, 256, 1],
            "0,-1 0,0 1,0",
        ),
        ("in one tile", [1, 1, 5, 2], "0,0"),
        ("level", [-300, 10, 600, 10], "-2,0 -1,0 0,0 1,0 2,0"),
        (
            "flat, rising",
            [-300, 250, 600, 260],
            "-2,0 -1,0 0,0 0,1 1,1 2,1",
        ),
        (
            "flat, falling",
            [-300, 260, 600, 250],
            "-2,1 -1,1 0,1 0,0 1,0 2,0",
        ),
        (
            "steep, rising",
            [250, -300, 260, 600],
            "0,-2 0,-1 0,0 1,0 1,1 1,2",
        ),
        (
            "steep, falling",
            [250, 600, 260, -300],
            "0,2 0,1 0,0 1,0 1,-1 1,-2",
        ),
        ("upright", [256, 600, 256, -300], "1,-2 1,-1 1,0 1,1 1,2"),
        (
            "up through corners",
            [-1, -1, 512, 512],
            "-1,-1 0,0 1,1 2,2",
        ),
        (
            "down through corners",
            [-1, 512, 512, -1],
            "-1,2 0,2 0,1 1,1 1,0 2,0 2,-1",
        ),
        (
            "steeply up through a corner",
            [255, 254, 256, 257],
            "0,0 1,1",
        ),
        (
            "steeply down through a corner",
            [255, 257, 256, 254],
            "0,1 1,1 1,0",
        ),
        (
            "flatly up through a corner",
            [254, 255, 257, 256],
            "0,0 1,1",
        ),
        (
            "flatly down through a corner",
            [254, 256, 257, 255],
            "0,1 1,1 1,0",
        ),
        (
            "from a corner's pixel down",
            [256, 256, 300, 200],
            "1,1 1,0",
        ),
        ("along the last row", [0, 255, 600, 255], "0,0 1,0 2,0"),
        ("along the first row", [0, 256, 600, 256], "0,1 1,1 2,1"),
        ("up the last column", [255, 0, 255, 600], "0,0 0,1 0,2"),
        ("up the first column", [256, 0, 256, 600], "1,0 1,1 1,2"),
        (
            "from one tile to the next above",
            [0, 255, 5, 256],
            "0,0 0,1",
        ),
        (
            "left of and below (0, 0)",
            [-700, -3, -2, -500],
            "-3,-1 -2,-1 -2,-2 -1,-2",
        ),
    ] {
        let met = tiles(rt.alloc(), &segment(&rt, ends), &profile)?;
        let found = text_of(rt.alloc(), met.as_slice())?;
        assert_eq!(rt; found.as_str(), want, "{way}");
    }
    Ok(())
}

/// The length of a walk over the whole range, and its first and its last tiles.
#[test]
fn hostile_drawings_b_and_c(rt: HostRuntime) -> Result<(), Fail> {
    let profile = Profile::edition_one();
    let mut met = Vec::new(rt.alloc());
    for (way, ends, count, first, last) in [
        (
            "rising",
            [-1_048_576, -1_048_576, 1_048_576, 1_048_576],
            8193,
            "-4096,-4096 -4095,-4095",
            "4095,4095 4096,4096",
        ),
        (
            "falling",
            [-1_048_576, 1_048_576, 1_048_576, -1_048_576],
            16385,
            "-4096,4096 -4096,4095",
            "4095,-4096 4096,-4096",
        ),
    ] {
        met.clear();
        push_tiles(&mut met, &segment(&rt, ends), &profile)?;
        assert_eq!(rt; met.len(), count, "{way}");
        assert!(rt; met.len() > 2);
        let begins = text_of(rt.alloc(), &met[..2])?;
        assert_eq!(rt; begins.as_str(), first, "{way}");
        let ends = text_of(rt.alloc(), &met[met.len() - 2..])?;
        assert_eq!(rt; ends.as_str(), last, "{way}");
    }
    Ok(())
}
