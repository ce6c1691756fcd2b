//! Drawn segments, each with a pixel near it: mixed near misses.

ghost use Rattle.std.specs.Prelude.{◌≤ℤ◌, ◌<ℤ◌, pos, negsuc};

use grid_core::{Name, Point, Profile, Ur};
use std::alloc::{AllocError, Global};

/// How many segments are drawn.
const CASES: u32 = 1024;

/// A segment and a pixel near it.
#[derive(Drop)]
pub(crate) struct Case {
    /// Both ends are within 100.
    pub(crate) segment: Ur,
    pub(crate) x: i16,
    pub(crate) y: i16,
}

/// Segments and pixels from a generator that starts with 1.
pub(crate) fn draw_cases(alloc: Global) -> Result<Vec<Case>, AllocError> {
    let mut cases = Vec::new(alloc);
    let mut state = 1;
    for _ in 0..CASES {
        if let Some(case) = draw_case(&mut state) {
            cases.push(case)?;
        }
    }
    Ok(cases)
}

/// A segment between two points of a lattice of width 4, its second end moved by up to 3, and a
/// pixel at a quarter of the way, half of it or three quarters.
fn draw_case(state: &mut u32) -> Option<Case> {
    let (ax, ay) = (lattice(state), lattice(state));
    let (bx, by) = (lattice(state), lattice(state));
    let (x, y) = match draw(state) % 3 {
        0 => (3 * ax + bx, 3 * ay + by),
        1 => (2 * ax + 2 * bx, 2 * ay + 2 * by),
        _ => (ax + 3 * bx, ay + 3 * by),
    };
    let a = Point {
        x: i64::from(4 * ax),
        y: i64::from(4 * ay),
    };
    let b = Point {
        x: i64::from(4 * bx) + i64::from(draw(state) % 4),
        y: i64::from(4 * by) + i64::from(draw(state) % 4),
    };
    let name = Name::new(1, 1)?;
    let segment = Ur::new(&Profile::edition_one(), name, a, b).ok()?;
    Some(Case { segment, x, y })
}

/// A number from -16 to 15.
fn lattice(state: &mut u32) -> i16
    ensures low { negsuc 15 ≤ℤ result }
    ensures high { result <ℤ pos 16 }
{
    (draw(state) % 32) as i16 - 16
}

/// The next number of the generator: the last one times 48,271, modulo 2^31 - 1.
fn draw(state: &mut u32) -> u32 {
    *state = (u64::from(*state) * 48271 % 2_147_483_647) as u32;
    *state
}
