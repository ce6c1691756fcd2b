//! Numbers that look random, and segments made of them.

ghost use Rattle.std.specs.Prelude.{◌<◌};

use crate::work::Work;
use grid_core::Point;

/// Draws: each is the one before times 48,271, modulo 2^31 - 1.
#[derive(Drop)]
pub(crate) struct Draws {
    last: u64,
    ghost small: { last < 2147483647 },
}

impl Draws {
    pub(crate) fn open() -> Draws {
        Draws { last: 1 }
    }

    fn next(&mut self) -> i64 {
        self.last = self.last * 48_271 % 2_147_483_647;
        self.last as i64
    }

    /// A number from 0 to 255.
    fn byte(&mut self) -> i64 {
        self.next() % 256
    }

    /// The ends of the segment of a number. Every other segment is more level than upright.
    pub(crate) fn ends(&mut self, work: Work, number: u16) -> (Point, Point) {
        let upright = number / 2 % 2 == 1;
        let a = self.byte();
        let b = self.byte();
        match work {
            Work::Few => {
                let c = self.byte();
                let d = self.byte();
                (at(upright, a / 4, b), at(upright, 255 - c / 4, d))
            }
            Work::Chords => (at(upright, -20, a), at(upright, 300, b)),
            Work::One => (Point { x: -1000, y: a }, Point { x: 1000, y: b }),
        }
    }
}

/// The point so far along the way of a segment, which is level or upright, and so far across it.
fn at(upright: bool, along: i64, across: i64) -> Point {
    if upright {
        Point {
            x: across,
            y: along,
        }
    } else {
        Point {
            x: along,
            y: across,
        }
    }
}
