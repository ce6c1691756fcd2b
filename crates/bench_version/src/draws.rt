//! Numbers that look random, and the ends of segments made of them.

ghost use Rattle.std.specs.Prelude.{◌<◌};

use grid_core::Point;

/// Draws: each is the one before times 48,271, modulo 2^31 - 1.
#[derive(Drop)]
pub(crate) struct Draws {
    last: u64,
    ghost small: { last < 2147483647 },
}

impl Draws {
    ghost use Rattle.std.specs.Prelude.{◌<◌};

    pub(crate) fn open() -> Draws {
        Draws { last: 11 }
    }

    /// A number below `count`.
    pub(crate) fn below(&mut self, count: u32) -> u32
        requires { 0 < count }
        ensures { result < count }
    {
        self.last = self.last * 48_271 % 2_147_483_647;
        (self.last % u64::from(count)) as u32
    }

    /// Two points, the first in a square of 4,096 and the second at most 200 from it in x and in y.
    pub(crate) fn near(&mut self) -> (Point, Point) {
        let x = i64::from(self.below(4096));
        let y = i64::from(self.below(4096));
        let right = i64::from(self.below(401)) - 200;
        let up = i64::from(self.below(401)) - 200;
        (
            Point { x, y },
            Point {
                x: x + right,
                y: y + up,
            },
        )
    }

    /// Two points anywhere in a drawing whose bound is 2^20.
    pub(crate) fn far(&mut self) -> (Point, Point) {
        (self.anywhere(), self.anywhere())
    }

    fn anywhere(&mut self) -> Point {
        Point {
            x: i64::from(self.below(2_097_153)) - 1_048_576,
            y: i64::from(self.below(2_097_153)) - 1_048_576,
        }
    }
}
