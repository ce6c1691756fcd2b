//! Numbers that look random, and segments and query points made of them.

ghost use Rattle.std.specs.Prelude.{◌≡◌, ◌<◌, IfSome};

use grid_core::{Name, Point, Profile, Ur};

/// Draws: each is the one before times 48,271, modulo 2^31 - 1.
#[derive(Drop)]
pub(crate) struct Draws {
    last: u64,
    ghost small: { last < 2147483647 },
}

impl Draws {
    ghost use Rattle.std.specs.Prelude.{◌≡◌, ◌^◌, IfSome};
    ghost use Rattle.grid_core.specs.Vector.{IsWithin};

    pub(crate) fn open() -> Draws {
        Draws { last: 11 }
    }

    fn next(&mut self) -> i64 {
        self.last = self.last * 48_271 % 2_147_483_647;
        self.last as i64
    }

    /// The next segment, from a point of a square of 4,096 to one at most 200 away in each coordinate.
    /// `None` where the two are one.
    pub(crate) fn segment(&mut self, serial: u16) -> Option<Ur>
        ensures { IfSome result (λ s. s.name ≡ record { editor = 1; serial = serial }) }
    {
        let x = self.next() % 4096;
        let y = self.next() % 4096;
        let across = self.next() % 401;
        let up = self.next() % 401;
        let p = Point { x, y };
        let q = Point {
            x: x + across - 200,
            y: y + up - 200,
        };
        named(serial, p, q)
    }

    /// The next query point of the square, in 1/256 of a pixel.
    pub(crate) fn query_point(&mut self) -> Point
        ensures { IsWithin (2 ^ 40) result }
    {
        Point {
            x: self.next() % 1_048_576,
            y: self.next() % 1_048_576,
        }
    }
}

/// Segment `1.serial` between two points. `None` where they are one.
fn named(serial: u16, p: Point, q: Point) -> Option<Ur>
    ensures { IfSome result (λ s. s.name ≡ record { editor = 1; serial = serial }) }
{
    let name = Name::new(1, serial)?;
    Ur::new(&Profile::edition_one(), name, p, q).ok()
}
