//! Segments from a generator that starts with 1.

use grid_core::{Name, Point, Profile, Ur};

/// How long segments are.
#[derive(Clone, Copy)]
pub(crate) enum Length {
    /// Between any two points up to 1,048,576 in size.
    Long,
    /// From a point of a square of 4,096 to one at most 200 away in each coordinate.
    Short,
}

impl Length {
    pub(crate) fn named(word: &str) -> Option<Length> {
        match word {
            "long" => Some(Length::Long),
            "short" => Some(Length::Short),
            _ => None,
        }
    }
}

/// The next number is the last one times 48,271, modulo 2^31 - 1.
#[derive(Drop)]
pub(crate) struct Draws {
    last: u32,
}

impl Draws {
    pub(crate) fn start() -> Draws {
        Draws { last: 1 }
    }

    /// The next segment, of four numbers; none where its ends are equal.
    pub(crate) fn segment(&mut self, profile: &Profile, length: Length) -> Option<Ur> {
        let (a, b, c, d) = (self.next(), self.next(), self.next(), self.next());
        let (p, q) = match length {
            Length::Long => (anywhere(a, b), anywhere(c, d)),
            Length::Short => {
                let p = Point {
                    x: i64::from(a % 4096),
                    y: i64::from(b % 4096),
                };
                let q = Point {
                    x: i64::from(a % 4096) + i64::from(c % 401) - 200,
                    y: i64::from(b % 4096) + i64::from(d % 401) - 200,
                };
                (p, q)
            }
        };
        match Ur::new(profile, Name::new(1, 1)?, p, q) {
            Ok(s) => Some(s),
            Err(_) => None,
        }
    }

    fn next(&mut self) -> u32 {
        self.last = (u64::from(self.last) * 48_271 % 2_147_483_647) as u32;
        self.last
    }
}

/// A point up to 1,048,576 in size.
fn anywhere(a: u32, b: u32) -> Point {
    Point {
        x: i64::from(a % 2_097_153) - 1_048_576,
        y: i64::from(b % 2_097_153) - 1_048_576,
    }
}
