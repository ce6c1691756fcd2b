//! The sizes of a drawing: how far its coordinates reach, and how wide its tiles are.

ghost use Rattle.std.specs.Prelude.{◌≡◌, pos};
ghost use Rattle.grid_core.specs.Profile.{IsProfile};

use std::marker::Model;

/// The sizes of a drawing: how far its coordinates reach, and how wide its tiles are, in pixels.
#[derive(Clone, Copy, Debug, PartialEq, Eq)]
pub struct Profile {
    bound: u32,
    side: u32,
}

impl Model for Profile {
    ghost use Rattle.grid_core.specs.Profile.{Sizes, IsProfile};

    ghost Value = { Sizes };

    ghost view = { λ p. record { bound = p.bound; side = p.side } };

    ghost invariant = { λ p. IsProfile (record { bound = p.bound; side = p.side }) };

    ghost inverse = { λ p. record { bound = p.bound; side = p.side } };
}

impl Profile {
    /// Coordinates up to 1,048,576 in size, and tiles of 256 by 256 pixels.
    pub fn edition_one() -> Profile
        ensures bound { result.bound ≡ 1048576 }
        ensures side { result.side ≡ 256 }
    {
        Profile {
            bound: 1_048_576,
            side: 256,
        }
    }

    /// The greatest size of a coordinate: 1 to 2^30.
    pub fn bound(&self) -> i64
        ensures value { result ≡ pos self.now.bound }
        ensures kept { IsProfile self.now }
    {
        i64::from(self.bound)
    }

    /// How many pixels a tile is wide and high: 1 to 65,536.
    pub fn side(&self) -> i64
        ensures value { result ≡ pos self.now.side }
        ensures kept { IsProfile self.now }
    {
        i64::from(self.side)
    }
}
