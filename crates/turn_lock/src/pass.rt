//! The lock pass, which each thread that takes turns has one of.
ghost use Rattle.std.specs.Prelude.{◌≡◌, ◌<◌, true};
ghost use Rattle.turn_lock.specs.Stage.{is_live};
ghost use Rattle.turn_lock.specs.Pass.{known};

use crate::counted::Counted;
use crate::rule::PassSeat;

/// The right to take turns. It has a number of its own, knows a prefix of the history and its own
/// entries there, and can be split as often as it has room. Its three numbers are those that its
/// seat knows, its room is less than the number of seats, and it was not joined away.
#[derive(Drop)]
pub struct Pass<B: Counted> {
    /// The seat at the words of the turn. It has no bytes.
    pub seat: PassSeat<B>,
    pub(crate) seats: u32,
    pub(crate) number: u32,
    pub(crate) room: u32,
    ghost seats_are: { seats ≡ (known seat).seats },
    ghost number_is: { number ≡ (known seat).number },
    ghost room_is: { room ≡ (known seat).room },
    ghost spare: { room < seats },
    ghost live: { is_live (known seat).stage ≡ true },
}

impl<B: Counted> Pass<B> {
    /// Which of the passes of its turn this is, counted from 0.
    pub fn number(&self) -> u32
        ensures { result ≡ (known self.now.seat).number }
    {
        self.number
    }

    /// How many passes can still be split from this one.
    pub fn room(&self) -> u32
        ensures { result ≡ (known self.now.seat).room }
    {
        self.room
    }
}
