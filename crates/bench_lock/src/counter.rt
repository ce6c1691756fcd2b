//! The counter that the turns are taken round.
ghost use Rattle.std.specs.Prelude.{◌≡◌, ◌^◌, ◌<◌, [], vec_len};
ghost use Rattle.turn_lock.specs.History.{GrowsBy};

use std::alloc::Global;
use std::snapshot::Snapshot;
use turn_lock::Counted;

/// How many rounds were taken. Contracts see for each of them the number of its pass. The list has
/// no bytes: when it runs, it is its length.
#[derive(Drop)]
pub struct Counter {
    rounds: Vec<Snapshot<u32>>,
    ghost short: { vec_len rounds < 2 ^ 32 },
}

impl Counted for Counter {
    ghost use Rattle.std.specs.Prelude.{[]};

    type Entry = Snapshot<u32>;

    ghost history = { λ c. c.rounds.items };

    ghost author = { λ _ e. e.value };

    ghost label = { λ _. [] };

    fn marks(&self) -> u32 {
        self.rounds.len() as u32
    }
}

impl Counter {
    /// A counter of no rounds.
    pub fn new(alloc: Global) -> Counter
        ensures { result.rounds.items ≡ [] }
    {
        Counter {
            rounds: Vec::new(alloc),
        }
    }

    /// How many rounds were counted.
    pub fn count(&self) -> u32
        ensures { result ≡ vec_len self.now.rounds }
    {
        self.rounds.len() as u32
    }

    /// Counts a round of the pass `number`, unless 2^32 - 1 are counted. Says whether it did.
    pub fn raise(&mut self, number: u32) -> bool
        ensures { let old = self.old.rounds.items in
            GrowsBy (λ e. e.value) number result old self.new.rounds.items }
    {
        self.rounds.len() + 1 < 1 << 32 && self.rounds.push(Snapshot::of(&number)).is_ok()
    }
}
