//! The book of the tests: who added which value.
ghost use Rattle.std.specs.Prelude.{◌≡◌, ◌^◌, ◌<◌, ◌++◌, [], ◌∷◌, if◌then◌else◌, vec_len};

use crate::counted::Counted;
use std::alloc::Global;

/// For each value that was added, the number of the pass that added it, and the value.
#[derive(Drop)]
pub(super) struct Tally {
    pub(super) entries: Vec<(u32, u64)>,
    ghost short: { vec_len entries < 2 ^ 32 },
}

impl Counted for Tally {
    ghost use Rattle.std.specs.Prelude.{[]};

    type Entry = (u32, u64);

    ghost history = { λ t. t.entries.items };

    ghost author = { λ _ e. e.0 };

    ghost label = { λ _. [] };

    fn marks(&self) -> u32 {
        self.entries.len() as u32
    }
}

impl Tally {
    pub(super) fn new(alloc: Global) -> Tally
        ensures { result.entries.items ≡ [] }
    {
        Tally {
            entries: Vec::new(alloc),
        }
    }

    /// Whether the value was added: where it is not, memory is wanting or the tally is full.
    pub(super) fn add(&mut self, number: u32, value: u64) -> bool
        ensures { let old = self.old.entries.items in
            self.new.entries.items ≡ (if result then old ++ (number, value) ∷ [] else old) }
    {
        self.entries.len() + 1 < 1 << 32 && self.entries.push((number, value)).is_ok()
    }
}
