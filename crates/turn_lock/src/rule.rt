//! The table behind a turn: three words, one slot for the book, and the rule that every step keeps.
use crate::counted::Counted;
use crate::view::View;
use atomic_table::{Seat, Shared, Table, TableRule};
use std::alloc::Global;
use std::marker::PhantomData;
use std::snapshot::Snapshot;

/// The next ticket to give.
pub(crate) const TICKET: usize = 0;

/// The ticket whose turn it is.
pub(crate) const SERVING: usize = 1;

/// The length of the history.
pub(crate) const FRONT: usize = 2;

/// The slot of the book.
pub(crate) const BOOK: usize = 0;

/// What the table is told once: how many passes it can have, and the book at the start.
#[derive(Drop)]
pub struct Opening<B> {
    /// How many passes the turn can have.
    pub seats: u32,
    /// The book at the start, for contracts alone.
    pub book: Snapshot<B>,
}

/// The rule of a turn over a book of type `B`.
pub struct Rules<B> {
    book: PhantomData<B>,
}

impl<B: Counted> TableRule<Option<B>, View<B::Entry>, Opening<B>> for Rules<B> {
    ghost use Rattle.turn_lock.specs.View.{first_view};
    ghost use Rattle.turn_lock.specs.Rule.{Kept};

    ghost holds = { λ key. let label = B.label key.book.value in
        Kept B.history (B.author label) B.label key.seats label };

    ghost first = { λ key. first_view key.seats (B.label key.book.value) };
}

/// The words and the slot, with the memory that they lie in.
pub type Words<B: Counted> = Table<Option<B>, View<B::Entry>, Opening<B>, Rules<B>, Global>;

/// The words and the slot as all threads share them.
pub(crate) type Top<B: Counted> = Shared<Option<B>, View<B::Entry>, Opening<B>, Rules<B>>;

/// The seat of a lock pass at the words. It has no bytes.
pub type PassSeat<B: Counted> = Seat<Option<B>, View<B::Entry>>;
