//! The turn: the calls of a pass that takes the book and gives it back.
ghost use Rattle.std.specs.Prelude.{◌≡◌, ◌<◌, ◌≤◌, [], IfOk};
ghost use Rattle.turn_lock.specs.History.{IsPrefix, calls, GrowsBy};
ghost use Rattle.turn_lock.specs.View.{lowered, split_from, joined, marked, first_view};
ghost use Rattle.turn_lock.specs.Pass.{IsSized, known, taken, IsIdle, IsReady};
ghost use Rattle.turn_lock.specs.Pass.{Holds, HoldsMarked, Stays};

use crate::counted::Counted;
use crate::pass::Pass;
use crate::plays::SplitOff;
use crate::rule::{BOOK, Opening, Words};
use crate::steps::{give_back, mark_history, take_book, unite, wait_turn};
use atomic_table::Table;
use grid_core::Memory;
use std::alloc::Global;
use std::marker::Brand;
use std::snapshot::Snapshot;
use std::sync::Wait;

/// A book that one pass at a time has, in the order in which they drew. Threads share it by `&`.
#[derive(Drop)]
pub struct Turn<B: Counted> {
    /// The words and the slot. Clauses tell turns apart by the id of these (`turn_id`).
    pub table: Words<B>,
    ghost sized: { IsSized table.shared.table_id },
}

/// The book while a pass has it. It is not `Drop`: end it by `leave`, or all others wait for good.
pub struct Held<B: Counted> {
    /// The book itself. Before `mark` its history may grow by one entry, and after it by none.
    pub book: B,
    /// The book at `enter`, and from `mark` on the book at `mark`, for contracts alone.
    pub kept: Snapshot<B>,
}

impl<B: Counted> Turn<B> {
    ghost use Rattle.turn_lock.specs.Turn.{turn_id, HasAll, IsLast};

    /// A turn for `seats` passes, and the first of them, from which the others are split. `seats`
    /// is at least 1, and the book has no history yet. After `Memory` the book is given up.
    pub fn open(alloc: Global, book: B, seats: u32) -> Result<(Turn<B>, Pass<B>), Memory>
        requires seats { 1 ≤ seats }
        requires empty { B.history book ≡ [] }
        ensures ready { IfOk result (λ t. IsReady t.1.seat (turn_id t.0)) }
        ensures first { IfOk result (λ t. known t.1.seat ≡ first_view seats (B.label book)) }
    {
        let about = Opening {
            seats,
            book: Snapshot::of(&book),
        };
        let mut slots = Vec::with_capacity(alloc, 1)?;
        slots.push(Some(book))?;
        let Ok((table, seat)) = Table::new(alloc, &[0, 0, 0], slots, &about) else {
            return Err(Memory);
        };
        let pass = Pass {
            seat,
            seats,
            number: 0,
            room: seats - 1,
        };
        Ok((Turn { table }, pass))
    }

    /// Waits until the turn of `pass` comes, and gives it the book.
    pub fn enter(&self, rt: &impl Wait, pass: &mut Pass<B>) -> Held<B>
        requires { IsReady pass.old.seat (turn_id self.now) }
        ensures stays { Stays pass.old.seat pass.new.seat }
        ensures holds { Holds pass.new.seat (B.history result.book) }
        ensures seen { IsPrefix (known pass.old.seat).seen (B.history result.book) }
        ensures mine { let v = known pass.old.seat in
            calls (B.author v.label) v.number (B.history result.book) ≡ v.mine }
        ensures label { B.label result.book ≡ (known pass.old.seat).label }
        ensures kept { result.kept.value ≡ result.book }
    {
        wait_turn(rt, &self.table.shared, &mut pass.seat);
        let book = take_book(&self.table.shared, &mut pass.seat);
        let kept = Snapshot::of(&book);
        Held { book, kept }
    }

    /// Tells that the history has grown by one entry of `pass` where `up`, and that it is as it
    /// was where not. The pass has then seen all of it.
    pub fn mark(&self, pass: &mut Pass<B>, held: &mut Held<B>, up: bool)
        requires own { pass.old.seat.table_id ≡ turn_id self.now }
        requires holds { Holds pass.old.seat (B.history held.old.kept.value) }
        requires grows { let v = known pass.old.seat in
            let kept = B.history held.old.kept.value in
            GrowsBy (B.author v.label) v.number up kept (B.history held.old.book) }
        ensures own { pass.new.seat.table_id ≡ pass.old.seat.table_id }
        ensures holds { HoldsMarked pass.new.seat (B.history held.new.kept.value) }
        ensures seen { let v = known pass.new.seat in
            v ≡ marked v.stage (B.history held.old.book) (known pass.old.seat) }
        ensures mine { let v = known pass.new.seat in
            calls (B.author v.label) v.number (B.history held.new.book) ≡ v.mine }
        ensures book { held.new.book ≡ held.old.book }
        ensures kept { held.new.kept.value ≡ held.old.book }
    {
        mark_history::<B, Brand>(&self.table.shared, &mut pass.seat, &held.book, up);
        held.kept = Snapshot::of(&held.book);
    }

    /// Gives the book back as it was at `mark`, and passes the turn on.
    pub fn leave(&self, pass: &mut Pass<B>, held: Held<B>)
        requires own { pass.old.seat.table_id ≡ turn_id self.now }
        requires holds { HoldsMarked pass.old.seat (B.history held.kept.value) }
        requires history { B.history held.book ≡ B.history held.kept.value }
        requires label { B.label held.book ≡ (known pass.old.seat).label }
        ensures stays { Stays pass.old.seat pass.new.seat }
        ensures idle { IsIdle pass.new.seat }
    {
        let Held { book, kept: _ } = held;
        give_back(&self.table.shared, &mut pass.seat, book);
    }

    /// A new pass, which has seen what `pass` has, and has added nothing. `pass` must have room.
    pub fn split(&self, pass: &mut Pass<B>) -> Pass<B>
        requires own { pass.old.seat.table_id ≡ turn_id self.now }
        requires room { 0 < (known pass.old.seat).room }
        ensures own { pass.new.seat.table_id ≡ pass.old.seat.table_id }
        ensures room { pass.new.seat.me
            ≡ (lowered (known pass.old.seat), taken pass.old.seat) }
        ensures ready { IsReady result.seat (turn_id self.now) }
        ensures new { known result.seat ≡ split_from (known pass.old.seat) }
    {
        let seat = self.table.shared.split_seat::<SplitOff>(&mut pass.seat);
        let number = pass.seats - pass.room;
        pass.room -= 1;
        Pass {
            seat,
            seats: pass.seats,
            number,
            room: 0,
        }
    }

    /// Ends the pass `other`. `pass` has then seen what either had seen, and keeps the calls of
    /// `other` beside its own.
    pub fn join(&self, pass: &mut Pass<B>, other: Pass<B>)
        requires ready { IsReady pass.old.seat (turn_id self.now) }
        requires other { IsReady other.seat (turn_id self.now) }
        ensures ready { IsReady pass.new.seat (turn_id self.now) }
        ensures joined { let v = known pass.old.seat in
            known pass.new.seat ≡ joined v (known other.seat) }
        ensures seen { IsPrefix (known pass.old.seat).seen (known pass.new.seat).seen }
        ensures seen_by_other { IsPrefix (known other.seat).seen (known pass.new.seat).seen }
    {
        let Pass {
            seat,
            seats: _,
            number: _,
            room,
        } = other;
        unite(&self.table.shared, &mut pass.seat, seat);
        pass.room += room;
    }

    /// Ends the turn with the last pass, and gives the book.
    pub fn close(self, pass: Pass<B>) -> B
        requires ready { IsReady pass.seat (turn_id self) }
        requires all { HasAll (known pass.seat) }
        ensures { IsLast B.history B.author B.label (known pass.seat) result }
    {
        let Turn { table } = self;
        let Pass {
            seat,
            seats: _,
            number: _,
            room: _,
        } = pass;
        let mut closed = table.close_with(seat);
        let book = closed.take(BOOK);
        closed.free();
        book.unwrap()
    }
}
