//! The steps of a turn, in the order in which a pass makes them.
ghost use Rattle.std.specs.Prelude.{◌≡◌, ◌<◌};
ghost use Rattle.turn_lock.specs.History.{IsPrefix, calls, GrowsBy};
ghost use Rattle.turn_lock.specs.View.{marked, joined};
ghost use Rattle.turn_lock.specs.Pass.{IsSized, known, IsIdle, IsReady, IsServed};
ghost use Rattle.turn_lock.specs.Pass.{Holds, HoldsMarked, Stays};

use crate::counted::Counted;
use crate::plays::{Draw, GiveBack, JoinIn, Look, Mark, MarkedHistory, Meet, PassOn, Take};
use crate::rule::{BOOK, FRONT, PassSeat, SERVING, TICKET, Top};
use std::hint::spin_loop;
use std::sync::Wait;
use std::thread::yield_now;

/// How often a waiter looks before it gives the processor to others between two looks.
const SPINS: u32 = 64;

/// Draws a ticket, and waits until it is served.
pub(crate) fn wait_turn<B: Counted, R: Wait>(rt: &R, top: &Top<B>, seat: &mut PassSeat<B>)
    requires sized { IsSized top.now.table_id }
    requires ready { IsReady seat.old top.now.table_id }
    ensures stays { Stays seat.old seat.new }
    ensures served { IsServed seat.new }
{
    // `ticket`, `fetch_add` by 1: the view learns its ticket.
    let ticket = top.fetch_add::<Draw>(seat, TICKET, 1);
    let mut looks = 0;
    for _ in rt.forever() {
        // `serving`, `load`: the view learns whether its ticket is served.
        if top.load::<Look>(seat, SERVING) == ticket {
            return;
        }
        if looks < SPINS {
            looks += 1;
            spin_loop();
        } else {
            yield_now();
        }
    }
    unreachable!()
}

/// Takes the book out of the slot.
pub(crate) fn take_book<B: Counted>(top: &Top<B>, seat: &mut PassSeat<B>) -> B
    requires sized { IsSized top.now.table_id }
    requires own { seat.old.table_id ≡ top.now.table_id }
    requires served { IsServed seat.old }
    ensures stays { Stays seat.old seat.new }
    ensures holds { Holds seat.new (B.history result) }
    ensures seen { IsPrefix (known seat.old).seen (B.history result) }
    ensures mine { let v = known seat.old in
        calls (B.author v.label) v.number (B.history result) ≡ v.mine }
    ensures label { B.label result ≡ (known seat.old).label }
{
    // `serving`, `load`, and the slot is taken: the view learns the history of the book.
    top.load::<Take>(seat, SERVING);
    top.exchange(seat, BOOK, None).unwrap()
}

/// Marks the history of the book, which has grown by one entry where `up`.
pub(crate) fn mark_history<B: Counted, W: MarkedHistory<B::Entry>>(
    top: &Top<B>,
    seat: &mut PassSeat<B>,
    book: &B,
    up: bool,
)
    requires sized { IsSized top.now.table_id }
    requires own { seat.old.table_id ≡ top.now.table_id }
    requires holds { Holds seat.old (known seat.old).journal }
    requires list { W.list ≡ B.history book.now }
    requires grows { let v = known seat.old in
        GrowsBy (B.author v.label) v.number up v.journal (B.history book.now) }
    ensures own { seat.new.table_id ≡ seat.old.table_id }
    ensures holds { HoldsMarked seat.new (B.history book.now) }
    ensures seen { let v = known seat.new in
        v ≡ marked v.stage (B.history book.now) (known seat.old) }
    ensures mine { let v = known seat.new in
        calls (B.author v.label) v.number (B.history book.now) ≡ v.mine }
{
    // Called for its clause alone: the length of a history is a `u32`, so the front stays below
    // 2^32.
    book.marks();
    // `front`, `fetch_add` by 1 or 0: the view has seen the whole history. This step is the
    // linearization point of what the caller did with the book.
    top.fetch_add::<Mark<W>>(seat, FRONT, u64::from(up));
}

/// Puts the book back into the slot, and passes the turn on.
pub(crate) fn give_back<B: Counted>(top: &Top<B>, seat: &mut PassSeat<B>, book: B)
    requires sized { IsSized top.now.table_id }
    requires own { seat.old.table_id ≡ top.now.table_id }
    requires holds { HoldsMarked seat.old (B.history book) }
    requires label { B.label book ≡ (known seat.old).label }
    ensures stays { Stays seat.old seat.new }
    ensures idle { IsIdle seat.new }
{
    top.exchange(seat, BOOK, Some(book));
    // `front`, `load`, and the slot is given back: the view holds nothing.
    top.load::<GiveBack>(seat, FRONT);
    // `serving`, `fetch_add` by 1: the ticket is spent.
    top.fetch_add::<PassOn>(seat, SERVING, 1);
}

/// Joins the pass `other` into the pass `seat`.
pub(crate) fn unite<B: Counted>(top: &Top<B>, seat: &mut PassSeat<B>, other: PassSeat<B>)
    requires sized { IsSized top.now.table_id }
    requires ready { IsReady seat.old top.now.table_id }
    requires other { IsReady other top.now.table_id }
    ensures ready { IsReady seat.new top.now.table_id }
    ensures joined { known seat.new ≡ joined (known seat.old) (known other) }
    ensures room { (known seat.new).room < (known seat.new).seats }
    ensures seen { IsPrefix (known seat.old).seen (known seat.new).seen }
    ensures seen_by_other { IsPrefix (known other).seen (known seat.new).seen }
{
    // The seats are joined: the view has the longer list, and keeps both.
    top.join_seat::<JoinIn>(seat, other);
    // `front`, `load`: the view learns that its list begins with both.
    top.load::<Meet>(seat, FRONT);
}
