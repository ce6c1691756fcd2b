//! What each step tells the lock pass that makes it.
use crate::counted::Counted;
use crate::view::View;
use atomic_table::{Join, Play, Split};
use std::marker::{Brand, PhantomData};

/// The step that draws a ticket.
pub(crate) struct Draw;

impl<B: Counted> Play<Option<B>, View<B::Entry>> for Draw {
    ghost use Rattle.turn_lock.specs.Plays.{drew};

    ghost then = { drew };
}

/// The step that sees whether the ticket is served.
pub(crate) struct Look;

impl<B: Counted> Play<Option<B>, View<B::Entry>> for Look {
    ghost use Rattle.turn_lock.specs.Plays.{looked};

    ghost then = { looked };
}

/// The step that takes the book.
pub(crate) struct Take;

impl<B: Counted> Play<Option<B>, View<B::Entry>> for Take {
    ghost use Rattle.turn_lock.specs.Plays.{took};

    ghost then = { took B.history B.author B.label };
}

/// The history that a mark is of, for the proof alone: a step on a word carries no list.
pub(crate) trait MarkedHistory<E> {
    ghost use Rattle.std.specs.Prelude.{List};

    ghost list: { List E };
}

impl<E> MarkedHistory<E> for Brand {
    ghost use Rattle.std.specs.Prelude.{[]};

    ghost list = { [] };
}

/// The step that marks the history of `W`.
pub(crate) struct Mark<W> {
    history: PhantomData<W>,
}

impl<B: Counted, W: MarkedHistory<B::Entry>> Play<Option<B>, View<B::Entry>> for Mark<W> {
    ghost use Rattle.turn_lock.specs.Plays.{marks};

    ghost then = { marks B.author W.list };
}

/// The step that gives the book back.
pub(crate) struct GiveBack;

impl<B: Counted> Play<Option<B>, View<B::Entry>> for GiveBack {
    ghost use Rattle.turn_lock.specs.Plays.{gave_back};

    ghost then = { gave_back };
}

/// The step that passes the turn on.
pub(crate) struct PassOn;

impl<B: Counted> Play<Option<B>, View<B::Entry>> for PassOn {
    ghost use Rattle.turn_lock.specs.Plays.{passed_on};

    ghost then = { passed_on };
}

/// The step that splits a pass off.
pub(crate) struct SplitOff;

impl<E> Split<View<E>> for SplitOff {
    ghost use Rattle.turn_lock.specs.View.{lowered, split_from};

    ghost left = { lowered };

    ghost right = { split_from };
}

/// The step that joins a pass into another.
pub(crate) struct JoinIn;

impl<E> Join<View<E>> for JoinIn {
    ghost use Rattle.turn_lock.specs.View.{joined, spent};

    ghost both = { joined };

    ghost spent = { spent };
}

/// The step after a join that learns how the two lists lie.
pub(crate) struct Meet;

impl<B: Counted> Play<Option<B>, View<B::Entry>> for Meet {
    ghost use Rattle.turn_lock.specs.Plays.{met};

    ghost then = { met };
}
