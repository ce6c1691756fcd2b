//! What a lock pass knows.
use crate::stage::Stage;
use std::collections::LinkedList;

/// The view of a lock pass, for contracts alone: no value of it is made. In a clause its numbers
/// are natural numbers without an end, and its lists are lists.
pub struct View<E> {
    /// Which of the passes of its turn this is, counted from 0.
    pub number: u64,
    /// How many passes the turn can have.
    pub seats: u64,
    /// How many passes can still be split from this one.
    pub room: u64,
    /// How far the pass has come with its turn.
    pub stage: Stage,
    /// The label that the book has.
    pub label: LinkedList<i64>,
    /// What the pass has seen of the history.
    pub seen: LinkedList<E>,
    /// What the pass added to the history.
    pub mine: LinkedList<E>,
    /// The whole history, while the pass has the book.
    pub journal: LinkedList<E>,
    /// What this pass had seen when another was last joined into it.
    pub one: LinkedList<E>,
    /// What that other pass had seen.
    pub other: LinkedList<E>,
    /// The numbers and the calls of the passes that were joined into this one.
    pub ended: LinkedList<(u64, LinkedList<E>)>,
}
