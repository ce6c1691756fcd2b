//! A ticket lock round one book, whose history is known to every holder.
//!
//! Threads share a `Turn` by `&`, and each has a `Pass` of its own. A round is `enter`, a change of
//! the book or none, `mark` and `leave`. At `enter` the book's history begins with what the pass
//! had seen before, and its entries that name the pass are the ones that the pass added; at `mark`
//! the pass has seen all of it. Passes are split from one another and joined again, and `close`
//! gives the book to the last one.
//!
//! Behind it is a table of three words, all 0 at the start, and one slot that has the book:
//! `ticket`, the next ticket to give; `serving`, the one whose turn it is; `front`, the length of
//! the history. Tickets are compared modulo 2^64, and fewer than 2^32 passes have one at a time.
//! The journal is the one history that what each pass has seen is a prefix of.
//!
//! ```text
//! words, slot        stage of the      what that pass   what holds
//!                    pass that is      may do
//!                    served
//! -----------------  ----------------  ---------------  ----------------------------------------
//! ticket = serving,  there is none     (any may draw)   the book's history is the journal, and
//! book at home                                          `front` is its length
//! ticket > serving,  Waits             look             the same
//! book at home       Served            take the book    the same
//! book taken         Has               change, mark     the pass keeps the journal, and `front` is
//!                                                       its length
//!                    Marked            put it back      the same, and the pass has seen all of it
//! book at home       Home              pass on          as in the first row
//! ```
//!
//! In every row the other passes may draw where they are idle, look where they wait (in vain, since
//! another ticket is served), and be split and joined where they are idle. A waiter looks at
//! `serving` again and again: at first with a spin hint between two looks, then it yields the
//! processor. That a wait ends is not claimed.
#![tactic(auto)]

mod counted;
mod pass;
mod plays;
mod rule;
mod stage;
mod steps;
mod turn;
mod view;

pub use counted::Counted;
pub use pass::Pass;
pub use rule::{Opening, PassSeat, Rules, Words};
pub use stage::Stage;
pub use turn::{Held, Turn};
pub use view::View;

#[cfg(test)]
mod tests;
