//! The book of a drawing: the history of its changes and the version after it, and the one step by
//! which a prepared change is taken into them.
//!
//! Editors prepare changes beside each other, each on a version that it holds; the book takes one after
//! the other. A prepared change is stale where a change that came after its base shares a tile with it.
//! That is read from the stamps of the prepared change's own tiles in the newest version, whatever the
//! history's length. Where it isn't stale, what was prepared stands on the newest version too, and is
//! put in as it is.

#![tactic(auto)]

mod book;
mod commit;
mod laws;
mod refusal;
#[cfg(test)]
mod tests;

pub use book::Book;
pub use commit::{Committed, Settled};
pub use laws::{newest_is_never_stale, old_bases_are_taken};
pub use refusal::{FullOf, Refusal};
