//! Preparing a change on a version, without a lock, and applying it to a later one.
//!
//! A change is prepared on a base: the tiles that its segment meets are read there, and each is made
//! anew with the segment, or without it. So it costs these tiles, however large the drawing is. What
//! was prepared stands on the base's live list, and on each later one as long as no change since the
//! base shares a tile with it (`version_core::changes_are_rebased`); there it is applied by putting
//! the new tiles in place of the old ones.

#![tactic(auto)]

mod next;
mod prepare;
mod prepared;
#[cfg(test)]
mod tests;
mod tiles;

pub use next::{apply, apply_beside, apply_in_place};
pub use prepare::{
    PrepareFault, prepare_delete, prepare_delete_in, prepare_insert, prepare_insert_in,
};
pub use prepared::Prepared;
