//! The machine of sessions: up to 64 editors who share one drawing.
//!
//! An editor takes the newest version, prepares a change on the version that it holds, and commits
//! it. A prepared change is stale where a change made since its base shares a tile with it.
//!
//! ```text
//!    1 insert 0 0 10 0          1 ready 1.1             editor 1 prepares on version 0
//!    2 insert 20 20 30 20       2 ready 2.1             so does editor 2
//!    1 commit                   1 commit 1              version 1 has the segment 1.1
//!    2 commit                   2 stale by 1 tile 0 0   both changes have tile (0, 0)
//! ```

#![tactic(auto)]

mod act;
mod laws;
mod seat;
#[cfg(test)]
mod tests;
mod tools;
mod world;

pub use laws::{commands_lead_to_states, one_editor_is_never_stale, unclashed_is_committed};
pub use world::World;
