//! Scripts and their replies as text: lines, the commands that they ask for, and the replies.
//!
//! ```text
//!    # a drawing of one segment            quiet
//!    1 insert 0 0 10 0                     editor 1 prepares a segment
//!    1 insert 0 0 +1 0                     bad: a plus sign is no part of a number
//!    <tab>1   commit<carriage return>      editor 1 commits
//! ```
//!
//! A script is read from the front: `next_line` finds a line, and `read_line` tells what it is.

#![tactic(auto)]

mod command;
mod items;
mod line;
mod lines;
mod read;
mod reply;
#[cfg(test)]
mod tests;
mod write;

pub use command::{Act, Command, Query};
pub use items::Items;
pub use line::Line;
pub use lines::next_line;
pub use read::read_line;
pub use reply::{FullText, Refusal, Reply, Said, Walk};
pub use write::{push_bad, push_reply};
