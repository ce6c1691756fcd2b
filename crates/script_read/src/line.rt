//! What a line of a script is.

use crate::Command;

/// What a line is.
#[derive(Clone, Copy, Debug, PartialEq, Eq)]
pub enum Line {
    /// It has no fields, or the first begins with `#`. It has no reply.
    Quiet,
    /// It is a command.
    Order(Command),
    /// It is neither. It changes nothing.
    Bad,
}
