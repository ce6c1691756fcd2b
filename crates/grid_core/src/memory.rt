//! Want of memory, as every crate answers it.

use std::alloc::{AllocError, AllocFailed};
use thiserror::Error;

/// The answer for want of memory, in every crate.
/// What the call was lent is as before, unless the call's comment says otherwise.
#[derive(Clone, Copy, Debug, PartialEq, Eq, Error)]
#[error("out of memory")]
pub struct Memory;

impl From<AllocError> for Memory {
    fn from(_refused: AllocError) -> Memory {
        Memory
    }
}

impl<T: Drop> From<AllocFailed<T>> for Memory {
    fn from(_refused: AllocFailed<T>) -> Memory {
        Memory
    }
}
