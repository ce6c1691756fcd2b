//! Why a call on a source or a sink failed.

use thiserror::Error;

/// The source failed during the call, and nothing was read.
#[derive(Clone, Copy, Debug, PartialEq, Eq, Error)]
#[error("the source failed")]
pub struct Failed;

/// Why a sink took no bytes, or could not be closed.
#[derive(Clone, Copy, Debug, PartialEq, Eq, Error)]
pub enum SinkFault {
    /// The sink failed during the call.
    #[error("the sink failed")]
    Failed,
    /// There was no memory for what the call would have kept.
    #[error("out of memory")]
    Memory,
}

/// Why a source was not read to its end.
#[derive(Clone, Copy, Debug, PartialEq, Eq, Error)]
pub enum ReadFault {
    /// The source failed during the call.
    #[error("the source failed")]
    Failed,
    /// There are more bytes than the limit.
    #[error("the input is longer than its limit")]
    TooLong,
    /// There was no memory for a byte that was read.
    #[error("out of memory")]
    Memory,
}
