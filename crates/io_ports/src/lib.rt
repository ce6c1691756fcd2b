//! Where bytes come from and where they go: sources and sinks that may fail, and count faults.
//!
//! Each source and each sink has a count of faults that never falls. A call answers `Failed` only
//! where that count rose during the call, so a contract can tell a fault from a body that gives up.
//! A count rises, or stands still at 2^64 - 1. A source may also tell the bytes that are left in
//! it, and a sink the bytes that were written to it; clauses on bytes hold where they are told.
#![tactic(auto)]

mod adapters;
mod causes;
mod sinks;
mod sources;
mod steady;
#[cfg(test)]
mod tests;
mod transfers;

pub use adapters::{StdSink, StdSource};
pub use causes::{Failed, ReadFault, SinkFault};
pub use sinks::Sink;
pub use sources::Source;
pub use steady::{SteadySink, SteadySource};
pub use transfers::{read_all, write_whole};
