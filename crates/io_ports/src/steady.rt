//! A source and a sink in memory that never fail: their count of faults is always 0.
ghost use Rattle.std.specs.Prelude.{◌≡◌, []};

use crate::{Failed, Sink, SinkFault, Source};
use std::alloc::Global;
use std::marker::Model;

/// A source of given bytes. Contracts see it as the bytes that are left.
#[derive(Debug, Drop)]
pub struct SteadySource {
    bytes: Vec<u8>,
    taken: usize,
}

impl Model for SteadySource {
    ghost use Rattle.std.specs.Prelude.{ℕ, ◌≤◌, List, drop, vec_len};

    ghost Value = { List ℕ };

    ghost view = { λ s. drop s.taken s.bytes.items };

    ghost invariant = { λ s. s.taken ≤ vec_len s.bytes };
}

impl SteadySource {
    /// The source of these bytes, none of them taken.
    pub fn new(bytes: Vec<u8>) -> SteadySource
        ensures { result ≡ bytes.items }
    {
        SteadySource { bytes, taken: 0 }
    }
}

impl Source for SteadySource {
    ghost use Rattle.std.specs.Prelude.{Some};

    ghost left = { λ s. Some s };

    ghost faults = { λ _. 0 };

    fn read(&mut self, buf: &mut [u8]) -> Result<usize, Failed> {
        let rest = &self.bytes[self.taken..];
        let n = rest.len().min(buf.len());
        buf[..n].copy_from_slice(&rest[..n]);
        self.taken += n;
        Ok(n)
    }
}

/// A sink that keeps what is written to it. Each write keeps its whole piece, or nothing where
/// there is no memory for it.
#[derive(Debug, Drop)]
pub struct SteadySink {
    bytes: Vec<u8>,
    is_shut: bool,
}

impl Model for SteadySink {
    ghost use Rattle.io_ports.specs.Steady.{Kept};

    ghost Value = { Kept };

    ghost view = { λ k. record { bytes = k.bytes.items; is_shut = k.is_shut } };
}

impl SteadySink {
    ghost use Rattle.std.specs.Prelude.{◌≡◌, [], false};

    /// A sink to which nothing was written. It takes no memory until it is written to.
    pub fn new(alloc: Global) -> SteadySink
        ensures empty { result.bytes ≡ [] }
        ensures open { result.is_shut ≡ false }
    {
        SteadySink {
            bytes: Vec::new(alloc),
            is_shut: false,
        }
    }

    /// All that was written.
    pub fn bytes(&self) -> &[u8]
        ensures { result.now ≡ self.now.bytes }
    {
        &self.bytes
    }
}

impl Sink for SteadySink {
    ghost use Rattle.std.specs.Prelude.{◌≡◌, ◌++◌, Some, true, false, length, IsOk, IfOk, IfErr};

    ghost written = { λ k. Some k.bytes };

    ghost shut = { λ k. k.is_shut };

    ghost faults = { λ _. 0 };

    fn write(&mut self, buf: &[u8]) -> Result<usize, SinkFault>
        ensures whole { IfOk result (λ n. (n ≡ length buf.now)
            × (self.new.bytes ≡ self.old.bytes ++ buf.now)) }
        ensures memory { IfErr result (λ fault. (fault ≡ SinkFault.Memory)
            × (self.new.bytes ≡ self.old.bytes)) }
        ensures open { self.new.is_shut ≡ false }
    {
        self.is_shut = false;
        match self.bytes.extend_from_slice(buf) {
            Ok(()) => Ok(buf.len()),
            Err(_) => Err(SinkFault::Memory),
        }
    }

    fn close(&mut self) -> Result<(), SinkFault>
        ensures ok { IsOk result }
        ensures shut { self.new ≡ record self.old { is_shut = true } }
    {
        self.is_shut = true;
        Ok(())
    }
}
