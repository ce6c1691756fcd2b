//! A source over any reader of std and a sink over any writer: the trusted edge of a program.
//!
//! They tell the bytes that are left and those that were written where the reader and the writer
//! tell them; of a file, a socket or a terminal nothing is told. Their counts of faults are kept
//! here, and every error of std counts as a fault.
ghost use Rattle.std.specs.Prelude.{◌≡◌};
ghost use Rattle.io_ports.specs.Causes.{after_fault};

use crate::{Failed, Sink, SinkFault, Source};
use std::io::{Read, Write};
use std::marker::Model;

/// The count after one fault more.
fn with_fault(faults: u64) -> u64
    ensures { result ≡ after_fault faults }
{
    if faults == u64::MAX {
        faults
    } else {
        faults + 1
    }
}

/// A source that reads from `R`. Contracts see it as the reader and the count of faults.
#[derive(Debug, Drop)]
pub struct StdSource<R> {
    inner: R,
    faults: u64,
}

impl<R> Model for StdSource<R> {
    ghost use Rattle.io_ports.specs.Adapters.{OverReader};

    ghost Value = { OverReader R };

    ghost view = { λ s. record { inner = s.inner; faults = s.faults } };
}

impl<R: Read> StdSource<R> {
    /// The source that reads from `inner`. A read of 0 bytes is its end.
    pub fn over(inner: R) -> StdSource<R>
        ensures reader { result.inner ≡ inner }
        ensures no_fault { result.faults ≡ 0 }
    {
        StdSource { inner, faults: 0 }
    }
}

impl<R: Read> Source for StdSource<R> {
    ghost use Rattle.std.specs.Prelude.{◌≡◌, is_ok, if◌then◌else◌};
    ghost use Rattle.std.specs.Io.{ReadsAtMost};
    ghost use Rattle.std.specs.Io.KnownBytes.{ReadConsumes};
    ghost use Rattle.io_ports.specs.Causes.{after_fault};

    ghost left = { λ s. R.remaining s.inner };

    ghost faults = { λ s. s.faults };

    fn read(&mut self, buf: &mut [u8]) -> Result<usize, Failed>
        ensures bound { ReadsAtMost result buf.new }
        ensures bytes { ReadConsumes (R.remaining self.old.inner) (R.remaining self.new.inner)
            result buf.new }
        ensures counted { self.new.faults
            ≡ (if is_ok result then self.old.faults else after_fault self.old.faults) }
    {
        match self.inner.read(buf) {
            Ok(n) => Ok(n),
            Err(_) => {
                self.faults = with_fault(self.faults);
                Err(Failed)
            }
        }
    }
}

/// A sink that writes to `W`. To close it flushes `W`. Contracts see it as the writer, whether it
/// is shut, and the count of faults.
#[derive(Debug, Drop)]
pub struct StdSink<W> {
    inner: W,
    is_shut: bool,
    faults: u64,
}

impl<W> Model for StdSink<W> {
    ghost use Rattle.io_ports.specs.Adapters.{OverWriter};

    ghost Value = { OverWriter W };

    ghost view = { λ k. record { inner = k.inner; is_shut = k.is_shut; faults = k.faults } };
}

impl<W: Write> StdSink<W> {
    ghost use Rattle.std.specs.Prelude.{◌≡◌, false};

    /// The sink that writes to `inner`.
    pub fn over(inner: W) -> StdSink<W>
        ensures writer { result.inner ≡ inner }
        ensures open { result.is_shut ≡ false }
        ensures no_fault { result.faults ≡ 0 }
    {
        StdSink {
            inner,
            is_shut: false,
            faults: 0,
        }
    }
}

impl<W: Write> Sink for StdSink<W> {
    ghost use Rattle.std.specs.Prelude.{◌≡◌, ◌<◌, ◌↔◌, false, length, is_ok, if◌then◌else◌};
    ghost use Rattle.std.specs.Prelude.{IfOk, IfErr, IsOk, IsTrue};
    ghost use Rattle.std.specs.Io.{WritesAtMost};
    ghost use Rattle.std.specs.Io.KnownBytes.{Keeps, WriteAppends};
    ghost use Rattle.io_ports.specs.Causes.{after_fault};

    ghost written = { λ k. W.contents k.inner };

    ghost shut = { λ k. k.is_shut };

    ghost faults = { λ k. k.faults };

    // A write that takes nothing of a piece is a fault too: to try again could go on for ever.
    fn write(&mut self, buf: &[u8]) -> Result<usize, SinkFault>
        ensures bound { WritesAtMost result buf.now }
        ensures some { IfOk result (λ n. 0 < length buf.now → 0 < n) }
        ensures bytes { WriteAppends (W.contents self.old.inner) (W.contents self.new.inner)
            result buf.now }
        ensures failed { IfErr result (λ fault. fault ≡ SinkFault.Failed) }
        ensures counted { self.new.faults
            ≡ (if is_ok result then self.old.faults else after_fault self.old.faults) }
        ensures open { self.new.is_shut ≡ false }
    {
        self.is_shut = false;
        match self.inner.write(buf) {
            Ok(n) if n > 0 || buf.is_empty() => Ok(n),
            _ => {
                self.faults = with_fault(self.faults);
                Err(SinkFault::Failed)
            }
        }
    }

    fn close(&mut self) -> Result<(), SinkFault>
        ensures bytes { Keeps (W.contents self.old.inner) (W.contents self.new.inner) }
        ensures failed { IfErr result (λ fault. fault ≡ SinkFault.Failed) }
        ensures counted { self.new.faults
            ≡ (if is_ok result then self.old.faults else after_fault self.old.faults) }
        ensures shut { IsTrue self.new.is_shut ↔ IsOk result }
    {
        self.is_shut = self.inner.flush().is_ok();
        if self.is_shut {
            return Ok(());
        }
        self.faults = with_fault(self.faults);
        Err(SinkFault::Failed)
    }
}
