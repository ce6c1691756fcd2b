//! What bytes are written to.
ghost use Rattle.std.specs.Prelude.{◌≡◌, ℕ, ◌≤◌, ◌<◌, ◌↔◌, List, length, Option, Bool, false};
ghost use Rattle.std.specs.Prelude.{IfOk, OnOk, IsOk, IsErrOf, IsTrue};
ghost use Rattle.std.specs.Io.{WritesAtMost};
ghost use Rattle.std.specs.Io.KnownBytes.{Keeps, WriteAppends};
ghost use Rattle.io_ports.specs.Causes.{Rose};

use crate::SinkFault;

/// What bytes are written to, piece after piece, and shut when all are written.
pub trait Sink {
    // The bytes that were written so far, where the sink tells them.
    ghost written: { Self → Option (List ℕ) };

    // Whether the sink was closed with success, and nothing was written since.
    ghost shut: { Self → Bool };

    // How many calls have failed.
    ghost faults: { Self → ℕ };

    /// Writes the first bytes of `buf`, and answers how many they are: at least one, where `buf` is
    /// not empty. After `Failed` and after `Memory` nothing of it was written.
    fn write(&mut self, buf: &[u8]) -> Result<usize, SinkFault>
        ensures bound { WritesAtMost result buf.now }
        ensures some { IfOk result (λ n. 0 < length buf.now → 0 < n) }
        ensures bytes { WriteAppends (written self.old) (written self.new) result buf.now }
        ensures later { faults self.old ≤ faults self.new }
        ensures no_fault { OnOk result (faults self.new ≡ faults self.old) }
        ensures failed { IsErrOf result SinkFault.Failed
            → Rose (faults self.old) (faults self.new) }
        ensures memory { IsErrOf result SinkFault.Memory → faults self.new ≡ faults self.old }
        ensures open { shut self.new ≡ false };

    /// Hands on what was written, and shuts the sink. Where that fails, the sink is not shut.
    fn close(&mut self) -> Result<(), SinkFault>
        ensures bytes { Keeps (written self.old) (written self.new) }
        ensures later { faults self.old ≤ faults self.new }
        ensures no_fault { OnOk result (faults self.new ≡ faults self.old) }
        ensures failed { IsErrOf result SinkFault.Failed
            → Rose (faults self.old) (faults self.new) }
        ensures memory { IsErrOf result SinkFault.Memory → faults self.new ≡ faults self.old }
        ensures shut { IsTrue (shut self.new) ↔ IsOk result };
}
