//! All bytes of a source, and a whole list of bytes to a sink.
ghost use Rattle.std.specs.Prelude.{◌≡◌, ◌+◌, ◌≤◌, ◌<◌, ◌⊎◌, length, false, vec_len};
ghost use Rattle.std.specs.Prelude.{IfOk, OnOk, OnErr, IsOk, IfSome, IsErrOf};
ghost use Rattle.std.specs.Io.KnownBytes.{Appends};
ghost use Rattle.io_ports.specs.Causes.{Rose};
ghost use Rattle.io_ports.specs.Transfers.{TakesAll, TakesAtMost, TakesExactly, WritesPrefix};

use crate::{ReadFault, Sink, SinkFault, Source};
use std::alloc::Global;

/// How many bytes are asked for in one read.
const PIECE: usize = 8192;

/// All bytes that are left in the source, where they are at most `limit`, which is at most
/// 16,777,216 (bytes). Where it answers a fault, the bytes that it took from the front are gone.
pub fn read_all<S: Source>(
    alloc: Global,
    source: &mut S,
    limit: usize,
) -> Result<Vec<u8>, ReadFault>
    requires { limit ≤ 16777216 }
    ensures whole { IfOk result (λ bytes.
        TakesAll (S.left source.old) (S.left source.new) bytes.items) }
    ensures within { IfOk result (λ bytes. vec_len bytes ≤ limit) }
    ensures taken { TakesAtMost (S.left source.old) (S.left source.new) (limit + 1) }
    ensures too_long { IsErrOf result ReadFault.TooLong
        → TakesExactly (S.left source.old) (S.left source.new) (limit + 1) }

    // Memory may be refused after the last of these bytes was taken.
    ensures too_long_only { IfSome (S.left source.old) (λ _.
        TakesExactly (S.left source.old) (S.left source.new) (limit + 1)
        → IsErrOf result ReadFault.TooLong ⊎ IsErrOf result ReadFault.Memory) }
    ensures failed { IsErrOf result ReadFault.Failed
        → Rose (S.faults source.old) (S.faults source.new) }
    ensures later { S.faults source.old ≤ S.faults source.new }
    ensures no_fault { IsErrOf result ReadFault.Failed
        ⊎ (S.faults source.new ≡ S.faults source.old) }
{
    let mut bytes = Vec::new(alloc);
    let mut piece = [0; PIECE];
    loop {
        let room = PIECE.min(limit + 1 - bytes.len());
        let n = match source.read(&mut piece[..room]) {
            Ok(n) => n,
            Err(_) => return Err(ReadFault::Failed),
        };
        if n == 0 {
            return Ok(bytes);
        }
        if bytes.extend_from_slice(&piece[..n]).is_err() {
            return Err(ReadFault::Memory);
        }
        if bytes.len() > limit {
            return Err(ReadFault::TooLong);
        }
    }
}

/// Writes all of `bytes`; each write is handed all that is left of them. It takes no memory of its
/// own, so it answers `Memory` where the sink does.
pub fn write_whole<K: Sink>(sink: &mut K, bytes: &[u8]) -> Result<(), SinkFault>
    ensures whole { OnOk result (Appends (K.written sink.old) (K.written sink.new) bytes.now) }
    ensures part { OnErr result (WritesPrefix (K.written sink.old) (K.written sink.new) bytes.now) }
    ensures failed { IsErrOf result SinkFault.Failed
        → Rose (K.faults sink.old) (K.faults sink.new) }
    ensures later { K.faults sink.old ≤ K.faults sink.new }
    ensures no_fault { IsErrOf result SinkFault.Failed ⊎ (K.faults sink.new ≡ K.faults sink.old) }
    ensures open { 0 < length bytes.now → K.shut sink.new ≡ false }
    ensures untouched { length bytes.now ≡ 0 → IsOk result × (sink.new ≡ sink.old) }
{
    let mut done = 0;
    while done < bytes.len() {
        done += sink.write(&bytes[done..])?;
    }
    Ok(())
}
