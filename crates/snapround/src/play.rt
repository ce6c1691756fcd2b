//! The running call: the whole input is read, and then its lines are answered.

ghost use Rattle.std.specs.Prelude.{◌≡◌, ◌↔◌, ◌⊎◌, true, false, map, string_bytes};
ghost use Rattle.std.specs.Prelude.{IfOk, OnOk, OnErr, IsErrOf};
ghost use Rattle.std.specs.Io.KnownBytes.{Appends};
ghost use Rattle.io_ports.specs.Causes.{Rose};
ghost use Rattle.io_ports.specs.Transfers.{WritesPrefix};
ghost use Rattle.session_core.specs.Output.{output, has_bad_line};
ghost use Rattle.snapround.specs.Play.{code_of, is_play, outside, sizes, Played};

use crate::answer::answer_all;
use io_ports::{ReadFault, Sink, SinkFault, Source, read_all};
use std::alloc::Global;

/// The greatest input, in bytes.
const MOST_BYTES: usize = 16_777_216;

/// How a run ended.
#[derive(Clone, Copy, Debug, PartialEq, Eq)]
pub enum Status {
    /// All lines were answered, and none was bad.
    Done,
    /// All lines were answered, and some were bad.
    SomeBad,
    /// The words ask for nothing that the program does.
    BadWords,
    /// The source failed.
    ReadFault,
    /// The sink failed.
    WriteFault,
    /// The input is longer than 16,777,216 bytes.
    TooLong,
    /// There was no memory.
    Memory,
}

impl Status {
    /// The number that the program ends with.
    pub fn code(self) -> u8
        ensures { result ≡ code_of self }
    {
        match self {
            Status::Done => 0,
            Status::SomeBad => 1,
            Status::BadWords => 2,
            Status::ReadFault => 3,
            Status::WriteFault => 4,
            Status::TooLong => 5,
            Status::Memory => 6,
        }
    }
}

/// Runs the program on its words, those after its name. The one word `play` is all that it takes.
/// Gives the number that the program ends with: 2 for other words, and else that of `play`.
pub fn top<S: Source, K: Sink>(alloc: Global, words: &[String], source: &mut S, sink: &mut K) -> u8
    ensures words { (result ≡ 2) ↔ (is_play (map string_bytes words.now) ≡ false) }
    ensures played { is_play (map string_bytes words.now) ≡ true → Played result
        (outside (S.left source.old) (S.faults source.old)
        (K.written sink.old) (K.faults sink.old) (K.shut sink.old))
        (outside (S.left source.new) (S.faults source.new)
        (K.written sink.new) (K.faults sink.new) (K.shut sink.new)) }
    ensures source_untouched { result ≡ 2 → source.new ≡ source.old }
    ensures sink_untouched { (result ≡ 2) ⊎ ((result ≡ 3) ⊎ (result ≡ 5)) → sink.new ≡ sink.old }
{
    if is_play(words) {
        play(alloc, source, sink)
    } else {
        Status::BadWords.code()
    }
}

/// Whether the words are the one word `play`.
fn is_play(words: &[String]) -> bool
    ensures { result ≡ is_play (map string_bytes words.now) }
{
    match words {
        [word] => word.as_str() == "play",
        _ => false,
    }
}

/// Reads the whole input, answers its lines in order, and shuts the sink.
/// Each reply is handed to the sink in one piece.
///
/// Gives 0 where all lines were answered and none was bad, 1 where some line was bad, 3 where the source
/// failed, 4 where the sink failed, 5 where the input is longer than 16,777,216 bytes, and 6 where there
/// was no memory. At 4 and 6 the sink has a prefix of the output.
pub fn play<S: Source, K: Sink>(alloc: Global, source: &mut S, sink: &mut K) -> u8
    ensures played { Played result
        (outside (S.left source.old) (S.faults source.old)
        (K.written sink.old) (K.faults sink.old) (K.shut sink.old))
        (outside (S.left source.new) (S.faults source.new)
        (K.written sink.new) (K.faults sink.new) (K.shut sink.new)) }
    ensures sink_untouched { (result ≡ 3) ⊎ (result ≡ 5) → sink.new ≡ sink.old }
{
    run(alloc, source, sink).code()
}

fn run<S: Source, K: Sink>(alloc: Global, source: &mut S, sink: &mut K) -> Status
    ensures played { Played (code_of result)
        (outside (S.left source.old) (S.faults source.old)
        (K.written sink.old) (K.faults sink.old) (K.shut sink.old))
        (outside (S.left source.new) (S.faults source.new)
        (K.written sink.new) (K.faults sink.new) (K.shut sink.new)) }
    ensures sink_untouched { (code_of result ≡ 3) ⊎ (code_of result ≡ 5) → sink.new ≡ sink.old }
{
    let input = match read_all(alloc, source, MOST_BYTES) {
        Ok(input) => input,
        Err(ReadFault::Failed) => return Status::ReadFault,
        Err(ReadFault::TooLong) => return Status::TooLong,
        Err(ReadFault::Memory) => return Status::Memory,
    };
    match respond(alloc, &input, sink) {
        Ok(true) => Status::SomeBad,
        Ok(false) => Status::Done,
        Err(SinkFault::Failed) => Status::WriteFault,
        Err(SinkFault::Memory) => Status::Memory,
    }
}

/// Writes the replies to all lines of the input, and shuts the sink. Whether some line is bad.
fn respond<K: Sink>(alloc: Global, input: &[u8], sink: &mut K) -> Result<bool, SinkFault>
    ensures whole { OnOk result
        (Appends (K.written sink.old) (K.written sink.new) (output sizes input.now)) }
    ensures part { OnErr result
        (WritesPrefix (K.written sink.old) (K.written sink.new) (output sizes input.now)) }
    ensures bad { IfOk result (λ bad. bad ≡ has_bad_line input.now) }
    ensures failed { IsErrOf result SinkFault.Failed
        → Rose (K.faults sink.old) (K.faults sink.new) }
    ensures no_fault { IsErrOf result SinkFault.Failed ⊎ (K.faults sink.new ≡ K.faults sink.old) }
    ensures shut { OnOk result (K.shut sink.new ≡ true) }
    ensures left_open { OnErr result (K.shut sink.old ≡ false → K.shut sink.new ≡ false) }
{
    let some_bad = answer_all(alloc, input, sink)?;
    sink.close()?;
    Ok(some_bad)
}
