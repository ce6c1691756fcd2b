//! Answers: the lines of a script, one after the other, each with its reply.

ghost use Rattle.std.specs.Prelude.{◌≡◌, ◌++◌, ◌≤◌, ◌⊎◌, false, IfOk, OnOk, OnErr, IsErrOf};
ghost use Rattle.std.specs.Io.KnownBytes.{Appends};
ghost use Rattle.io_ports.specs.Causes.{Rose};
ghost use Rattle.io_ports.specs.Transfers.{WritesPrefix};
ghost use Rattle.script_read.specs.Lines.{line_of};
ghost use Rattle.session_core.specs.Output.{after_line, line_text, is_bad, output, has_bad_line};
ghost use Rattle.snapround.specs.Play.{sizes};

use grid_core::{Memory, Profile};
use io_ports::{Sink, SinkFault, write_whole};
use script_read::{Line, next_line, push_bad, push_reply, read_line};
use session_core::World;
use std::alloc::Global;

/// Writes the replies to all lines of the input, each in one piece. Whether some line is bad.
pub fn answer_all<K: Sink>(alloc: Global, input: &[u8], sink: &mut K) -> Result<bool, SinkFault>
    ensures whole { OnOk result
        (Appends (K.written sink.old) (K.written sink.new) (output sizes input.now)) }
    ensures part { OnErr result
        (WritesPrefix (K.written sink.old) (K.written sink.new) (output sizes input.now)) }
    ensures bad { IfOk result (λ bad. bad ≡ has_bad_line input.now) }
    ensures failed { IsErrOf result SinkFault.Failed
        → Rose (K.faults sink.old) (K.faults sink.new) }
    ensures no_fault { IsErrOf result SinkFault.Failed ⊎ (K.faults sink.new ≡ K.faults sink.old) }
    ensures later { K.faults sink.old ≤ K.faults sink.new }
    ensures left_open { K.shut sink.old ≡ false → K.shut sink.new ≡ false }
{
    let Ok(mut world) = World::open(alloc, Profile::edition_one()) else {
        return Err(SinkFault::Memory);
    };
    let mut reply = Vec::new(alloc);
    let mut from = 0;
    let mut number = 0;
    let mut some_bad = false;
    while let Some((end, next)) = next_line(input, from) {
        number += 1;
        reply.clear();
        let Ok(is_bad) = answer(&mut world, &input[from..end], number, &mut reply) else {
            return Err(SinkFault::Memory);
        };
        write_whole(sink, &reply)?;
        some_bad |= is_bad;
        from = next;
    }
    Ok(some_bad)
}

/// Answers line `number`: does what it asks for, and appends its reply. Whether the line is bad.
/// After `Memory` the command may have been done, and its reply is lost.
fn answer(world: &mut World, line: &[u8], number: u64, out: &mut Vec<u8>) -> Result<bool, Memory>
    ensures profile { world.new.profile ≡ world.old.profile }
    ensures state { OnOk result (world.new.state
        ≡ after_line world.old.profile world.old.state (line_of line.now)) }
    ensures reply { OnOk result (out.new.items ≡ out.old.items
        ++ line_text world.old.profile world.old.state number (line_of line.now)) }
    ensures bad { IfOk result (λ bad. bad ≡ is_bad (line_of line.now)) }
{
    match read_line(line) {
        Line::Quiet => Ok(false),
        Line::Bad => {
            push_bad(out, number)?;
            Ok(true)
        }
        Line::Order(command) => {
            let reply = world.step(&command)?;
            push_reply(out, &reply)?;
            Ok(false)
        }
    }
}
