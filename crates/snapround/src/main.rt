//! A drawing of straight segments that always shows as its snap rounding on the integer grid.
//!
//! Up to 64 editors share it. A script interleaves their commands, one on a line; `session_core`
//! does what they ask for, and each line has its reply, or is bad and changes nothing.

#![tactic(auto)]

mod answer;
mod play;
#[cfg(test)]
mod tests;
mod words;

use io_ports::{StdSink, StdSource};
use play::{Status, top};
use std::io::BufWriter;
use std::process::ExitCode;
use words::words;

/// How many bytes of replies are gathered before they are written, unless one reply has more.
const GATHERED: usize = 65_536;

fn main(rt: HostRuntime) -> ExitCode {
    let status = match run(&rt) {
        Ok(status) => status,
        Err(status) => status.code(),
    };
    ExitCode::from(status)
}

/// Runs on standard input and output. What is gathered is written when the sink is shut; where a
/// run ends before that, it is written as the writer goes.
fn run(rt: &HostRuntime) -> Result<u8, Status> {
    let words = words(rt)?;
    let gathering = BufWriter::with_capacity(rt.alloc(), GATHERED, rt.stdout());
    let Ok(stdout) = gathering else {
        return Err(Status::Memory);
    };
    let mut source = StdSource::over(rt.stdin());
    let mut sink = StdSink::over(stdout);
    Ok(top(rt.alloc(), &words, &mut source, &mut sink))
}
