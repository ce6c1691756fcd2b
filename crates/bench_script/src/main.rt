//! Reads a script of mixed lines and writes a reply to each, for its time to be taken from outside:
//! it prints counts alone.
//!
//! Its one word is the number of rounds. A round reads the 10,000 lines of one script.

#![tactic(auto)]

mod answers;
mod script;

use answers::answer_all;
use script::draw_script;
use std::env;
use std::process::ExitCode;
use std::rt::Env;

fn main(rt: HostRuntime) -> ExitCode {
    let Some(rounds) = rounds(&rt) else {
        return ExitCode::from(2);
    };
    let Ok(script) = draw_script(rt.alloc()) else {
        return ExitCode::from(3);
    };
    let Ok(counts) = answer_all(rt.alloc(), script.as_slice(), rounds) else {
        return ExitCode::from(3);
    };
    let (quiet, bad) = (counts.quiet, counts.bad);
    let (orders, bytes) = (counts.orders, counts.bytes);
    match println!(rt; "{quiet} quiet, {bad} bad, {orders} orders, {bytes} bytes") {
        Ok(()) => ExitCode::SUCCESS,
        Err(_) => ExitCode::FAILURE,
    }
}

fn rounds(rt: &(impl Env + AllocGlobal)) -> Option<u32> {
    let mut args = env::args(rt).ok()?;
    let _program = args.next()?;
    let rounds = args.next()?;
    rounds.as_str().parse().ok()
}
