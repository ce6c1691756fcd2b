//! Builds and edits drawings, for its time to be taken from outside: it prints counts alone.
//!
//! The first word is the number of rounds, and the second names the work.

#![tactic(auto)]

mod drawing;
mod draws;
mod serials;
mod work;

use std::env;
use std::process::ExitCode;
use std::rt::Env;
use work::{Work, run};

fn main(rt: HostRuntime) -> ExitCode {
    let Some((rounds, work)) = words(&rt) else {
        return ExitCode::from(2);
    };
    let done = match run(rt.alloc(), rounds, work) {
        Ok(Some(done)) => done,
        Ok(None) => return ExitCode::from(3),
        Err(_) => return ExitCode::from(6),
    };
    match println!(rt;
        "rounds {rounds} changes {} live {} spans {} passes {}",
        done.changes, done.live, done.spans, done.passes
    ) {
        Ok(()) => ExitCode::SUCCESS,
        Err(_) => ExitCode::FAILURE,
    }
}

fn words(rt: &(impl Env + AllocGlobal)) -> Option<(u16, Work)> {
    let mut args = env::args(rt).ok()?;
    let _program = args.next()?;
    let rounds = args.next()?;
    let work = args.next()?;
    Some((rounds.as_str().parse().ok()?, Work::named(work.as_str())?))
}
