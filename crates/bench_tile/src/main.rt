//! Puts segments into a tile and takes them out again, for its time to be taken from outside: it
//! prints counts alone.
//!
//! The first word is the number of rounds, and the second names the tile: `few` has 16 segments,
//! `chords` 200 that cross all of it, and `one` none but the segment that comes and goes.

#![tactic(auto)]

mod draws;
mod work;

use std::env;
use std::process::ExitCode;
use std::rt::Env;
use work::{Work, run};

fn main(rt: HostRuntime) -> ExitCode {
    let Some((rounds, work)) = words(&rt) else {
        return ExitCode::from(2);
    };
    let Ok(Some(done)) = run(rt.alloc(), rounds, work) else {
        return ExitCode::from(3);
    };
    match println!(rt;
        "rounds {rounds} segments {} passes {} sum {}",
        done.segments, done.passes, done.sum
    ) {
        Ok(()) => ExitCode::SUCCESS,
        Err(_) => ExitCode::FAILURE,
    }
}

fn words(rt: &(impl Env + AllocGlobal)) -> Option<(u32, Work)> {
    let mut args = env::args(rt).ok()?;
    let _program = args.next()?;
    let rounds = args.next()?;
    let work = args.next()?;
    Some((rounds.as_str().parse().ok()?, Work::named(work.as_str())?))
}
