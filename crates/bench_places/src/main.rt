//! Builds the strips of a rounding of short segments, or looks up places in it, for its time to be
//! taken from outside: it prints counts alone.
//!
//! The first word is the number of rounds. The second says what is done in each: with `build` the
//! strips are built, with `find` 10,000 places are looked up by them, and with `scan` 100 places by a
//! scan of the rounding. The third word is the number of segments.

#![tactic(auto)]

mod drawing;
mod draws;
mod work;

use std::env;
use std::process::ExitCode;
use std::rt::Env;
use work::{Work, run};

fn main(rt: HostRuntime) -> ExitCode {
    let Some((rounds, work, segments)) = words(&rt) else {
        return ExitCode::from(2);
    };
    let Ok(counts) = run(rt.alloc(), rounds, work, segments) else {
        return ExitCode::from(3);
    };
    match println!(rt;
        "edges {} vertices {} between {} sum {}",
        counts.edges, counts.vertices, counts.between, counts.sum
    ) {
        Ok(()) => ExitCode::SUCCESS,
        Err(_) => ExitCode::FAILURE,
    }
}

fn words(rt: &(impl Env + AllocGlobal)) -> Option<(u32, Work, u16)> {
    let mut args = env::args(rt).ok()?;
    let _program = args.next()?;
    let rounds = args.next()?;
    let work = args.next()?;
    let segments = args.next()?;
    Some((
        rounds.as_str().parse().ok()?,
        Work::named(work.as_str())?,
        segments.as_str().parse().ok()?,
    ))
}
