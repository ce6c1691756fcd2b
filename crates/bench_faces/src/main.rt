//! Builds the half-edges of a grid of streets, or walks its contours, for its time to be taken from
//! outside: it prints counts alone.
//!
//! The first word is the number of rounds, and the second is `build` or `contours`.

#![tactic(auto)]

mod streets;
mod work;

use std::env;
use std::process::ExitCode;
use std::rt::Env;
use work::{Work, run};

fn main(rt: HostRuntime) -> ExitCode {
    let Some((rounds, work)) = words(&rt) else {
        return ExitCode::from(2);
    };
    let Ok(counts) = run(rt.alloc(), rounds, work) else {
        return ExitCode::from(3);
    };
    match println!(rt;
        "contours {} points {} areas {}",
        counts.contours, counts.points, counts.areas
    ) {
        Ok(()) => ExitCode::SUCCESS,
        Err(_) => ExitCode::FAILURE,
    }
}

fn words(rt: &(impl Env + AllocGlobal)) -> Option<(u32, Work)> {
    let mut args = env::args(rt).ok()?;
    let _program = args.next()?;
    let rounds = args.next()?;
    let work = args.next()?;
    Some((rounds.as_str().parse().ok()?, Work::named(work.as_str())?))
}
