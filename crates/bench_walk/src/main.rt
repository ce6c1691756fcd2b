//! Walks segments through tiles, for its time to be taken from outside: it prints counts alone.
//!
//! The first word is the number of segments, the second `long` or `short`, and the third `fresh`, for
//! a list of its own for each segment, or `reused`, for one list.

#![tactic(auto)]

mod segments;

use grid_core::{Memory, Profile, TileId};
use segments::{Draws, Length};
use std::alloc::Global;
use std::env;
use std::process::ExitCode;
use std::rt::Env;
use tile_walk::{push_tiles, tiles};

fn main(rt: HostRuntime) -> ExitCode {
    let Some((count, length, is_reused)) = words(&rt) else {
        return ExitCode::from(2);
    };
    let walked = if is_reused {
        walk_into_one(rt.alloc(), count, length)
    } else {
        walk_apart(rt.alloc(), count, length)
    };
    let Ok((met, upper_right)) = walked else {
        return ExitCode::from(3);
    };
    match println!(rt; "{met} tiles, {upper_right} middle ones to the right of and above (0, 0)") {
        Ok(()) => ExitCode::SUCCESS,
        Err(_) => ExitCode::FAILURE,
    }
}

fn words(rt: &(impl Env + AllocGlobal)) -> Option<(u32, Length, bool)> {
    let mut args = env::args(rt).ok()?;
    let _program = args.next()?;
    let count = args.next()?;
    let length = args.next()?;
    let list = args.next()?;
    Some((
        count.as_str().parse().ok()?,
        Length::named(length.as_str())?,
        list.as_str() == "reused",
    ))
}

/// How many tiles so many segments meet, each with a list of its own, and how many of the lists have
/// a middle tile to the right of and above (0, 0).
fn walk_apart(alloc: Global, count: u32, length: Length) -> Result<(u64, u64), Memory> {
    let profile = Profile::edition_one();
    let mut draws = Draws::start();
    let (mut met, mut upper_right) = (0u64, 0u64);
    for _ in 0..count {
        if let Some(s) = draws.segment(&profile, length) {
            let list = tiles(alloc, &s, &profile)?;
            met = met.wrapping_add(list.len() as u64);
            upper_right = upper_right.wrapping_add(u64::from(is_upper_right(list.as_slice())));
        }
    }
    Ok((met, upper_right))
}

/// The same with one list.
fn walk_into_one(alloc: Global, count: u32, length: Length) -> Result<(u64, u64), Memory> {
    let profile = Profile::edition_one();
    let mut draws = Draws::start();
    let (mut met, mut upper_right) = (0u64, 0u64);
    let mut list = Vec::new(alloc);
    for _ in 0..count {
        if let Some(s) = draws.segment(&profile, length) {
            list.clear();
            push_tiles(&mut list, &s, &profile)?;
            met = met.wrapping_add(list.len() as u64);
            upper_right = upper_right.wrapping_add(u64::from(is_upper_right(list.as_slice())));
        }
    }
    Ok((met, upper_right))
}

/// Whether the middle tile of a list lies to the right of and above (0, 0), which keeps a compiler
/// from leaving tiles out.
fn is_upper_right(list: &[TileId]) -> bool {
    match list.get(list.len() / 2) {
        Some(t) => t.i > 0 && t.j > 0,
        None => false,
    }
}
