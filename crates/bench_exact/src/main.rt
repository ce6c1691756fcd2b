//! The exact tests, to be timed from outside: it prints counts of their answers, and never times.
//!
//! Its first word is the number of rounds, its second `meets`, `crossings` or `pixels`. A round asks
//! each of 1,024 drawn segments whether it meets a pixel near it, or where it crosses another; or it
//! asks for the pixel of each crossing of two of them that are at most eight places apart.

#![tactic(auto)]

mod cases;
#[cfg(test)]
mod tests;

use cases::{Case, draw_cases};
use grid_core::Point;
use pixel_test::meets_pixel;
use rat_cross::{Cross, crossing, pixel};
use std::alloc::{AllocError, Global};
use std::rt::Env;
use std::{env, io};

fn main(rt: HostRuntime) -> io::Result<()> {
    let cases = draw_cases(rt.alloc())?;
    let args = env::args(&rt)?;
    let mut words = args.skip(1);
    let rounds = match words.next() {
        Some(word) => word.as_str().parse::<u32>().unwrap_or(0),
        None => 0,
    };
    match words.next() {
        Some(word) if word.as_str() == "crossings" => {
            let (crossed, in_quadrant) = count_crossings(&cases, rounds);
            println!(rt; "{crossed} crossings, {in_quadrant} to the right of and above (0, 0)")
        }
        Some(word) if word.as_str() == "pixels" => {
            let crosses = draw_crosses(rt.alloc(), &cases)?;
            let in_quadrant = count_pixels(&crosses, rounds);
            println!(rt;
                "{} crossings, {in_quadrant} pixels to the right of and above (0, 0)",
                crosses.len()
            )
        }
        _ => {
            let met = count_met(&cases, rounds);
            println!(rt; "{met} pixels met")
        }
    }
}

/// How many times a segment meets the pixel that is asked for, in so many rounds.
fn count_met(cases: &[Case], rounds: u32) -> u64 {
    let mut met = 0u64;
    for round in 0..rounds {
        let dx = i64::from(round % 3) - 1;
        let dy = i64::from(round / 3 % 3) - 1;
        for case in cases {
            let at = Point {
                x: i64::from(case.x) + dx,
                y: i64::from(case.y) + dy,
            };
            if meets_pixel(&case.segment, at) {
                met = met.wrapping_add(1);
            }
        }
    }
    met
}

/// How many pairs of segments cross, in so many rounds, and how many of those crossings lie to the
/// right of and above (0, 0), which keeps a compiler from leaving their numerators out.
fn count_crossings(cases: &[Case], rounds: u32) -> (u64, u64) {
    let mut crossed = 0u64;
    let mut in_quadrant = 0u64;
    for round in 0..rounds {
        let step = (round % 8 + 1) as usize;
        for (case, other) in cases.iter().zip(cases.iter().skip(step)) {
            if let Some(c) = crossing(&case.segment, &other.segment) {
                crossed = crossed.wrapping_add(1);
                if c.num_x() > 0 && c.num_y() > 0 {
                    in_quadrant = in_quadrant.wrapping_add(1);
                }
            }
        }
    }
    (crossed, in_quadrant)
}

/// The crossings of each segment with the eight after it.
fn draw_crosses(alloc: Global, cases: &[Case]) -> Result<Vec<Cross>, AllocError> {
    let mut crosses = Vec::new(alloc);
    for step in 1usize..9 {
        for (case, other) in cases.iter().zip(cases.iter().skip(step)) {
            if let Some(c) = crossing(&case.segment, &other.segment) {
                crosses.push(c)?;
            }
        }
    }
    Ok(crosses)
}

/// How many pixels of crossings lie to the right of and above (0, 0), in so many rounds.
fn count_pixels(crosses: &[Cross], rounds: u32) -> u64 {
    let mut in_quadrant = 0u64;
    for _ in 0..rounds {
        for c in crosses {
            let at = pixel(c);
            if at.x > 0 && at.y > 0 {
                in_quadrant = in_quadrant.wrapping_add(1);
            }
        }
    }
    in_quadrant
}
