//! Links, copies and walks the passes of a tile with 16 segments and 256 pixels, to be timed from
//! outside: it prints counts, and never times. Its first word is the number of rounds, its second
//! the work: `link`, `copy`, `change`, `run` or `walk`.
#![tactic(auto)]

ghost use Rattle.std.specs.Prelude.{◌≡◌, true};
ghost use Rattle.pass_links.specs.Passes.{AreFresh, has_pixel, pixels_of};

use grid_core::{Memory, Name, Point};
use pass_links::Passes;
use std::alloc::Global;
use std::{env, io};

/// The segments of the tile.
const SEGMENTS: u16 = 16;

/// The pixels of the tile. Each segment passes through every fourth.
const PIXELS: u16 = 256;

/// The passes of the tile.
const PASSES: usize = 1024;

/// The passes of one segment.
const PASSES_OF_SEGMENT: usize = 64;

/// What is done in each round.
#[derive(Clone, Copy)]
enum Work {
    /// A tile is linked, and then unlinked by pixels and by segments.
    Link,
    /// A tile is copied, and one list of the copy is walked.
    Copy,
    /// A tile is copied with room for the passes of a segment more, which are then linked one by one.
    Change,
    /// The same, but that they are linked as one run.
    Run,
    /// All lists of a tile are walked.
    Walk,
}

/// The number that a word is.
fn number(word: Option<String>) -> Option<u32> {
    word?.as_str().parse().ok()
}

/// The work that a word names.
fn work_of(word: Option<String>) -> Option<Work> {
    let word = word?;
    match word.as_str() {
        "link" => Some(Work::Link),
        "copy" => Some(Work::Copy),
        "change" => Some(Work::Change),
        "run" => Some(Work::Run),
        "walk" => Some(Work::Walk),
        _ => None,
    }
}

fn pixel_of(pixel: u16) -> Point {
    Point {
        x: i64::from(pixel / 16),
        y: i64::from(pixel % 16),
    }
}

/// Links the passes of one segment, each behind the one before. Gives their number.
fn link_segment(passes: &mut Passes, name: Name, segment: u16) -> u64 {
    let mut linked: u64 = 0;
    let mut after = None;
    for pixel in 0..PIXELS {
        let at = pixel_of(pixel);
        let through = pixel % 4 == segment % 4;
        if through && passes.spare() > 0 && !passes.has(name, at) {
            let before = after.filter(|before| passes.has(name, *before));
            passes.link_between(name, at, before);
            after = Some(at);
            linked = linked.wrapping_add(1);
        }
    }
    linked
}

/// Links the passes of the tile. Gives their number.
fn link_all(passes: &mut Passes) -> u64 {
    let mut linked: u64 = 0;
    for segment in 0..SEGMENTS {
        if let Some(name) = Name::new(1, segment + 1) {
            linked = linked.wrapping_add(link_segment(passes, name, segment));
        }
    }
    linked
}

/// The sum of the names of a pixel's list, by their serial numbers.
fn walk_across(passes: &Passes, pixel: Point) -> u64 {
    let mut sum: u64 = 0;
    for name in passes.across(pixel) {
        sum = sum.wrapping_add(u64::from(name.serial()));
    }
    sum
}

/// The number of the pixels of a segment's list.
fn walk_along(passes: &Passes, name: Name) -> u64 {
    let mut count: u64 = 0;
    for _pixel in passes.along(name) {
        count = count.wrapping_add(1);
    }
    count
}

/// The sum over all lists of the tile; those of the pixels begin with the `first`-th.
fn walk_all(passes: &Passes, first: u64) -> u64 {
    let mut sum: u64 = 0;
    for segment in 0..SEGMENTS {
        if let Some(name) = Name::new(1, segment + 1) {
            sum = sum.wrapping_add(walk_along(passes, name));
        }
    }
    for pixel in 0..u64::from(PIXELS) {
        let turned = (pixel.wrapping_add(first) % 256) as u16;
        sum = sum.wrapping_add(walk_across(passes, pixel_of(turned)));
    }
    sum
}

/// A tile is linked and unlinked. Gives the number of passes, and what is left of them.
fn link_round(alloc: Global) -> Result<u64, Memory> {
    let mut passes = Passes::open(alloc);
    passes.reserve(PASSES)?;
    let linked = link_all(&mut passes);
    for pixel in 0..PIXELS / 2 {
        passes.unlink_pixel(pixel_of(pixel));
    }
    for segment in 0..SEGMENTS {
        if let Some(name) = Name::new(1, segment + 1) {
            passes.unlink_segment(name);
        }
    }
    Ok(linked.wrapping_add(walk_all(&passes, linked)))
}

/// A copy of the tile gets a segment more. Gives how many passes that has, and a sum over one list.
fn change_round(passes: &Passes) -> Result<u64, Memory> {
    let mut changed = passes.copy_with_room(PASSES_OF_SEGMENT)?;
    let mut linked: u64 = 0;
    if let Some(name) = Name::new(1, SEGMENTS + 1) {
        linked = link_segment(&mut changed, name, SEGMENTS);
    }
    Ok(linked.wrapping_add(walk_across(&changed, pixel_of(4))))
}

/// Whether the pixel is one of the run.
fn is_in(run: &[Point], pixel: Point) -> bool
    ensures { result ≡ has_pixel run.now pixel }
{
    run.iter().any(|at| pixel == *at)
}

/// Whether no pixel of the run is one of the segment's, and no two are one.
fn is_fresh(passes: &Passes, name: Name, run: &[Point]) -> bool
    ensures { result ≡ true → AreFresh run.now (pixels_of passes.now name) }
{
    match run.split_first() {
        None => true,
        Some((first, rest)) => {
            !passes.has(name, *first) && !is_in(rest, *first) && is_fresh(passes, name, rest)
        }
    }
}

/// The pixels of one segment.
fn pixels_through(alloc: Global, segment: u16) -> Result<Vec<Point>, Memory> {
    let mut run = Vec::new(alloc);
    for pixel in 0..PIXELS {
        if pixel % 4 == segment % 4 {
            run.push(pixel_of(pixel))?;
        }
    }
    Ok(run)
}

/// A copy of the tile gets the run. Gives the run's length, and a sum over one list.
fn run_round(passes: &Passes, name: Name, run: &[Point]) -> Result<u64, Memory>
    requires { AreFresh run.now (pixels_of passes.now name) }
{
    let mut changed = passes.copy_with_room(PASSES_OF_SEGMENT)?;
    if run.len() > changed.spare() {
        return Ok(0);
    }
    changed.link_run(name, None, run);
    Ok((run.len() as u64).wrapping_add(walk_across(&changed, pixel_of(4))))
}

/// The sum over so many rounds, each with a copy that gets a run.
fn run_rounds(alloc: Global, passes: &Passes, rounds: u32) -> Result<u64, Memory> {
    let Some(name) = Name::new(1, SEGMENTS + 1) else {
        return Ok(0);
    };
    let run = pixels_through(alloc, SEGMENTS)?;
    if !is_fresh(passes, name, &run) {
        return Ok(0);
    }
    let mut total: u64 = 0;
    for _round in 0..rounds {
        total = total.wrapping_add(run_round(passes, name, &run)?);
    }
    Ok(total)
}

/// The sum over so many rounds of the work.
fn run(alloc: Global, work: Work, rounds: u32) -> Result<u64, Memory> {
    let mut passes = Passes::open(alloc);
    passes.reserve(PASSES)?;
    link_all(&mut passes);
    if matches!(work, Work::Run) {
        return run_rounds(alloc, &passes, rounds);
    }
    let mut total: u64 = 0;
    for _round in 0..rounds {
        let part = match work {
            Work::Link => link_round(alloc)?,
            Work::Copy => walk_across(&passes.copy()?, pixel_of(4)),
            Work::Change | Work::Run => change_round(&passes)?,
            // each walk begins where the sum so far says, so that none is left out as a repetition
            Work::Walk => walk_all(&passes, total),
        };
        total = total.wrapping_add(part);
    }
    Ok(total)
}

fn main(rt: HostRuntime) -> io::Result<()> {
    let mut words = env::args(&rt)?;
    words.next();
    let (Some(rounds), Some(work)) = (number(words.next()), work_of(words.next())) else {
        return Err(io::Error::from(io::ErrorKind::InvalidInput));
    };
    let Ok(total) = run(rt.alloc(), work, rounds) else {
        return Err(io::Error::from(io::ErrorKind::OutOfMemory));
    };
    println!(&rt; "{rounds} rounds: {total}")
}
