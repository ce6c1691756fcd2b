//! The works.

use crate::drawing::{Drawing, Held};
use crate::draws::Draws;
use crate::serials::Serials;
use grid_core::{Memory, Point};
use std::alloc::Global;

/// How many short segments a drawing has.
const SHORT: u16 = 4000;

/// How many long segments a drawing has.
const LONG: u16 = 250;

/// How many edits a round has.
const EDITS: u16 = 2000;

/// What is done in each round.
#[derive(Clone, Copy)]
pub(crate) enum Work {
    /// 4,000 short segments are put into a drawing one by one.
    Build(Held),
    /// Of 4,000 short segments one is taken out and another put in, 1,000 times.
    Edit(Held),
    /// 250 long segments are put into a drawing one by one.
    Long(Held),
    /// Eight short segments are put into a drawing, and then a ninth. Where memory is wanting for
    /// that, the drawing is seen to be as before, and the ninth is put in once more.
    Ninth,
}

impl Work {
    pub(crate) fn named(word: &str) -> Option<Work> {
        match word {
            "build" => Some(Work::Build(Held::Newest)),
            "build_held" => Some(Work::Build(Held::All)),
            "edit" => Some(Work::Edit(Held::Newest)),
            "edit_held" => Some(Work::Edit(Held::All)),
            "long" => Some(Work::Long(Held::Newest)),
            "long_held" => Some(Work::Long(Held::All)),
            "ninth" => Some(Work::Ninth),
            _ => None,
        }
    }
}

/// Counts that tell what was done last.
#[derive(Clone, Copy)]
pub(crate) struct Done {
    pub(crate) changes: u32,
    pub(crate) live: usize,
    pub(crate) spans: u64,
    pub(crate) passes: u64,
}

/// Does the work in so many rounds. `None` where a change can't be made.
pub(crate) fn run(alloc: Global, rounds: u16, work: Work) -> Result<Option<Done>, Memory> {
    match work {
        Work::Build(held) => build(alloc, rounds, held),
        Work::Edit(held) => edit(alloc, rounds, held),
        Work::Long(held) => build_long(alloc, rounds, held),
        Work::Ninth => ninth(alloc),
    }
}

fn counts(drawing: &Drawing) -> Done {
    let newest = drawing.newest();
    Done {
        changes: newest.number(),
        live: newest.count(),
        spans: newest.spans(),
        passes: newest.passes(),
    }
}

fn build(alloc: Global, rounds: u16, held: Held) -> Result<Option<Done>, Memory> {
    let mut drawing = Drawing::open(alloc)?;
    for _n in 0..rounds {
        drawing = Drawing::open(alloc)?;
        let mut serials = Serials::open(alloc);
        if !put_short(&mut drawing, &mut Draws::open(), &mut serials, held)? {
            return Ok(None);
        }
    }
    Ok(Some(counts(&drawing)))
}

fn build_long(alloc: Global, rounds: u16, held: Held) -> Result<Option<Done>, Memory> {
    let mut drawing = Drawing::open(alloc)?;
    for _n in 0..rounds {
        drawing = Drawing::open(alloc)?;
        if !put_long(&mut drawing, &mut Draws::open(), held)? {
            return Ok(None);
        }
    }
    Ok(Some(counts(&drawing)))
}

/// The drawing is built in place before the first round, and versions are held for a round.
fn edit(alloc: Global, rounds: u16, held: Held) -> Result<Option<Done>, Memory> {
    let mut drawing = Drawing::open(alloc)?;
    let mut draws = Draws::open();
    let mut serials = Serials::open(alloc);
    if !put_short(&mut drawing, &mut draws, &mut serials, Held::Newest)? {
        return Ok(None);
    }
    for _n in 0..rounds {
        if !edit_short(&mut drawing, &mut draws, &mut serials, held)? {
            return Ok(None);
        }
        drawing.let_go();
    }
    Ok(Some(counts(&drawing)))
}

fn ninth(alloc: Global) -> Result<Option<Done>, Memory> {
    let mut drawing = Drawing::open(alloc)?;
    let mut draws = Draws::open();
    for serial in 1..9 {
        if !drawing.insert(serial, draws.near(), Held::Newest)? {
            return Ok(None);
        }
    }
    if !put_ninth(&mut drawing, draws.near())? {
        return Ok(None);
    }
    Ok(Some(counts(&drawing)))
}

/// Puts a ninth segment in, once more where memory was wanting. `false` where it can't be put in, or
/// where want of memory left anything of it.
fn put_ninth(drawing: &mut Drawing, ends: (Point, Point)) -> Result<bool, Memory> {
    let before = drawing.checksum()?;
    match drawing.insert(9, ends, Held::Newest) {
        Ok(done) => Ok(done),
        Err(_) => {
            if drawing.checksum()? != before {
                return Ok(false);
            }
            drawing.insert(9, ends, Held::Newest)
        }
    }
}

/// Puts short segments in. `false` where one can't be put in.
fn put_short(
    drawing: &mut Drawing,
    draws: &mut Draws,
    serials: &mut Serials,
    held: Held,
) -> Result<bool, Memory> {
    for _n in 0..SHORT {
        let Some(serial) = serials.give()? else {
            return Ok(false);
        };
        if !drawing.insert(serial, draws.near(), held)? {
            return Ok(false);
        }
    }
    Ok(true)
}

/// Puts long segments in, with the serials from 1 on. `false` where one can't be put in.
fn put_long(drawing: &mut Drawing, draws: &mut Draws, held: Held) -> Result<bool, Memory> {
    for n in 0..LONG {
        if !drawing.insert(n + 1, draws.far(), held)? {
            return Ok(false);
        }
    }
    Ok(true)
}

/// The edits of a round. `false` where one can't be made.
fn edit_short(
    drawing: &mut Drawing,
    draws: &mut Draws,
    serials: &mut Serials,
    held: Held,
) -> Result<bool, Memory> {
    for _n in 0..EDITS / 2 {
        let Some(old) = serials.take_back(draws) else {
            return Ok(false);
        };
        if !drawing.delete(old, held)? {
            return Ok(false);
        }
        let Some(serial) = serials.give()? else {
            return Ok(false);
        };
        if !drawing.insert(serial, draws.near(), held)? {
            return Ok(false);
        }
    }
    Ok(true)
}
