//! The works: each answers counts that tell whether it was done.

ghost use Rattle.std.specs.Prelude.{◌^◌};
ghost use Rattle.grid_core.specs.Vector.{IsWithin};

use crate::drawing::Drawing;
use crate::draws::Draws;
use cell_map::{CellMap, Found};
use edge_bundle::locate;
use grid_core::{Edge, Memory, Place, Point};
use std::alloc::Global;

/// What is done in each round.
#[derive(Clone, Copy)]
pub(crate) enum Work {
    /// The strips are built, and one place is looked up.
    Build,
    /// 10,000 places are looked up by the strips.
    Find,
    /// 100 places are looked up by a scan.
    Scan,
}

impl Work {
    pub(crate) fn named(word: &str) -> Option<Work> {
        match word {
            "build" => Some(Work::Build),
            "find" => Some(Work::Find),
            "scan" => Some(Work::Scan),
            _ => None,
        }
    }
}

/// What the drawing has, and what was found.
#[derive(Clone, Copy)]
pub(crate) struct Counts {
    pub(crate) edges: usize,
    pub(crate) vertices: usize,
    /// How many query points lie between edges.
    pub(crate) between: u64,
    /// The sum of the columns at which the edges above and below begin, and of how wide the cells are,
    /// with what is beyond 64 bits left out.
    pub(crate) sum: i64,
}

impl Counts {
    fn count(&mut self, above: Option<Edge>, below: Option<Edge>, width: i64) {
        self.between = self.between.wrapping_add(1);
        self.sum = self.sum.wrapping_add(begin(above));
        self.sum = self.sum.wrapping_add(begin(below));
        self.sum = self.sum.wrapping_add(width);
    }

    fn count_found(&mut self, found: Found) {
        if let Found::Inside(cell) = found {
            self.count(cell.above, cell.below, cell.right.wrapping_sub(cell.left));
        }
    }

    fn count_place(&mut self, place: Place) {
        if let Place::Between { above, below } = place {
            self.count(above, below, 0);
        }
    }
}

/// The column at which an edge begins.
fn begin(edge: Option<Edge>) -> i64 {
    match edge {
        Some(e) => e.a().x,
        None => 0,
    }
}

/// Does the work so often, in a drawing of so many segments.
pub(crate) fn run(alloc: Global, rounds: u32, work: Work, segments: u16) -> Result<Counts, Memory> {
    let mut draws = Draws::open();
    let drawing = Drawing::make(alloc, &mut draws, segments)?;
    let mut counts = Counts {
        edges: drawing.planar.edges().len(),
        vertices: drawing.planar.vertices().len(),
        between: 0,
        sum: 0,
    };
    match work {
        Work::Build => build(alloc, rounds, &drawing, &mut draws, &mut counts)?,
        Work::Find => find(alloc, rounds, &drawing, &mut draws, &mut counts)?,
        Work::Scan => scan(rounds, &drawing, &mut draws, &mut counts),
    }
    Ok(counts)
}

fn build(
    alloc: Global,
    rounds: u32,
    drawing: &Drawing,
    draws: &mut Draws,
    counts: &mut Counts,
) -> Result<(), Memory> {
    for _n in 0..rounds {
        let cells = CellMap::build(alloc, &drawing.planar)?;
        counts.count_found(cells.find(draws.query_point()));
    }
    Ok(())
}

fn find(
    alloc: Global,
    rounds: u32,
    drawing: &Drawing,
    draws: &mut Draws,
    counts: &mut Counts,
) -> Result<(), Memory> {
    let cells = CellMap::build(alloc, &drawing.planar)?;
    for _n in 0..rounds {
        for _i in 0..10_000 {
            counts.count_found(cells.find(draws.query_point()));
        }
    }
    Ok(())
}

fn scan(rounds: u32, drawing: &Drawing, draws: &mut Draws, counts: &mut Counts) {
    for _n in 0..rounds {
        for _i in 0..100 {
            counts.count_place(place(drawing, draws.query_point()));
        }
    }
}

fn place(drawing: &Drawing, at: Point) -> Place
    requires { IsWithin (2 ^ 40) at }
{
    locate(&drawing.picture, at)
}
