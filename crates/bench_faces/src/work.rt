//! The works: each answers counts that tell whether it was done.

ghost use Rattle.face_trace.specs.Links.{AreEdgesInOrder};

use crate::streets::streets;
use face_trace::HalfEdges;
use grid_core::{Edge, Memory, Point};
use std::alloc::Global;

/// What is done in each round.
#[derive(Clone, Copy)]
pub(crate) enum Work {
    /// The half-edges of the streets are built, and one contour is walked.
    Build,
    /// The contour of each half-edge is walked.
    Contours,
}

impl Work {
    pub(crate) fn named(word: &str) -> Option<Work> {
        match word {
            "build" => Some(Work::Build),
            "contours" => Some(Work::Contours),
            _ => None,
        }
    }
}

/// What was walked.
#[derive(Clone, Copy)]
pub(crate) struct Counts {
    /// How many contours, each once.
    pub(crate) contours: u64,
    /// How many points all walks have.
    pub(crate) points: u64,
    /// How many walks have an area above 0.
    pub(crate) areas: u64,
}

/// Does the work so often.
pub(crate) fn run(alloc: Global, rounds: u32, work: Work) -> Result<Counts, Memory> {
    let edges = streets(alloc)?;
    let mut counts = Counts {
        contours: 0,
        points: 0,
        areas: 0,
    };
    if HalfEdges::takes(&edges) {
        match work {
            Work::Build => build(alloc, rounds, &edges, &mut counts)?,
            Work::Contours => walk(alloc, rounds, &edges, &mut counts)?,
        }
    }
    Ok(counts)
}

fn build(alloc: Global, rounds: u32, edges: &[Edge], counts: &mut Counts) -> Result<(), Memory>
    requires { AreEdgesInOrder edges.now }
{
    for _n in 0..rounds {
        let half_edges = HalfEdges::build(alloc, edges)?;
        if let Some(edge) = edges.first() {
            count(&half_edges, edge.a(), edge.b(), counts)?;
        }
    }
    Ok(())
}

fn walk(alloc: Global, rounds: u32, edges: &[Edge], counts: &mut Counts) -> Result<(), Memory>
    requires { AreEdgesInOrder edges.now }
{
    let half_edges = HalfEdges::build(alloc, edges)?;
    for _n in 0..rounds {
        for edge in edges {
            count(&half_edges, edge.a(), edge.b(), counts)?;
            count(&half_edges, edge.b(), edge.a(), counts)?;
        }
    }
    Ok(())
}

fn count(half_edges: &HalfEdges, u: Point, v: Point, counts: &mut Counts) -> Result<(), Memory> {
    if let Some(contour) = half_edges.contour(u, v)? {
        if contour.points.first() == Some(&u) && contour.points.get(1) == Some(&v) {
            counts.contours = counts.contours.wrapping_add(1);
        }
        if contour.area2 > 0 {
            counts.areas = counts.areas.wrapping_add(1);
        }
        counts.points = counts.points.wrapping_add(contour.points.len() as u64);
    }
    Ok(())
}
