//! Half-edges around their starts, and the link from each half-edge to its next.

ghost use Rattle.std.specs.Prelude.{◌≡◌, ◌+◌, ◌<◌, ◌↔◌, length, All, IfOk, IsTrue};
ghost use Rattle.std.specs.List.{IsDistinct};
ghost use Rattle.grid_core.specs.Contours.{half_edge_eq};
ghost use Rattle.face_trace.specs.HalfEdge.{twin_number};
ghost use Rattle.face_trace.specs.Spokes.{AreSpokes, AreNexts, Follows, IsRun};

use crate::half_edge::HalfEdge;
use grid_core::Memory;
use std::alloc::Global;

/// A half-edge with its number, as one of those around its start.
#[derive(Clone, Copy, Debug)]
pub(crate) struct Spoke {
    half: HalfEdge,
    number: usize,
}

/// The half-edges with their numbers, by their starts and at one start clockwise from straight up.
pub(crate) fn spokes_of(alloc: Global, halves: &[HalfEdge]) -> Result<Vec<Spoke>, Memory>
    requires { IsDistinct half_edge_eq halves.now }
    ensures { IfOk result (λ s. AreSpokes halves.now s.items) }
{
    let mut spokes = Vec::with_capacity(alloc, halves.len())?;
    for (number, half) in halves.iter().enumerate() {
        spokes.push(Spoke {
            half: *half,
            number,
        })?;
    }
    spokes.sort_unstable_by(|s: &Spoke, t: &Spoke| s.half.around(&t.half));
    Ok(spokes)
}

/// The number of each half-edge's next: a walk that comes in along the twin of a spoke goes out
/// along the spoke that follows it.
pub(crate) fn nexts_of(alloc: Global, spokes: &[Spoke]) -> Result<Vec<usize>, Memory>
    requires { All (λ s. twin_number s.number < length spokes.now) spokes.now }
    ensures { IfOk result (λ n. AreNexts spokes.now n.items) }
{
    let mut nexts = vec![in alloc; 0; spokes.len()]?;
    let mut first = 0;
    for i in 0..spokes.len() {
        first = first_of_start(spokes, first, i);
        let follower = follower(spokes, first, i);
        nexts[twin(spokes[i].number)] = spokes[follower].number;
    }
    Ok(nexts)
}

/// The index of the first spoke with the start of the one at `i`, where `first` is that of the one
/// before.
#[inline(always)]
fn first_of_start(spokes: &[Spoke], first: usize, i: usize) -> usize
    requires within { i < length spokes.now }
    requires run { IsRun spokes.now first i }
    ensures { IsRun spokes.now result (i + 1) }
{
    if have_one_start(&spokes[first], &spokes[i]) {
        first
    } else {
        i
    }
}

/// The index of the spoke that follows the one at `i`, where the first of its start is at `first`.
#[inline(always)]
fn follower(spokes: &[Spoke], first: usize, i: usize) -> usize
    requires within { i < length spokes.now }
    requires run { IsRun spokes.now first (i + 1) }
    ensures { Follows spokes.now i result }
{
    if i + 1 < spokes.len() && have_one_start(&spokes[i + 1], &spokes[i]) {
        i + 1
    } else {
        first
    }
}

/// Whether the two start at one point.
#[inline(always)]
fn have_one_start(s: &Spoke, t: &Spoke) -> bool
    ensures { IsTrue result ↔ (s.now.half.origin ≡ t.now.half.origin) }
{
    s.half.origin() == t.half.origin()
}

/// The number of a half-edge's twin: the half-edges of an edge have the numbers 2 i and 2 i + 1.
#[inline(always)]
fn twin(number: usize) -> usize
    ensures { result ≡ twin_number number }
{
    if number % 2 == 0 {
        number + 1
    } else {
        number - 1
    }
}
