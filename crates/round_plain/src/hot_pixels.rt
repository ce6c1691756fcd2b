//! The hot pixels of a list of segments, with the counts of the ends and crossings in each.

ghost use Rattle.std.specs.Prelude.{◌≡◌, ◌≤◌, ◌<◌, ◌^◌, ◌++◌, length, map, filter_map};
ghost use Rattle.std.specs.Prelude.{unwrap_or, All, IfSome, IfOk, OnOk};
ghost use Rattle.std.specs.BTreeMap.{get};
ghost use Rattle.grid_core.specs.Vector.{IsWithin, point_cmp};
ghost use Rattle.grid_core.specs.Segment.{IsSegment};
ghost use Rattle.grid_core.specs.Rounding.{end_points, crossing_pixel, crossing_pixels};
ghost use Rattle.grid_core.specs.Rounding.{hot, vertex_at};
ghost use Rattle.round_plain.specs.HotPixels.{tallies, no_tally};

use grid_core::{Memory, Point, Ur, Vertex};
use rat_cross::{crossing, pixel};
use std::alloc::Global;
use std::collections::BTreeMap;

/// The hot pixels of at most 65,536 segments, in order.
pub(crate) fn hot_pixels(alloc: Global, segments: &[Ur]) -> Result<Vec<Vertex>, Memory>
    requires { length segments.now ≤ 65536 }
    ensures value { IfOk result (λ vs. vs.items ≡ map (vertex_at segments.now) (hot segments.now)) }
    ensures within { IfOk result (λ vs. All (λ v. IsWithin (2 ^ 30) v.at) vs.items) }
{
    let ends = end_points(alloc, segments)?;
    let crossings = crossing_pixels(alloc, segments)?;
    tallies(alloc, &ends, &crossings)
}

/// The ends of the segments, as often as they are ends.
fn end_points(alloc: Global, segments: &[Ur]) -> Result<Vec<Point>, Memory>
    ensures value { IfOk result (λ ends. ends.items ≡ end_points segments.now) }
    ensures within { IfOk result (λ ends. All (IsWithin (2 ^ 30)) ends.items) }
    ensures kept { OnOk result (All (IsSegment (2 ^ 30)) segments.now) }
{
    let mut ends = Vec::new(alloc);
    for s in segments {
        ends.push(s.p())?;
        ends.push(s.q())?;
    }
    Ok(ends)
}

/// The pixels of the crossings, one for each pair of segments that cross.
fn crossing_pixels(alloc: Global, segments: &[Ur]) -> Result<Vec<Point>, Memory>
    requires { All (IsSegment (2 ^ 30)) segments.now }
    ensures value { IfOk result (λ found. found.items ≡ crossing_pixels segments.now) }
    ensures within { IfOk result (λ found. All (IsWithin (2 ^ 30)) found.items) }
{
    let mut found = Vec::new(alloc);
    for (i, s) in segments.iter().enumerate() {
        push_crossings(&mut found, s, &segments[i + 1..])?;
    }
    Ok(found)
}

/// Appends the pixels of the crossings of `s` with each of the others.
fn push_crossings(found: &mut Vec<Point>, s: &Ur, others: &[Ur]) -> Result<(), Memory>
    requires first { IsSegment (2 ^ 30) s.now }
    requires others { All (IsSegment (2 ^ 30)) others.now }
    requires within { All (IsWithin (2 ^ 30)) found.old.items }
    ensures value { OnOk result
        (found.new.items ≡ found.old.items ++ filter_map (crossing_pixel s.now) others.now) }
    ensures within { OnOk result (All (IsWithin (2 ^ 30)) found.new.items) }
{
    for t in others {
        if let Some(h) = crossing_pixel(s, t) {
            found.push(h)?;
        }
    }
    Ok(())
}

/// The pixel of the crossing of two segments. `None` where they have none.
#[inline(always)]
fn crossing_pixel(s: &Ur, t: &Ur) -> Option<Point>
    ensures value { result ≡ crossing_pixel s.now t.now }
    ensures within { IsSegment (2 ^ 30) s.now → IsSegment (2 ^ 30) t.now
        → IfSome result (IsWithin (2 ^ 30)) }
{
    crossing(s, t).map(|c| pixel(&c))
}

/// The pixels of both lists in order, each once and with its two counts.
fn tallies(alloc: Global, ends: &[Point], crossings: &[Point]) -> Result<Vec<Vertex>, Memory>
    requires few_ends { length ends.now < 2 ^ 32 }
    requires few_crossings { length crossings.now < 2 ^ 32 }
    requires ends_within { All (IsWithin (2 ^ 30)) ends.now }
    requires crossings_within { All (IsWithin (2 ^ 30)) crossings.now }
    ensures value { IfOk result (λ vs. vs.items ≡ tallies ends.now crossings.now) }
    ensures within { IfOk result (λ vs. All (λ v. IsWithin (2 ^ 30) v.at) vs.items) }
{
    let mut counted = BTreeMap::new(alloc);
    for end in ends {
        let mut tally = tally_at(&counted, *end);
        tally.ends += 1;
        counted.insert(*end, tally)?;
    }
    for crossing in crossings {
        let mut tally = tally_at(&counted, *crossing);
        tally.crossings += 1;
        counted.insert(*crossing, tally)?;
    }
    Ok(counted.into_values().collect(alloc)?)
}

/// What was counted at this pixel.
fn tally_at(counted: &BTreeMap<Point, Vertex>, at: Point) -> Vertex
    ensures { result ≡ unwrap_or (get point_cmp counted.now at) (no_tally at) }
{
    match counted.get(&at) {
        Some(tally) => *tally,
        None => Vertex {
            at,
            ends: 0,
            crossings: 0,
        },
    }
}
