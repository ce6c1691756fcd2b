//! Rows of steps: the passes of a segment through the hot pixels of a tile, in order along it.

ghost use Rattle.std.specs.Prelude.{◌≡◌, ◌+◌, ◌<◌, ◌≤◌, ◌^◌, [], not, OnOk};
ghost use Rattle.std.specs.Prelude.{length, take, drop, filter, slice_index_or, IsTrue, All};
ghost use Rattle.std.specs.Prelude.{unsigned_abs, ◌<ℤ◌, ◌≤ℤ◌};
ghost use Rattle.std.specs.Ordering.{nat_cmp, is_lt, MatchOrdering};
ghost use Rattle.std.specs.List.Sorted.{IsStrictlySortedBy};
ghost use Rattle.std.specs.BTreeSet.{insert_key};
ghost use Rattle.grid_core.specs.Vector.{IsWithin};
ghost use Rattle.hot_tile.specs.Frame.{lowest, pixel_at};
ghost use Rattle.hot_tile.specs.Spots.{keys};
ghost use Rattle.grid_core.specs.Segment.{IsSegment};
ghost use Rattle.grid_core.specs.Meets.{box_of};
ghost use Rattle.pixel_test.specs.Corners.{overlaps_of, shares_columns_of, shares_rows_of};
ghost use Rattle.hot_tile.specs.Steps.{meets_key, grown_row, thinned_row};
ghost use Rattle.hot_tile.specs.Steps.{StepFirst, SameStep, GoneFirst};

use crate::frame::{Frame, step_of};
use crate::rows::Rows;
use crate::spots::Spot;
use grid_core::{Memory, Point, Ur};
use pixel_test::meets_pixel;
use std::cmp::Ordering;

/// How many steps of a row, which stands in order, are lesser: where the step stands, or would stand.
fn index_of_step(row: &[u32], step: u32) -> usize
    requires { IsStrictlySortedBy nat_cmp row.now }
    ensures within { result ≤ length row.now }
    ensures lesser { take result row.now ≡ filter (λ k. is_lt (nat_cmp k step)) row.now }
    ensures others { drop result row.now ≡ filter (λ k. not (is_lt (nat_cmp k step))) row.now }
{
    row.partition_point(|k| *k < step)
}

/// Puts a step in its place into a row, where it isn't there yet.
pub(crate) fn put(row: &mut Vec<u32>, step: u32) -> Result<(), Memory>
    requires { IsStrictlySortedBy nat_cmp row.old.items }
    ensures { OnOk result (row.new.items ≡ insert_key nat_cmp row.old.items step) }
{
    let at = index_of_step(row, step);
    if at < row.len() && row[at] == step {
        return Ok(());
    }
    row.insert(at, step)?;
    Ok(())
}

/// How many of the pixels, given by their keys, come before the first that `u` meets.
pub(crate) fn first_met(frame: &Frame, u: &Ur, pixels: &[u32]) -> usize
    requires { IsWithin (2 ^ 30 + 2 ^ 16) (lowest frame.now) }
    ensures within { result ≤ length pixels.now }
    ensures before { filter (meets_key frame.now u.now) (take result pixels.now) ≡ [] }
    ensures met { result < length pixels.now
        → IsTrue (meets_key frame.now u.now (slice_index_or pixels.now result 0)) }
{
    let mut n = 0;
    'pixels: while n < pixels.len() && !meets_key(frame, u, pixels[n]) {
        n += 1;
    }
    n
}

/// Makes `row` the row of `u` with those of the pixels, given by their keys, that `u` meets.
pub(crate) fn grow_row(
    row: &mut Vec<u32>,
    frame: &Frame,
    u: &Ur,
    old: &[u32],
    pixels: &[u32],
) -> Result<(), Memory>
    requires rising { IsStrictlySortedBy nat_cmp old.now }
    requires near { IsWithin (2 ^ 30 + 2 ^ 16) (lowest frame.now) }
    ensures { OnOk result (row.new.items ≡ grown_row frame.now u.now old.now pixels.now) }
{
    row.clear();
    row.extend_from_slice(old)?;
    for key in pixels {
        if meets_key(frame, u, *key) {
            put(row, step_of(u, *key))?;
        }
    }
    Ok(())
}

/// How many of the hot pixels, which stand in order of key, lie left of the column `x`.
fn count_left(frame: &Frame, spots: &[Spot], x: i64) -> usize
    requires rising { IsStrictlySortedBy nat_cmp (keys spots.now) }
    requires small { unsigned_abs x ≤ 2 ^ 31 }
    ensures within { result ≤ length spots.now }
    ensures left { All (λ y. (pixel_at frame.now y.key).x <ℤ x) (take result spots.now) }
    ensures others { All (λ y. x ≤ℤ (pixel_at frame.now y.key).x) (drop result spots.now) }
{
    let column = frame.column_of(x);
    spots.partition_point(|y| i64::from(y.key / 65_536) < column)
}

/// Those of the hot pixels, which stand in order of key, that lie in the columns of `u`: it meets no
/// others.
fn in_columns<'a>(frame: &Frame, u: &Ur, spots: &'a [Spot]) -> &'a [Spot]
    requires rising { IsStrictlySortedBy nat_cmp (keys spots.now) }
    ensures { filter (meets_key frame.now u.now) (keys result.now)
        ≡ filter (meets_key frame.now u.now) (keys spots.now) }
{
    let spots = &spots[count_left(frame, spots, u.p().x)..];
    &spots[..count_left(frame, spots, u.q().x + 1)]
}

/// Makes `row` the row of `s` in a tile with these hot pixels.
pub(crate) fn make_row(
    row: &mut Vec<u32>,
    frame: &Frame,
    s: &Ur,
    spots: &[Spot],
) -> Result<(), Memory>
    requires rising { IsStrictlySortedBy nat_cmp (keys spots.now) }
    requires near { IsWithin (2 ^ 30 + 2 ^ 16) (lowest frame.now) }
    ensures { OnOk result (row.new.items ≡ grown_row frame.now s.now [] (keys spots.now)) }
{
    row.clear();
    for spot in in_columns(frame, s, spots) {
        if meets_key(frame, s, spot.key) {
            put(row, step_of(s, spot.key))?;
        }
    }
    Ok(())
}

/// Whether the segment meets the pixel with this key. The columns and rows from one end of the
/// segment to the other are looked at first, since few pixels lie in them.
#[inline(always)]
fn meets_key(frame: &Frame, u: &Ur, key: u32) -> bool
    requires { IsWithin (2 ^ 30 + 2 ^ 16) (lowest frame.now) }
    ensures { result ≡ meets_key frame.now u.now key }
{
    let h = frame.pixel_at(key);
    spans(u, h) && meets_pixel(u, h)
}

/// Whether the pixel lies in the columns and in the rows from one end of the segment to the other.
#[inline(always)]
fn spans(u: &Ur, h: Point) -> bool
    ensures value { result ≡ overlaps_of u.now (box_of h) }
    ensures kept { IsSegment (2 ^ 30) u.now }
{
    let p = u.p();
    let q = u.q();
    spans_columns(p.x, q.x, h) && spans_rows(p.y, q.y, h)
}

/// Whether the pixel lies in the columns from `left` to `right`.
#[inline(always)]
fn spans_columns(left: i64, right: i64, h: Point) -> bool
    ensures { result ≡ shares_columns_of left right (box_of h) }
{
    left <= h.x && h.x <= right
}

/// Whether the pixel lies in the rows from `a` to `b`, given in either order.
#[inline(always)]
fn spans_rows(a: i64, b: i64, h: Point) -> bool
    ensures { result ≡ shares_rows_of a b (box_of h) }
{
    a.min(b) <= h.y && h.y <= a.max(b)
}

/// Which of two steps of two rows, each in order, comes first.
#[inline(always)]
fn order(old: &[u32], i: usize, gone: &[u32], j: usize) -> Ordering
    requires rising { IsStrictlySortedBy nat_cmp old.now }
    requires gone_rising { IsStrictlySortedBy nat_cmp gone.now }
    requires within { i < length old.now }
    requires gone_within { j ≤ length gone.now }
    ensures { MatchOrdering result (StepFirst old.now i gone.now j)
        (SameStep old.now i gone.now j) (GoneFirst old.now i gone.now j) }
{
    if j == gone.len() {
        return Ordering::Less;
    }
    old[i].cmp(&gone[j])
}

/// Makes `row` the row without the steps that are gone. Both stand in order.
pub(crate) fn thin_row(row: &mut Vec<u32>, old: &[u32], gone: &[u32]) -> Result<(), Memory>
    requires rising { IsStrictlySortedBy nat_cmp old.now }
    requires gone_rising { IsStrictlySortedBy nat_cmp gone.now }
    ensures { OnOk result (row.new.items ≡ thinned_row gone.now old.now) }
{
    row.clear();
    let mut i = 0;
    let mut j = 0;
    'steps: while i < old.len() && j < gone.len() {
        match order(old, i, gone, j) {
            Ordering::Less => {
                row.push(old[i])?;
                i += 1;
            }
            Ordering::Equal => {
                i += 1;
                j += 1;
            }
            Ordering::Greater => j += 1,
        }
    }
    row.extend_from_slice(&old[i..])?;
    Ok(())
}
