//! The walk from column to column.

ghost use Rattle.std.specs.Prelude.{◌≡◌, ◌+◌, ◌≤◌, ◌^◌, ◌++◌, pos, ◌<ℤ◌, ◌≤ℤ◌, ◌+ℤ◌, ◌-ℤ◌};
ghost use Rattle.std.specs.Prelude.{vec_len, vec_capacity};
ghost use Rattle.std.specs.Prelude.{OnOk, OnErr, IfOk, unsigned_abs};
ghost use Rattle.std.specs.Int.{int_gap, int_div_euclid};
ghost use Rattle.grid_core.specs.Profile.{IsProfile};
ghost use Rattle.grid_core.specs.Vector.{IsWithin};
ghost use Rattle.grid_core.specs.Segment.{IsSegment};
ghost use Rattle.grid_core.specs.Tiles.{along, falls, tile_of};
ghost use Rattle.tile_walk.specs.Columns.{column_up, column_down, column_from, rows_from};
ghost use Rattle.tile_walk.specs.Columns.{most_tiles, before};
ghost use Rattle.tile_walk.specs.Borders.{IsEntry};

use crate::border::Rise;
use grid_core::{Memory, Point, Profile, TileId, Ur};
use std::alloc::Global;

/// The tiles that the segment meets, in the order in which it meets them from p to q: by column, and
/// in one column by row, upwards, or downwards where the segment falls.
#[inline]
pub fn tiles(alloc: Global, s: &Ur, profile: &Profile) -> Result<Vec<TileId>, Memory>
    ensures { IfOk result (λ ts. ts.items ≡ along profile.now s.now) }
{
    let mut met = Vec::new(alloc);
    push_tiles(&mut met, s, profile)?;
    Ok(met)
}

/// Puts the tiles that the segment meets to the end of a list, in the order of [`tiles`]: for callers
/// who ask for the tiles of many segments, and use one list again and again.
/// Memory is asked for once, at the start. After `Memory` the list is as before.
pub fn push_tiles(out: &mut Vec<TileId>, s: &Ur, profile: &Profile) -> Result<(), Memory>
    ensures whole { OnOk result (out.new.items ≡ out.old.items ++ along profile.now s.now) }
    ensures memory { OnErr result (out.new.items ≡ out.old.items) }
{
    let _side = profile.side();
    let first = tile_at(profile, s.p());
    let last = tile_at(profile, s.q());
    out.reserve(most_tiles(first, last))?;
    if first.i == last.i {
        push_column(out, is_falling(s), last.i, first.j, last.j);
        return Ok(());
    }
    let entry = push_columns(out, s, profile, first, last);
    push_column(out, is_falling(s), last.i, entry, last.j);
    Ok(())
}

/// The tile in which a pixel lies, of coordinates up to 2^30 in size.
#[inline(always)]
fn tile_at(profile: &Profile, at: Point) -> TileId
    requires { IsWithin (2 ^ 30) at }
    ensures { result ≡ tile_of profile.now at }
{
    let side = profile.side();
    TileId {
        i: index_of(at.x, side),
        j: index_of(at.y, side),
    }
}

/// The column, or the row, of tiles in which a coordinate up to 2^30 in size lies.
#[inline(always)]
fn index_of(coordinate: i64, side: i64) -> i32
    requires positive { pos 0 <ℤ side }
    requires within { unsigned_abs coordinate ≤ 2 ^ 30 }
    ensures { result ≡ int_div_euclid coordinate side }
{
    coordinate.div_euclid(side) as i32
}

/// Puts the tiles of the columns before the last one to the end of a list that has room for all tiles.
/// Answers the row in which the segment enters the last column.
#[inline(always)]
fn push_columns(
    out: &mut Vec<TileId>,
    s: &Ur,
    profile: &Profile,
    first: TileId,
    last: TileId,
) -> i32
    requires sizes { IsProfile profile.now }
    requires segment { IsSegment (2 ^ 30) s.now }
    requires first_is { first ≡ tile_of profile.now s.now.p }
    requires last_is { last ≡ tile_of profile.now s.now.q }
    requires several { first.i <ℤ last.i }
    requires room { vec_len out.old + most_tiles first last ≤ vec_capacity out.old }
    ensures entry { IsEntry profile.now s.now last.i result }
    ensures items { out.new.items ≡ out.old.items ++ before last.i (along profile.now s.now) }
    ensures room { vec_len out.new + most_tiles (record { i = last.i; j = result }) last
        ≤ vec_capacity out.new }
{
    let falls = is_falling(s);
    let rise = Rise::of(s, profile);
    let mut border = rise.first_border(s, profile, i64::from(first.i) + 1);
    let mut entry = first.j;
    let mut i = first.i;
    while i < last.i {
        push_column(out, falls, i, entry, border.exit_row(falls) as i32);
        entry = border.row as i32;
        border = rise.next_border(border);
        i += 1;
    }
    entry
}

/// Whether the segment runs downwards from p to q.
#[inline(always)]
fn is_falling(s: &Ur) -> bool
    ensures value { result ≡ falls s.now }
    ensures kept { IsSegment (2 ^ 30) s.now }
{
    s.q().y < s.p().y
}

/// Puts the tiles of one column, from one row to another, to the end of a list that has room for them.
#[inline(always)]
fn push_column(out: &mut Vec<TileId>, falls: bool, column: i32, from: i32, to: i32)
    requires { vec_len out.old + rows_from falls from to ≤ vec_capacity out.old }
    ensures items { out.new.items ≡ out.old.items ++ column_from falls column from to }
    ensures len { vec_len out.new ≡ vec_len out.old + rows_from falls from to }
    ensures capacity { vec_capacity out.new ≡ vec_capacity out.old }
{
    if falls {
        push_down(out, column, from, to);
    } else {
        push_up(out, column, from, to);
    }
}

/// Puts the tiles of a column from row `low` up to row `high` to the end of a list that has room for
/// them.
#[inline(always)]
fn push_up(out: &mut Vec<TileId>, column: i32, low: i32, high: i32)
    requires { vec_len out.old + int_gap low (high +ℤ pos 1) ≤ vec_capacity out.old }
    ensures items { out.new.items ≡ out.old.items ++ column_up column low high }
    ensures len { vec_len out.new ≡ vec_len out.old + int_gap low (high +ℤ pos 1) }
    ensures capacity { vec_capacity out.new ≡ vec_capacity out.old }
{
    for k in 0..rows_between(low, high) {
        out.push_reserved(tile_above(column, low, k));
    }
}

/// Puts the tiles of a column from row `high` down to row `low` to the end of a list that has room for
/// them.
#[inline(always)]
fn push_down(out: &mut Vec<TileId>, column: i32, high: i32, low: i32)
    requires { vec_len out.old + int_gap low (high +ℤ pos 1) ≤ vec_capacity out.old }
    ensures items { out.new.items ≡ out.old.items ++ column_down column high low }
    ensures len { vec_len out.new ≡ vec_len out.old + int_gap low (high +ℤ pos 1) }
    ensures capacity { vec_capacity out.new ≡ vec_capacity out.old }
{
    for k in 0..rows_between(low, high) {
        out.push_reserved(tile_below(column, high, k));
    }
}

/// The tile of a column that is so many rows above another row.
#[inline(always)]
fn tile_above(column: i32, low: i32, rows: usize) -> TileId
    requires { (low +ℤ pos rows) <ℤ pos (2 ^ 31) }
    ensures { result ≡ record { i = column; j = low +ℤ pos rows } }
{
    TileId {
        i: column,
        j: (i64::from(low) + rows as i64) as i32,
    }
}

/// The tile of a column that is so many rows below another row.
#[inline(always)]
fn tile_below(column: i32, high: i32, rows: usize) -> TileId
    requires { pos 0 ≤ℤ (pos (2 ^ 31) +ℤ (high -ℤ pos rows)) }
    ensures { result ≡ record { i = column; j = high -ℤ pos rows } }
{
    TileId {
        i: column,
        j: (i64::from(high) - rows as i64) as i32,
    }
}

/// How many rows there are from one to another, none where the second is below the first.
#[inline(always)]
fn rows_between(low: i32, high: i32) -> usize
    ensures { result ≡ int_gap low (high +ℤ pos 1) }
{
    if high < low {
        0
    } else {
        (i64::from(high) - i64::from(low) + 1) as usize
    }
}

/// How many tiles a segment meets at most from one tile to another: one, and one more for each column and for
/// each row that it goes on.
#[inline(always)]
fn most_tiles(first: TileId, last: TileId) -> usize
    ensures { result ≡ most_tiles first last }
{
    last.i.abs_diff(first.i) as usize + last.j.abs_diff(first.j) as usize + 1
}
