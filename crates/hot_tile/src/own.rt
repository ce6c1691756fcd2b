//! What a segment counts in a tile by its own: its ends, and its crossings with the others.

ghost use Rattle.std.specs.Prelude.{◌≡◌, ◌≤◌, ◌^◌, length, fold, All, OnOk};
ghost use Rattle.std.specs.Ordering.{nat_cmp};
ghost use Rattle.std.specs.List.Sorted.{IsStrictlySortedBy};
ghost use Rattle.hot_tile.specs.Spots.{counted, keys, IsSmall};
ghost use Rattle.hot_tile.specs.Own.{own_spots, end_spot, crossing_spot};

use crate::frame::Frame;
use crate::spots::{Spot, count};
use grid_core::{Memory, Point, Ur};
use rat_cross::{crossing, pixel};

/// Makes `own` what is counted in the tile at the ends of `s` and at its crossings with the segments.
/// `s` may be one of them, since it doesn't cross itself.
pub(crate) fn count_own(
    own: &mut Vec<Spot>,
    frame: &Frame,
    s: &Ur,
    segments: &[Ur],
) -> Result<(), Memory>
    requires { length segments.now ≤ 65536 }
    ensures { OnOk result (own.new.items ≡ own_spots frame.now segments.now s.now) }
{
    own.clear();
    count_end(own, frame, s.p())?;
    count_end(own, frame, s.q())?;
    for t in segments {
        count_crossing(own, frame, s, t)?;
    }
    Ok(())
}

/// Counts an end, if it lies in the tile.
fn count_end(own: &mut Vec<Spot>, frame: &Frame, end: Point) -> Result<(), Memory>
    requires rising { IsStrictlySortedBy nat_cmp (keys own.old.items) }
    requires small { All (IsSmall (2 ^ 31) (2 ^ 31)) own.old.items }
    ensures { OnOk result (own.new.items ≡ fold counted own.old.items (end_spot frame.now end)) }
{
    if let Some(key) = frame.key_of(end) {
        count(
            own,
            Spot {
                key,
                ends: 1,
                crossings: 0,
            },
        )?;
    }
    Ok(())
}

/// Counts the crossing of two segments, if they have one and its pixel lies in the tile.
fn count_crossing(own: &mut Vec<Spot>, frame: &Frame, s: &Ur, t: &Ur) -> Result<(), Memory>
    requires rising { IsStrictlySortedBy nat_cmp (keys own.old.items) }
    requires small { All (IsSmall (2 ^ 31) (2 ^ 31)) own.old.items }
    ensures { OnOk result
        (own.new.items ≡ fold counted own.old.items (crossing_spot frame.now s.now t.now)) }
{
    let Some(c) = crossing(s, t) else {
        return Ok(());
    };
    if let Some(key) = frame.key_of(pixel(&c)) {
        count(
            own,
            Spot {
                key,
                ends: 0,
                crossings: 1,
            },
        )?;
    }
    Ok(())
}
