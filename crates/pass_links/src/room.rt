//! Room for passes: what is left of it, and copies with more.
ghost use Rattle.std.specs.Prelude.{◌≡◌, ◌+◌, ◌-◌, ◌≤◌, min, IfOk};
ghost use Rattle.std.specs.Vec.{vec_len, vec_capacity};

use crate::heads::Head;
use crate::nodes::Nodes;
use grid_core::{Memory, Name, Point};

/// How many passes fit that need a node and two heads each.
pub(crate) fn room_left(
    nodes: &Nodes,
    segments: &Vec<Head<Name>>,
    pixels: &Vec<Head<Point>>,
) -> usize
    ensures { result ≡ min nodes.now.room
        (min (vec_capacity segments.now - vec_len segments.now)
        (vec_capacity pixels.now - vec_len pixels.now)) }
{
    let for_segments = segments.capacity() - segments.len();
    let for_pixels = pixels.capacity() - pixels.len();
    nodes.room().min(for_segments.min(for_pixels))
}

/// The same heads, with room for `more`.
pub(crate) fn copied<K: Copy>(heads: &Vec<Head<K>>, more: usize) -> Result<Vec<Head<K>>, Memory>
    ensures items { IfOk result (λ v. v.items ≡ heads.now.items) }
    ensures room { IfOk result (λ v. vec_len v + more ≤ vec_capacity v) }
{
    let capacity = heads.len().checked_add(more).ok_or(Memory)?;
    let mut copy = Vec::with_capacity(*heads.allocator(), capacity)?;
    copy.extend_from_slice(heads)?;
    Ok(copy)
}
