//! One pass as a node of two lists, and the links from node to node.
ghost use Rattle.std.specs.Prelude.{◌≡◌, IsSome, IfSome};
ghost use Rattle.pass_links.specs.Nodes.{stored_at};
ghost use Rattle.pass_links.specs.Chain.{key_of};
ghost use Rattle.pass_links.specs.Node.{SetsAlong, SetsAcross, SetsBackAlong, SetsBackAcross};

use crate::nodes::{END, Nodes};
use grid_core::{Name, Point};

/// One pass of a segment through a hot pixel: a node of the segment's list and of the pixel's.
#[derive(Clone, Copy)]
pub(crate) struct Node {
    /// The segment.
    pub(crate) name: Name,
    /// The hot pixel.
    pub(crate) pixel: Point,
    /// The key of the next node in the segment's list, or `END`.
    pub(crate) next_of_segment: u32,
    /// The key of the node before it in the segment's list, or `END`.
    pub(crate) previous_of_segment: u32,
    /// The key of the next node in the pixel's list, or `END`.
    pub(crate) next_of_pixel: u32,
    /// The key of the node before it in the pixel's list, or `END`.
    pub(crate) previous_of_pixel: u32,
}

/// Sets what comes behind the node at `key` in its segment's list.
pub(crate) fn set_along(nodes: &mut Nodes, key: u32, next: u32)
    requires { IsSome (stored_at nodes.old.slots key) }
    ensures links { SetsAlong nodes.old.slots nodes.new.slots key next }
    ensures room { nodes.new.room ≡ nodes.old.room }
{
    let node = nodes.value(key);
    nodes.set(
        key,
        Node {
            next_of_segment: next,
            ..node
        },
    );
}

/// Sets what comes behind the node at `key` in its pixel's list.
pub(crate) fn set_across(nodes: &mut Nodes, key: u32, next: u32)
    requires { IsSome (stored_at nodes.old.slots key) }
    ensures links { SetsAcross nodes.old.slots nodes.new.slots key next }
    ensures room { nodes.new.room ≡ nodes.old.room }
{
    let node = nodes.value(key);
    nodes.set(
        key,
        Node {
            next_of_pixel: next,
            ..node
        },
    );
}

/// Sets what comes before the node at `key`, if it isn't `END`, in its segment's list.
pub(crate) fn set_back_along(nodes: &mut Nodes, key: u32, previous: u32)
    requires { IfSome (key_of key) (λ k. IsSome (stored_at nodes.old.slots k)) }
    ensures links { SetsBackAlong nodes.old.slots nodes.new.slots key previous }
    ensures room { nodes.new.room ≡ nodes.old.room }
{
    if key == END {
        return;
    }
    let node = nodes.value(key);
    nodes.set(
        key,
        Node {
            previous_of_segment: previous,
            ..node
        },
    );
}

/// Sets what comes before the node at `key`, if it isn't `END`, in its pixel's list.
pub(crate) fn set_back_across(nodes: &mut Nodes, key: u32, previous: u32)
    requires { IfSome (key_of key) (λ k. IsSome (stored_at nodes.old.slots k)) }
    ensures links { SetsBackAcross nodes.old.slots nodes.new.slots key previous }
    ensures room { nodes.new.room ≡ nodes.old.room }
{
    if key == END {
        return;
    }
    let node = nodes.value(key);
    nodes.set(
        key,
        Node {
            previous_of_pixel: previous,
            ..node
        },
    );
}
