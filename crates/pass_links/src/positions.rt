//! Where a pass stands in a list, or would stand.
ghost use Rattle.std.specs.Prelude.{◌≡◌, IsTrue, IfSome};
ghost use Rattle.std.specs.List.Sorted.{IsStrictlySortedBy};
ghost use Rattle.grid_core.specs.Name.{label_cmp, label_eq};
ghost use Rattle.grid_core.specs.Vector.{point_cmp, point_eq};
ghost use Rattle.pass_links.specs.Passes.{has_pixel, has_name};
ghost use Rattle.pass_links.specs.Chain.{end, IsFamily, is_of, IsPlace, key_of, link_to};
ghost use Rattle.pass_links.specs.Node.{along_at, across_at, name_at, pixel_at};
ghost use Rattle.pass_links.specs.Heads.{Rise, segment_start, pixel_start};
ghost use Rattle.pass_links.specs.Lists.{pixels_from, names_from};
ghost use Rattle.pass_links.specs.Positions.{IsLesser, IsAtName, IsThrough, node_before, IsHeadBefore};
ghost use Rattle.pass_links.specs.Filing.{AreFiled};

use crate::heads::{Head, find};
use crate::nodes::{END, Nodes};
use crate::owner::Owner;
use grid_core::{Name, Point};

/// What comes before a place in a list, and has the link to it.
#[derive(Clone, Copy)]
pub(crate) enum Before {
    /// The list's head: where it stands among the heads, or would stand.
    Head(Result<usize, usize>),
    /// The node of this key.
    Node(u32),
}

impl Before {
    /// The link to it: the key of the node, or `END` for the list's head.
    pub(crate) fn link(self) -> u32
        ensures { result ≡ link_to (node_before self) }
    {
        match self {
            Before::Head(_) => END,
            Before::Node(key) => key,
        }
    }
}

/// A place in a list.
#[derive(Clone, Copy)]
pub(crate) struct Position {
    /// What comes before it.
    pub(crate) before: Before,
    /// The key of the node there, or `END`.
    pub(crate) at: u32,
}

/// What comes before a node with this link back, in the list of this segment or pixel.
pub(crate) fn before_by_link<K: Owner>(heads: &[Head<K>], of: K, previous: u32) -> Before
    requires { Rise K.cmp heads.now }
    ensures node { node_before result ≡ key_of previous }
    ensures head { IsHeadBefore K.cmp heads.now of result }
{
    if previous == END {
        return Before::Head(find(heads, of).place);
    }
    Before::Node(previous)
}

/// The first node in the pixel's list whose name isn't less than this one, or the list's end.
pub(crate) fn position_across(
    nodes: &Nodes,
    pixels: &[Head<Point>],
    pixel: Point,
    name: Name,
) -> Position
    requires by_pixel { Rise point_cmp pixels.now }
    requires lists { IsFamily point_eq (across_at nodes.now.slots) (pixel_start pixels.now)
        (pixel_at nodes.now.slots) end }
    requires by_name { IsStrictlySortedBy label_cmp
        (names_from nodes.now.slots (pixel_start pixels.now pixel)) }
    ensures place { IsPlace (across_at nodes.now.slots) (pixel_start pixels.now)
        (pixel_at nodes.now.slots) pixel (node_before result.before) result.at }
    ensures head { IsHeadBefore point_cmp pixels.now pixel result.before }
    ensures lesser { IsLesser (name_at nodes.now.slots) name (node_before result.before) }
    ensures here { IsAtName (name_at nodes.now.slots) name result.at }
    ensures found { has_name (names_from nodes.now.slots (pixel_start pixels.now pixel)) name
        ≡ is_of label_eq name (name_at nodes.now.slots result.at) }
{
    let head = find(pixels, pixel);
    let mut position = Position {
        before: Before::Head(head.place),
        at: head.first,
    };
    while let Some(node) = nodes.get(position.at) {
        if node.name >= name {
            break;
        }
        position = Position {
            before: Before::Node(position.at),
            at: node.next_of_pixel,
        };
    }
    position
}

/// Where a pass of this segment goes that is put right behind its pass through `after`, or in front
/// of its other passes.
pub(crate) fn position_behind(
    nodes: &Nodes,
    segments: &[Head<Name>],
    pixels: &[Head<Point>],
    name: Name,
    after: Option<Point>,
) -> Position
    requires by_name { Rise label_cmp segments.now }
    requires by_pixel { Rise point_cmp pixels.now }
    requires lists { AreFiled nodes.now.slots (segment_start segments.now)
        (pixel_start pixels.now) }
    requires behind { IfSome after (λ a. IsTrue
        (has_pixel (pixels_from nodes.now.slots (segment_start segments.now name)) a)) }
    ensures place { IsPlace (along_at nodes.now.slots) (segment_start segments.now)
        (name_at nodes.now.slots) name (node_before result.before) result.at }
    ensures head { IsHeadBefore label_cmp segments.now name result.before }
    ensures through { IsThrough (pixel_at nodes.now.slots) after (node_before result.before) }
{
    match after {
        None => {
            let head = find(segments, name);
            Position {
                before: Before::Head(head.place),
                at: head.first,
            }
        }
        Some(after) => {
            let before = position_across(nodes, pixels, after, name).at;
            Position {
                before: Before::Node(before),
                at: nodes.value(before).next_of_segment,
            }
        }
    }
}
