//! What comes behind a node, or first, in the lists of segments and pixels; a node put at its place
//! in both, and one taken out of one of them.
ghost use Rattle.std.specs.Prelude.{◌≡◌, ◌+◌, ◌<◌, ◌≤◌, IfSome, IsSome, Option, Some, false};
ghost use Rattle.std.specs.Vec.{vec_len, vec_capacity};
ghost use Rattle.grid_core.specs.Name.{label_cmp, label_eq};
ghost use Rattle.grid_core.specs.Vector.{point_cmp, point_eq};
ghost use Rattle.grid_core.specs.declared.point.Point.{Point};
ghost use Rattle.pass_links.specs.Passes.{has_pixel};
ghost use Rattle.pass_links.specs.Chain.{end, IsFamily, IsPlace, LinksBack};
ghost use Rattle.pass_links.specs.Node.{along_at, across_at, back_along_at, back_across_at, name_at, pixel_at};
ghost use Rattle.pass_links.specs.Lists.{pixels_from};
ghost use Rattle.pass_links.specs.Heads.{Rise, segment_start, pixel_start};
ghost use Rattle.pass_links.specs.Nodes.{stored_at};
ghost use Rattle.pass_links.specs.Links.{PointsAlong, PointsAcross, TakesAlong, TakesAcross, HasHeadRoom, KeepsHeadRoom};
ghost use Rattle.pass_links.specs.Positions.{IsThrough, node_before, IsHeadBefore};
ghost use Rattle.pass_links.specs.Filing.{AreFiled, AreLonger};

use crate::heads::{Head, set_first};
use crate::node::{Node, set_across, set_along, set_back_across, set_back_along};
use crate::nodes::Nodes;
use crate::positions::{Before, Position, before_by_link, position_across};
use grid_core::{Name, Point};

/// Lets `next` come behind a node of the segment's list, or first in it. The head of a list that
/// becomes empty goes. Takes no memory.
pub(crate) fn point_along(
    nodes: &mut Nodes,
    segments: &mut Vec<Head<Name>>,
    name: Name,
    before: Before,
    next: u32,
)
    requires stored { IfSome (node_before before) (λ key. IsSome (stored_at nodes.old.slots key)) }
    requires rise { Rise label_cmp segments.old.items }
    requires head { IsHeadBefore label_cmp segments.old.items name before }
    requires room { HasHeadRoom (node_before before) (segment_start segments.old.items name)
        (vec_len segments.old) (vec_capacity segments.old) }
    ensures points { PointsAlong nodes.old.slots nodes.new.slots
        (segment_start segments.old.items) (segment_start segments.new.items) name
        (node_before before) next }
    ensures rise { Rise label_cmp segments.new.items }
    ensures room { nodes.new.room ≡ nodes.old.room }
    ensures heads { KeepsHeadRoom (node_before before) (segment_start segments.old.items name)
        (vec_len segments.old) (vec_len segments.new) }
    ensures heads_capacity { vec_capacity segments.new ≡ vec_capacity segments.old }
{
    match before {
        Before::Head(place) => set_first(segments, name, place, next),
        Before::Node(key) => set_along(nodes, key, next),
    }
}

/// Lets `next` come behind a node of the pixel's list, or first in it. The head of a list that
/// becomes empty goes. Takes no memory.
pub(crate) fn point_across(
    nodes: &mut Nodes,
    pixels: &mut Vec<Head<Point>>,
    pixel: Point,
    before: Before,
    next: u32,
)
    requires stored { IfSome (node_before before) (λ key. IsSome (stored_at nodes.old.slots key)) }
    requires rise { Rise point_cmp pixels.old.items }
    requires head { IsHeadBefore point_cmp pixels.old.items pixel before }
    requires room { HasHeadRoom (node_before before) (pixel_start pixels.old.items pixel)
        (vec_len pixels.old) (vec_capacity pixels.old) }
    ensures points { PointsAcross nodes.old.slots nodes.new.slots
        (pixel_start pixels.old.items) (pixel_start pixels.new.items) pixel
        (node_before before) next }
    ensures rise { Rise point_cmp pixels.new.items }
    ensures room { nodes.new.room ≡ nodes.old.room }
    ensures heads { KeepsHeadRoom (node_before before) (pixel_start pixels.old.items pixel)
        (vec_len pixels.old) (vec_len pixels.new) }
    ensures heads_capacity { vec_capacity pixels.new ≡ vec_capacity pixels.old }
{
    match before {
        Before::Head(place) => set_first(pixels, pixel, place, next),
        Before::Node(key) => set_across(nodes, key, next),
    }
}

/// Links the pass of this segment through this pixel: at this place in the segment's list, and by
/// name in the pixel's list. Gives the key of its node. Takes no memory.
pub(crate) fn link_at(
    nodes: &mut Nodes,
    segments: &mut Vec<Head<Name>>,
    pixels: &mut Vec<Head<Point>>,
    name: Name,
    pixel: Point,
    place: Position,
) -> u32
    requires by_name { Rise label_cmp segments.old.items }
    requires by_pixel { Rise point_cmp pixels.old.items }
    requires lists { AreFiled nodes.old.slots (segment_start segments.old.items)
        (pixel_start pixels.old.items) }
    requires place { IsPlace (along_at nodes.old.slots) (segment_start segments.old.items)
        (name_at nodes.old.slots) name (node_before place.before) place.at }
    requires head { IsHeadBefore label_cmp segments.old.items name place.before }
    requires fresh { has_pixel (pixels_from nodes.old.slots
        (segment_start segments.old.items name)) pixel ≡ false }
    requires room { 1 ≤ nodes.old.room }
    requires room_by_name { vec_len segments.old < vec_capacity segments.old }
    requires room_by_pixel { vec_len pixels.old < vec_capacity pixels.old }
    ensures lists { (after : Option Point)
        → IsThrough (pixel_at nodes.old.slots) after (node_before place.before)
        → AreLonger nodes.old.slots nodes.new.slots
        (segment_start segments.old.items) (segment_start segments.new.items)
        (pixel_start pixels.old.items) (pixel_start pixels.new.items) name pixel after }
    ensures next { IsPlace (along_at nodes.new.slots) (segment_start segments.new.items)
        (name_at nodes.new.slots) name (Some result) place.at }
    ensures through { pixel_at nodes.new.slots result ≡ Some pixel }
    ensures by_name { Rise label_cmp segments.new.items }
    ensures by_pixel { Rise point_cmp pixels.new.items }
    ensures capacity_by_name { vec_capacity segments.new ≡ vec_capacity segments.old }
    ensures capacity_by_pixel { vec_capacity pixels.new ≡ vec_capacity pixels.old }
    ensures room { nodes.new.room + 1 ≡ nodes.old.room }
    ensures len_by_name { vec_len segments.new ≤ vec_len segments.old + 1 }
    ensures len_by_pixel { vec_len pixels.new ≤ vec_len pixels.old + 1 }
{
    let across = position_across(nodes, pixels, pixel, name);
    let key = nodes.insert(Node {
        name,
        pixel,
        next_of_segment: place.at,
        previous_of_segment: place.before.link(),
        next_of_pixel: across.at,
        previous_of_pixel: across.before.link(),
    });
    point_along(nodes, segments, name, place.before, key);
    set_back_along(nodes, place.at, key);
    point_across(nodes, pixels, pixel, across.before, key);
    set_back_across(nodes, across.at, key);
    key
}

/// Takes out the node at `key`, and gives it. Its neighbours in its segment's list are linked to each
/// other; those in its pixel's list are as they were, for a caller that takes out all of that list.
/// Takes no memory.
pub(crate) fn take_along(nodes: &mut Nodes, segments: &mut Vec<Head<Name>>, key: u32) -> Node
    requires by_name { Rise label_cmp segments.old.items }
    requires lists { IsFamily label_eq (along_at nodes.old.slots)
        (segment_start segments.old.items) (name_at nodes.old.slots) end }
    requires back { LinksBack (along_at nodes.old.slots) (segment_start segments.old.items)
        (name_at nodes.old.slots) (back_along_at nodes.old.slots) }
    requires stored { IsSome (stored_at nodes.old.slots key) }
    ensures node { stored_at nodes.old.slots key ≡ Some result }
    ensures takes { TakesAlong nodes.old.slots nodes.new.slots
        (segment_start segments.old.items) (segment_start segments.new.items) key result }
    ensures by_name { Rise label_cmp segments.new.items }
    ensures room { nodes.new.room ≡ nodes.old.room + 1 }
    ensures len { vec_len segments.new ≤ vec_len segments.old }
    ensures capacity { vec_capacity segments.new ≡ vec_capacity segments.old }
{
    let node = nodes.value(key);
    nodes.remove(key);
    let before = before_by_link(segments, node.name, node.previous_of_segment);
    point_along(nodes, segments, node.name, before, node.next_of_segment);
    set_back_along(nodes, node.next_of_segment, node.previous_of_segment);
    node
}

/// Takes out the node at `key`, and gives it. Its neighbours in its pixel's list are linked to each
/// other; those in its segment's list are as they were, for a caller that takes out all of that list.
/// Takes no memory.
pub(crate) fn take_across(nodes: &mut Nodes, pixels: &mut Vec<Head<Point>>, key: u32) -> Node
    requires by_pixel { Rise point_cmp pixels.old.items }
    requires lists { IsFamily point_eq (across_at nodes.old.slots)
        (pixel_start pixels.old.items) (pixel_at nodes.old.slots) end }
    requires back { LinksBack (across_at nodes.old.slots) (pixel_start pixels.old.items)
        (pixel_at nodes.old.slots) (back_across_at nodes.old.slots) }
    requires stored { IsSome (stored_at nodes.old.slots key) }
    ensures node { stored_at nodes.old.slots key ≡ Some result }
    ensures takes { TakesAcross nodes.old.slots nodes.new.slots
        (pixel_start pixels.old.items) (pixel_start pixels.new.items) key result }
    ensures by_pixel { Rise point_cmp pixels.new.items }
    ensures room { nodes.new.room ≡ nodes.old.room + 1 }
    ensures len { vec_len pixels.new ≤ vec_len pixels.old }
    ensures capacity { vec_capacity pixels.new ≡ vec_capacity pixels.old }
{
    let node = nodes.value(key);
    nodes.remove(key);
    let before = before_by_link(pixels, node.pixel, node.previous_of_pixel);
    point_across(nodes, pixels, node.pixel, before, node.next_of_pixel);
    set_back_across(nodes, node.next_of_pixel, node.previous_of_pixel);
    node
}
