//! The walks along a segment's list and across a pixel's list.
ghost use Rattle.std.specs.Iterator.{YieldsFirst, item_count};

use crate::nodes::Nodes;
use grid_core::{Name, Point};
use std::marker::Model;

/// The pixels of a segment that are still to come, in the order of its list.
#[derive(Drop)]
pub struct Along<'a> {
    pub(crate) nodes: &'a Nodes,
    /// The key of the node that comes next, or `END`.
    pub(crate) at: u32,
}

impl<'a> Model for Along<'a> {
    ghost use Rattle.std.specs.Prelude.{List};
    ghost use Rattle.grid_core.specs.declared.point.Point.{Point};

    ghost Value = { List Point };

    ghost use Rattle.pass_links.specs.Lists.{IsWalkAlong, pixels_from};

    ghost view = { λ it. pixels_from it.nodes.now.slots it.at };

    ghost invariant = { λ it. IsWalkAlong it.nodes.now.slots it.at };
}

impl<'a> Iterator for Along<'a> {
    type Item = Point;

    ghost next_gives = { YieldsFirst (λ rest. rest) };

    ghost remaining = { item_count (λ rest. rest) };

    fn next(&mut self) -> Option<Point> {
        let node = self.nodes.get(self.at)?;
        self.at = node.next_of_segment;
        Some(node.pixel)
    }
}

/// The names of the segments through a pixel that are still to come, in order.
#[derive(Drop)]
pub struct Across<'a> {
    pub(crate) nodes: &'a Nodes,
    /// The key of the node that comes next, or `END`.
    pub(crate) at: u32,
}

impl<'a> Model for Across<'a> {
    ghost use Rattle.std.specs.Prelude.{List};
    ghost use Rattle.grid_core.specs.Name.{Label};

    ghost Value = { List Label };

    ghost use Rattle.pass_links.specs.Lists.{IsWalkAcross, names_from};

    ghost view = { λ it. names_from it.nodes.now.slots it.at };

    ghost invariant = { λ it. IsWalkAcross it.nodes.now.slots it.at };
}

impl<'a> Iterator for Across<'a> {
    type Item = Name;

    ghost next_gives = { YieldsFirst (λ rest. rest) };

    ghost remaining = { item_count (λ rest. rest) };

    fn next(&mut self) -> Option<Name> {
        let node = self.nodes.get(self.at)?;
        self.at = node.next_of_pixel;
        Some(node.name)
    }
}
