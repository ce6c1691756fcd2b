//! Nodes under 32-bit keys: their links in a slab, and their pixels beside.
ghost use Rattle.std.specs.Prelude.{◌≡◌, ◌+◌, ◌<◌, ◌≤◌, [], take, length, None, Some, IsSome, OnOk, IfOk};
ghost use Rattle.pass_links.specs.Chain.{end};
ghost use Rattle.pass_links.specs.Node.{pixel_at};
ghost use Rattle.pass_links.specs.Nodes.{stored_at, Changes, node_with};

#[cfg(test)]
mod tests;

use crate::node::Node;
use grid_core::{Memory, Name, Point};
use slab::Slab;
use std::alloc::Global;
use std::marker::Model;

/// No key: what stands for one where a list ends, and before it begins.
pub(crate) const END: u32 = u32::MAX;

/// What stands beside a vacant key.
const NO_PIXEL: Point = Point { x: 0, y: 0 };

/// What of a node lies in the slab: its segment, and its links.
///
/// Five words of 32 bits, so that an entry of the slab takes 24 bytes. The slab copies entries of
/// this size as fast as one block, and larger ones far slower: so the pixel lies beside.
#[derive(Clone, Copy)]
struct Links {
    name: Name,
    next_of_segment: u32,
    previous_of_segment: u32,
    next_of_pixel: u32,
    previous_of_pixel: u32,
}

impl Links {
    /// Those of this node.
    #[inline]
    fn of(node: &Node) -> Links
        ensures { node_with node.now.pixel result ≡ node.now }
    {
        Links {
            name: node.name,
            next_of_segment: node.next_of_segment,
            previous_of_segment: node.previous_of_segment,
            next_of_pixel: node.next_of_pixel,
            previous_of_pixel: node.previous_of_pixel,
        }
    }

    /// The node with these links and this pixel.
    #[inline]
    fn with_pixel(self, pixel: Point) -> Node
        ensures { result ≡ node_with pixel self }
    {
        Node {
            name: self.name,
            pixel,
            next_of_segment: self.next_of_segment,
            previous_of_segment: self.previous_of_segment,
            next_of_pixel: self.next_of_pixel,
            previous_of_pixel: self.previous_of_pixel,
        }
    }
}

/// Nodes, each under a key below `u32::MAX` that the slab picks.
///
/// ```text
///   key          0        1        2        3
///   links    [ 1.1 .. ]   -    [ 1.2 .. ]   -         room = 2
///   pixels     (0,0)    (0,0)    (3,1)    (0,0)
/// ```
#[derive(Drop)]
pub(crate) struct Nodes {
    /// The segment and the links of each node.
    links: Slab<Links>,
    /// A pixel for each key that the slab has room for. Under a vacant key it means nothing.
    pixels: Vec<Point>,
}

impl Model for Nodes {
    ghost use Rattle.std.specs.Prelude.{◌-◌};
    ghost use Rattle.slab.specs.Slab.{slab_len};
    ghost use Rattle.pass_links.specs.Nodes.{Slots, nodes_of, HasPixels};

    ghost Value = { Slots };

    ghost view = { λ s. record {
      slots = nodes_of s.links.slots s.pixels.items;
      room = s.links.capacity - slab_len s.links;
    } };

    ghost invariant = { λ s. HasPixels s.links s.pixels.items };
}

/// The same links under the same keys.
fn copied_links(links: &Slab<Links>) -> Result<Slab<Links>, Memory>
    ensures { IfOk result (λ copy. copy.slots ≡ links.now.slots) }
{
    Ok(links.clone()?)
}

/// How many keys the slab has room for. Memory where one would not be below `u32::MAX`.
fn key_count(links: &Slab<Links>) -> Result<usize, Memory>
    ensures all { IfOk result (λ count. count ≡ links.now.capacity) }
    ensures fits { IfOk result (λ count. count ≤ end) }
    ensures slots { IfOk result (λ count. length links.now.slots ≤ count) }
{
    let count = links.capacity();
    if count > END as usize {
        return Err(Memory);
    }
    Ok(count)
}

/// A copy of the pixels for this many keys: cut off where there are more, and filled up where there
/// are fewer.
fn copied_pixels(pixels: &Vec<Point>, count: usize) -> Result<Vec<Point>, Memory>
    ensures same { IfOk result (λ copy.
        take (length pixels.now.items) copy.items ≡ take count pixels.now.items) }
    ensures len { IfOk result (λ copy. length copy.items ≡ count) }
{
    let mut copy = Vec::with_capacity(*pixels.allocator(), count)?;
    copy.extend_from_slice(&pixels[..count.min(pixels.len())])?;
    copy.resize(count, NO_PIXEL)?;
    Ok(copy)
}

impl Nodes {
    /// No node. Takes no memory.
    pub(crate) fn new(alloc: Global) -> Nodes
        ensures slots { result.slots ≡ [] }
        ensures room { result.room ≡ 0 }
    {
        Nodes {
            links: Slab::new(alloc),
            pixels: Vec::new(alloc),
        }
    }

    /// How many more nodes fit without memory.
    pub(crate) fn room(&self) -> usize
        ensures { result ≡ self.now.room }
    {
        self.links.capacity() - self.links.len()
    }

    /// The node at `key`, if there is one.
    #[inline]
    pub(crate) fn get(&self, key: u32) -> Option<Node>
        ensures { result ≡ stored_at self.now.slots key }
    {
        let links = self.links.get(key as usize)?;
        Some(links.with_pixel(self.pixels[key as usize]))
    }

    /// The node at `key`.
    #[inline]
    pub(crate) fn value(&self, key: u32) -> Node
        requires { IsSome (stored_at self.now.slots key) }
        ensures { stored_at self.now.slots key ≡ Some result }
    {
        self.links[key as usize].with_pixel(self.pixels[key as usize])
    }

    /// Puts the node under a key that had none, and returns the key. Takes no memory.
    pub(crate) fn insert(&mut self, node: Node) -> u32
        requires { 1 ≤ self.old.room }
        ensures was_vacant { stored_at self.old.slots result ≡ None }
        ensures changes { Changes self.old.slots self.new.slots result (Some node) }
        ensures key { result < end }
        ensures room { self.new.room + 1 ≡ self.old.room }
    {
        let key = self.links.insert_reserved(Links::of(&node));
        self.pixels[key] = node.pixel;
        // Each key still has a pixel.
        prove!(self.links.capacity() == self.pixels.len());
        key as u32
    }

    /// Puts these links in place of those at `key`; the pixel stays.
    pub(crate) fn set(&mut self, key: u32, node: Node)
        requires stored { IsSome (stored_at self.old.slots key) }
        requires same_pixel { pixel_at self.old.slots key ≡ Some node.pixel }
        ensures changes { Changes self.old.slots self.new.slots key (Some node) }
        ensures key { key < end }
        ensures room { self.new.room ≡ self.old.room }
    {
        self.links[key as usize] = Links::of(&node);
    }

    /// Takes out the node at `key`.
    pub(crate) fn remove(&mut self, key: u32)
        requires { IsSome (stored_at self.old.slots key) }
        ensures changes { Changes self.old.slots self.new.slots key None }
        ensures key { key < end }
        ensures room { self.new.room ≡ self.old.room + 1 }
    {
        self.links.remove(key as usize);
    }

    /// Makes room for `more` nodes. The nodes stay, after want of memory too.
    /// Where the keys would run out, the answer is Memory as well.
    pub(crate) fn reserve(&mut self, more: usize) -> Result<(), Memory>
        ensures slots { self.new.slots ≡ self.old.slots }
        ensures room { OnOk result (more ≤ self.new.room) }
        ensures kept { self.old.room ≤ self.new.room }
    {
        if more <= self.room() {
            return Ok(());
        }
        // A copy grows: a slab that has too many keys could not be cut back.
        let mut links = copied_links(&self.links)?;
        links.reserve(more)?;
        let keys = key_count(&links)?;
        self.pixels.resize(keys, NO_PIXEL)?;
        self.links = links;
        Ok(())
    }

    /// The same nodes under the same keys, with room for `more`.
    pub(crate) fn copy_with_room(&self, more: usize) -> Result<Nodes, Memory>
        ensures slots { IfOk result (λ s. s.slots ≡ self.now.slots) }
        ensures room { IfOk result (λ s. more ≤ s.room) }
    {
        let mut links = copied_links(&self.links)?;
        links.reserve_exact(more)?;
        let keys = key_count(&links)?;
        let pixels = copied_pixels(&self.pixels, keys)?;
        Ok(Nodes { links, pixels })
    }
}
