//! The passes, and what links and unlinks them.
ghost use Rattle.std.specs.Prelude.{◌≡◌, ◌+◌, ◌≤◌, true, false, length, [], OnOk, IfOk, IfSome, IsTrue};
ghost use Rattle.grid_core.specs.Name.{Label, label_eq};
ghost use Rattle.grid_core.specs.Vector.{point_eq};
ghost use Rattle.grid_core.specs.declared.point.Point.{Point};
ghost use Rattle.pass_links.specs.Passes.{pixels_of, names_at, has_pixel, AreLinked};
ghost use Rattle.pass_links.specs.Passes.{linked_behind, run_behind, AreFresh, with_name, without_pixel, without_name};

use crate::heads::{Head, find, set_first};
use crate::links::{link_at, take_across, take_along};
use crate::lists::{Across, Along};
use crate::nodes::{END, Nodes};
use crate::positions::{Before, Position, position_across, position_behind};
use crate::room::{copied, room_left};
use grid_core::{Memory, Name, Point};
use std::alloc::Global;
use std::marker::Model;

/// The passes of segments through hot pixels: each segment has the list of its pixels, and each
/// pixel the list of the names of its segments. A name stands in a pixel's list exactly where the
/// pixel stands in the name's list.
#[derive(Drop)]
pub struct Passes {
    /// Each pass once: a node of its segment's list and of its pixel's list.
    nodes: Nodes,
    /// Where the lists of segments begin, by rising name.
    segments: Vec<Head<Name>>,
    /// Where the lists of pixels begin, by rising pixel.
    pixels: Vec<Head<Point>>,
    /// How many passes are sure of room for their node and for two heads.
    spare: usize,
}

impl Model for Passes {
    ghost use Rattle.std.specs.Prelude.{◌-◌, min};
    ghost use Rattle.std.specs.Vec.{vec_len, vec_capacity};
    ghost use Rattle.grid_core.specs.Name.{label_cmp};
    ghost use Rattle.grid_core.specs.Vector.{point_cmp};
    ghost use Rattle.pass_links.specs.Passes.{PassLists, pass_lists_code};

    ghost Value = { PassLists };

    ghost coded = { pass_lists_code };

    ghost use Rattle.pass_links.specs.Lists.{pixels_from, names_from};
    ghost use Rattle.pass_links.specs.Heads.{lists_of_heads};
    ghost use Rattle.pass_links.specs.Filing.{IsFiled};

    ghost view = { λ p. record {
      segments = lists_of_heads label_cmp (pixels_from p.nodes.slots) p.segments.items;
      pixels = lists_of_heads point_cmp (names_from p.nodes.slots) p.pixels.items;
      spare = p.spare;
    } };

    ghost invariant = { λ p. IsFiled p.nodes.slots p.segments.items p.pixels.items p.spare
        (min p.nodes.room
        (min (vec_capacity p.segments - vec_len p.segments)
        (vec_capacity p.pixels - vec_len p.pixels))) };
}

impl Passes {
    /// Nothing is linked. Takes no memory.
    pub fn open(alloc: Global) -> Passes
        ensures segments { (n : Label) → pixels_of result n ≡ [] }
        ensures pixels { (p : Point) → names_at result p ≡ [] }
    {
        Passes {
            nodes: Nodes::new(alloc),
            segments: Vec::new(alloc),
            pixels: Vec::new(alloc),
            spare: 0,
        }
    }

    /// Makes room for `more` passes, whatever their names and pixels.
    /// The lists stay, after want of memory too. `Memory` also where it would make room for more than
    /// 4,294,967,295 passes; room grows by doubling.
    pub fn reserve(&mut self, more: usize) -> Result<(), Memory>
        ensures segments { self.new.segments ≡ self.old.segments }
        ensures pixels { self.new.pixels ≡ self.old.pixels }
        ensures room { OnOk result (more ≤ self.new.spare) }
        ensures spare { self.old.spare ≤ self.new.spare }
    {
        self.nodes.reserve(more)?;
        self.segments.reserve(more)?;
        self.pixels.reserve(more)?;
        self.spare = room_left(&self.nodes, &self.segments, &self.pixels);
        Ok(())
    }

    /// How many passes are sure to be linked without memory, whatever their names and pixels.
    pub fn spare(&self) -> usize
        ensures { result ≡ self.now.spare }
    {
        self.spare
    }

    /// Whether the pass of this segment through this pixel is linked.
    pub fn has(&self, name: Name, pixel: Point) -> bool
        ensures { result ≡ has_pixel (pixels_of self.now name) pixel }
    {
        let place = position_across(&self.nodes, &self.pixels, pixel, name);
        match self.nodes.get(place.at) {
            Some(node) => node.name == name,
            None => false,
        }
    }

    /// The pixels of this segment, in the order of its list.
    pub fn along(&self, name: Name) -> Along<'_>
        ensures list { result ≡ pixels_of self.now name }
        ensures kept { AreLinked (pixels_of self.now) (names_at self.now) }
    {
        Along {
            nodes: &self.nodes,
            at: find(&self.segments, name).first,
        }
    }

    /// The names of the segments that pass through this pixel, in order.
    pub fn across(&self, pixel: Point) -> Across<'_>
        ensures list { result ≡ names_at self.now pixel }
        ensures kept { AreLinked (pixels_of self.now) (names_at self.now) }
    {
        Across {
            nodes: &self.nodes,
            at: find(&self.pixels, pixel).first,
        }
    }

    /// Links the pass of this segment through this pixel: in the segment's list right behind
    /// `after`, or first where there is none; in the pixel's list by the order of names.
    /// Takes no memory.
    pub fn link_between(&mut self, name: Name, pixel: Point, after: Option<Point>)
        requires room { 1 ≤ self.old.spare }
        requires behind { IfSome after (λ a. IsTrue (has_pixel (pixels_of self.old name) a)) }
        requires fresh { has_pixel (pixels_of self.old name) pixel ≡ false }
        ensures segment { pixels_of self.new name
            ≡ linked_behind after pixel (pixels_of self.old name) }
        ensures pixel { names_at self.new pixel ≡ with_name name (names_at self.old pixel) }
        ensures segments { (n : Label) → label_eq n name ≡ false
            → pixels_of self.new n ≡ pixels_of self.old n }
        ensures pixels { (p : Point) → point_eq p pixel ≡ false
            → names_at self.new p ≡ names_at self.old p }
        ensures spare { self.new.spare + 1 ≡ self.old.spare }
    {
        let place = position_behind(&self.nodes, &self.segments, &self.pixels, name, after);
        link_at(
            &mut self.nodes,
            &mut self.segments,
            &mut self.pixels,
            name,
            pixel,
            place,
        );
        self.spare -= 1;
    }

    /// Links the passes of this segment through these pixels: in the segment's list one behind the
    /// other, right behind `after`, or in front where there is none; in the pixels' lists by the
    /// order of names. Takes no memory.
    pub fn link_run(&mut self, name: Name, after: Option<Point>, run: &[Point])
        requires room { length run.now ≤ self.old.spare }
        requires behind { IfSome after (λ a. IsTrue (has_pixel (pixels_of self.old name) a)) }
        requires fresh { AreFresh run.now (pixels_of self.old name) }
        ensures segment { pixels_of self.new name
            ≡ run_behind after run.now (pixels_of self.old name) }
        ensures segments { (n : Label) → label_eq n name ≡ false
            → pixels_of self.new n ≡ pixels_of self.old n }
        ensures run { (p : Point) → has_pixel run.now p ≡ true
            → names_at self.new p ≡ with_name name (names_at self.old p) }
        ensures pixels { (p : Point) → has_pixel run.now p ≡ false
            → names_at self.new p ≡ names_at self.old p }
        ensures spare { self.new.spare + length run.now ≡ self.old.spare }
    {
        let mut place = position_behind(&self.nodes, &self.segments, &self.pixels, name, after);
        for pixel in run {
            let key = link_at(
                &mut self.nodes,
                &mut self.segments,
                &mut self.pixels,
                name,
                *pixel,
                place,
            );
            place = Position {
                before: Before::Node(key),
                at: place.at,
            };
        }
        self.spare -= run.len();
    }

    /// Unlinks all passes through this pixel. All others stay in their order. Takes no memory.
    pub fn unlink_pixel(&mut self, pixel: Point)
        ensures segments { (n : Label)
            → pixels_of self.new n ≡ without_pixel pixel (pixels_of self.old n) }
        ensures pixel { names_at self.new pixel ≡ [] }
        ensures pixels { (p : Point) → point_eq p pixel ≡ false
            → names_at self.new p ≡ names_at self.old p }
        ensures spare { self.old.spare ≤ self.new.spare }
    {
        let head = find(&self.pixels, pixel);
        if head.first == END {
            return;
        }
        let mut at = head.first;
        while at != END {
            let node = take_along(&mut self.nodes, &mut self.segments, at);
            at = node.next_of_pixel;
        }
        set_first(&mut self.pixels, pixel, head.place, END);
        self.spare = room_left(&self.nodes, &self.segments, &self.pixels);
    }

    /// Unlinks all passes of this segment. All others stay in their order. Takes no memory.
    pub fn unlink_segment(&mut self, name: Name)
        ensures segment { pixels_of self.new name ≡ [] }
        ensures segments { (n : Label) → label_eq n name ≡ false
            → pixels_of self.new n ≡ pixels_of self.old n }
        ensures pixels { (p : Point)
            → names_at self.new p ≡ without_name name (names_at self.old p) }
        ensures spare { self.old.spare ≤ self.new.spare }
    {
        let head = find(&self.segments, name);
        if head.first == END {
            return;
        }
        let mut at = head.first;
        while at != END {
            let node = take_across(&mut self.nodes, &mut self.pixels, at);
            at = node.next_of_segment;
        }
        set_first(&mut self.segments, name, head.place, END);
        self.spare = room_left(&self.nodes, &self.segments, &self.pixels);
    }

    /// The same lists.
    pub fn copy(&self) -> Result<Passes, Memory>
        ensures segments { IfOk result (λ p. p.segments ≡ self.now.segments) }
        ensures pixels { IfOk result (λ p. p.pixels ≡ self.now.pixels) }
    {
        self.copy_with_room(0)
    }

    /// The same lists, with room for `more` passes. `Memory` also where it would make room for more
    /// than 4,294,967,295 passes.
    pub fn copy_with_room(&self, more: usize) -> Result<Passes, Memory>
        ensures segments { IfOk result (λ p. p.segments ≡ self.now.segments) }
        ensures pixels { IfOk result (λ p. p.pixels ≡ self.now.pixels) }
        ensures room { IfOk result (λ p. more ≤ p.spare) }
    {
        let nodes = self.nodes.copy_with_room(more)?;
        let segments = copied(&self.segments, more)?;
        let pixels = copied(&self.pixels, more)?;
        let spare = room_left(&nodes, &segments, &pixels);
        Ok(Passes {
            nodes,
            segments,
            pixels,
            spare,
        })
    }
}
