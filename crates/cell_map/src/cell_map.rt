//! The strips of a graph by their numbers.

use crate::Found;
use crate::arranged::{ArrangedStrip, arrange_all};
use crate::cell::strip_of;
use crate::exchange::{exchange, keep_all, strips_of};
use crate::fill::strips;
use crate::laws::strips_are_searchable;
use crate::strip::find_among;
use grid_core::{Memory, Point};
use planar_law::PlanarEdges;
use std::alloc::Global;
use std::collections::BTreeMap;
use std::marker::Model;

/// What lies in each strip of a graph.
#[derive(Drop)]
pub struct CellMap {
    alloc: Global,
    strips: BTreeMap<i64, ArrangedStrip>,
}

impl Model for CellMap {
    ghost use Rattle.cell_map.specs.Strips.{Strips};

    ghost Value = { Strips };

    ghost view = { λ m. m.strips.entries };
}

impl CellMap {
    ghost use Rattle.std.specs.Prelude.{◌≡◌, ◌^◌, All, IfOk, OnOk, OnErr};
    ghost use Rattle.grid_core.specs.Vector.{IsWithin};
    ghost use Rattle.grid_core.specs.Edge.{IsEdge};
    ghost use Rattle.grid_core.specs.Places.{strip_of};
    ghost use Rattle.planar_law.specs.PlanarEdges.{Graph};
    ghost use Rattle.cell_map.specs.Strips.{strip_in, strip_of_graph, AreStripsOf};
    ghost use Rattle.cell_map.specs.Strips.{HaveSame, AreRefreshed};
    ghost use Rattle.cell_map.specs.Found.{found_among};

    /// The strips of a graph.
    pub fn build(alloc: Global, planar: &PlanarEdges) -> Result<CellMap, Memory>
        ensures { IfOk result (AreStripsOf planar.now) }
    {
        strips_are_searchable(planar);
        let filled = strips(alloc, planar.vertices(), planar.edges())?;
        let strips = arrange_all(alloc, filled)?;
        Ok(CellMap { alloc, strips })
    }

    /// Makes the strips with these numbers those of a graph, and leaves the others. After `Memory` the
    /// same lies in each strip as before.
    pub fn refresh(&mut self, strips: &[i64], planar: &PlanarEdges) -> Result<(), Memory>
        ensures refreshed { OnOk result (AreRefreshed planar.now strips.now self.old self.new) }
        ensures same { OnErr result (HaveSame self.old self.new) }
    {
        strips_are_searchable(planar);
        let made = strips_of(self.alloc, strips, planar.vertices(), planar.edges())?;
        keep_all(self.alloc, &mut self.strips, strips)?;
        exchange(&mut self.strips, made);
        Ok(())
    }

    /// Where a query point, in 1/256 of a pixel, lies in its strip, with its cell. The point has no
    /// coordinate greater than 2^40 in size. Takes no memory.
    pub fn find(&self, at: Point) -> Found
        requires { IsWithin (2 ^ 40) at }
        ensures value { result ≡ found_among
            (strip_in self.now (strip_of 256 at)).vertices
            (strip_in self.now (strip_of 256 at)).edges at }
        ensures place { (g : Graph) → All IsEdge g.edges
            → strip_in self.now (strip_of 256 at) ≡ strip_of_graph g (strip_of 256 at)
            → result ≡ found_among g.vertices g.edges at }
    {
        self.find_in(strip_of(at), at)
    }

    /// Where a query point lies in a strip, with its cell.
    fn find_in(&self, k: i64, at: Point) -> Found
        requires { IsWithin (2 ^ 40) at }
        ensures { result ≡ found_among (strip_in self.now k).vertices (strip_in self.now k).edges at }
    {
        match self.strips.get(&k) {
            Some(strip) => strip.find(at),
            None => find_among(&[], &[], at),
        }
    }
}
