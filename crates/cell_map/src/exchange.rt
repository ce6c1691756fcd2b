//! Strips made anew, and put in the place of those that there were.

ghost use Rattle.std.specs.Prelude.{◌≡◌, ◌^◌, ℤ, All, IfOk, OnOk};
ghost use Rattle.grid_core.specs.Vector.{IsWithin};
ghost use Rattle.place_test.specs.Reach.{IsEdgeWithin};
ghost use Rattle.cell_map.specs.Strips.{strip_in, HaveSame, Changes};
ghost use Rattle.cell_map.specs.Arranged.{HasSearchableStrips};
ghost use Rattle.cell_map.specs.Exchange.{numbered, exchanged, IsKept};

use crate::arranged::ArrangedStrip;
use crate::strip::Strip;
use grid_core::{Edge, Memory, Point};
use std::alloc::Global;
use std::collections::BTreeMap;

/// The strips of a graph with these numbers, in the numbers' order.
pub(crate) fn strips_of(
    alloc: Global,
    numbers: &[i64],
    vertices: &[Point],
    edges: &[Edge],
) -> Result<Vec<(i64, ArrangedStrip)>, Memory>
    requires vertices_within { All (IsWithin (2 ^ 30)) vertices.now }
    requires edges_within { All (IsEdgeWithin (2 ^ 30)) edges.now }
    requires searchable { HasSearchableStrips
        (record { edges = edges.now; vertices = vertices.now }) }
    ensures { IfOk result (λ made. made.items
        ≡ numbered (record { edges = edges.now; vertices = vertices.now }) numbers.now) }
{
    let mut made = Vec::new(alloc);
    for k in numbers {
        let strip = Strip::of(alloc, *k, vertices, edges)?.arrange(alloc, *k)?;
        made.push((*k, strip))?;
    }
    Ok(made)
}

/// Puts a strip in which nothing lies wherever one of these is left out.
pub(crate) fn keep_all(
    alloc: Global,
    strips: &mut BTreeMap<i64, ArrangedStrip>,
    numbers: &[i64],
) -> Result<(), Memory>
    ensures same { HaveSame strips.old.entries strips.new.entries }
    ensures kept { OnOk result (All (IsKept strips.new.entries) numbers.now) }
{
    for k in numbers {
        keep(alloc, strips, *k)?;
    }
    Ok(())
}

/// Puts a strip in which nothing lies where this one is left out.
fn keep(alloc: Global, strips: &mut BTreeMap<i64, ArrangedStrip>, k: i64) -> Result<(), Memory>
    ensures same { HaveSame strips.old.entries strips.new.entries }
    ensures kept { OnOk result (IsKept strips.new.entries k) }
    ensures others { (j : ℤ) → IsKept strips.old.entries j → IsKept strips.new.entries j }
{
    match strips.get(&k) {
        Some(_) => Ok(()),
        None => {
            strips.insert(k, ArrangedStrip::empty(alloc))?;
            Ok(())
        }
    }
}

/// Puts strips in the place of those that have their numbers. Takes no memory.
pub(crate) fn exchange(strips: &mut BTreeMap<i64, ArrangedStrip>, made: Vec<(i64, ArrangedStrip)>)
    requires { All (λ p. IsKept strips.old.entries p.0) made.items }
    ensures { (k : ℤ) → strip_in strips.new.entries k
        ≡ exchanged made.items k (strip_in strips.old.entries k) }
{
    for (k, strip) in made {
        put_in_place(strips, k, strip);
    }
}

/// Puts a strip in the place of the one that has its number. Takes no memory.
fn put_in_place(strips: &mut BTreeMap<i64, ArrangedStrip>, k: i64, strip: ArrangedStrip)
    requires { IsKept strips.old.entries k }
    ensures changes { Changes k (λ s. strip) strips.old.entries strips.new.entries }
    ensures others { (j : ℤ) → IsKept strips.old.entries j → IsKept strips.new.entries j }
{
    if let Some(place) = strips.get_mut(&k) {
        *place = strip;
    }
}
