//! The drawing in which places are looked up.

ghost use Rattle.std.specs.Prelude.{◌≡◌, ◌≤◌, ◌^◌, length, map, IfOk};
ghost use Rattle.std.specs.List.Sorted.{IsStrictlySortedBy};
ghost use Rattle.grid_core.specs.Name.{label_cmp};
ghost use Rattle.grid_core.specs.LiveList.{names};
ghost use Rattle.grid_core.specs.Rounding.{rounding_of};
ghost use Rattle.edge_bundle.specs.Drawn.{IsDrawnWithin};

use crate::draws::Draws;
use edge_bundle::rounding_is_drawn_within;
use grid_core::{Edge, Memory, Point, Ur};
use planar_law::PlanarEdges;
use round_plain::{Rounding, round};
use std::alloc::{AllocError, Global};

/// A rounding, and its edges and vertices as a graph.
#[derive(Drop)]
pub(crate) struct Drawing {
    pub(crate) picture: Rounding,
    pub(crate) planar: PlanarEdges,
    ghost drawn_within: { IsDrawnWithin (2 ^ 30) picture },
}

impl Drawing {
    /// The rounding of so many short segments, fewer by those drawn with equal ends.
    pub(crate) fn make(alloc: Global, draws: &mut Draws, count: u16) -> Result<Drawing, Memory> {
        let segments = segments(alloc, draws, count)?;
        rounding_is_drawn_within(&segments);
        let picture = round(alloc, &segments)?;
        let planar = graph(alloc, &segments, &picture)?;
        Ok(Drawing { picture, planar })
    }
}

/// Segments `1.1` and so on, without those drawn with equal ends.
fn segments(alloc: Global, draws: &mut Draws, count: u16) -> Result<Vec<Ur>, Memory>
    ensures rising { IfOk result (λ v. IsStrictlySortedBy label_cmp (names v.items)) }
    ensures few { IfOk result (λ v. length v.items ≤ 65536) }
{
    let mut segments = Vec::new(alloc);
    for serial in 0..count {
        if let Some(s) = draws.segment(serial + 1) {
            segments.push(s)?;
        }
    }
    Ok(segments)
}

/// The graph of the rounding of these segments.
fn graph(alloc: Global, segments: &[Ur], picture: &Rounding) -> Result<PlanarEdges, Memory>
    requires { picture.now ≡ rounding_of segments.now }
{
    let edges = edges(alloc, picture)?;
    let vertices = vertices(alloc, picture)?;
    Ok(PlanarEdges::of(segments, edges, vertices))
}

/// The edges of a rounding, without their bundles.
fn edges(alloc: Global, picture: &Rounding) -> Result<Vec<Edge>, AllocError>
    ensures { IfOk result (λ v. v.items ≡ map (λ e. e.edge) picture.now.edges) }
{
    picture.edges().iter().map(|e| e.edge).collect(alloc)
}

/// The vertices of a rounding, without their counts.
fn vertices(alloc: Global, picture: &Rounding) -> Result<Vec<Point>, AllocError>
    ensures { IfOk result (λ v. v.items ≡ map (λ w. w.at) picture.now.vertices) }
{
    picture.vertices().iter().map(|w| w.at).collect(alloc)
}
