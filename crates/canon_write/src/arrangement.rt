//! The lines of an arrangement, and the whole of it, appended to a buffer. After `Memory` the
//! buffer begins with what it had, and a part of the text may stand behind that.

ghost use Rattle.std.specs.Prelude.{◌≡◌, ◌++◌, OnOk, OnErr, IfOk, flat_map};
ghost use Rattle.seg_text.specs.Text.{BeginsWith};
ghost use Rattle.canon_write.specs.Text.{segment_text, segment_line};
ghost use Rattle.canon_write.specs.Text.{vertex_line, edge_line, segments_part, vertices_part};
ghost use Rattle.canon_write.specs.Text.{heading, edges_part, picture_text};

use grid_core::{Memory, Ur, Vertex};
use round_plain::{Bundled, Rounding, Routed};
use seg_text::{
    push_count, push_name, push_names, push_point, push_points, push_spaced_point, push_text,
};
use std::alloc::Global;

/// The text of version `number` with this rounding.
pub fn arrangement_text(alloc: Global, number: u32, picture: &Rounding) -> Result<Vec<u8>, Memory>
    ensures { IfOk result (λ text. text.items ≡ picture_text number picture.now) }
{
    let mut out = Vec::new(alloc);
    push_arrangement(&mut out, number, picture)?;
    Ok(out)
}

/// The text of version `number` with this rounding, behind what the buffer has. After `Memory` the
/// buffer begins with what it had.
pub fn push_arrangement(out: &mut Vec<u8>, number: u32, picture: &Rounding) -> Result<(), Memory>
    ensures text { OnOk result (out.new.items
        ≡ out.old.items ++ picture_text number picture.now) }
    ensures memory { OnErr result (BeginsWith out.new.items out.old.items) }
{
    push_heading(out, number)?;
    push_segments(out, picture.routes())?;
    push_vertices(out, picture.vertices())?;
    push_edges(out, picture.edges())?;
    push_text(out, "end\n")
}

/// Which version it is.
fn push_heading(out: &mut Vec<u8>, number: u32) -> Result<(), Memory>
    ensures text { OnOk result (out.new.items ≡ out.old.items ++ heading number) }
    ensures memory { OnErr result (BeginsWith out.new.items out.old.items) }
{
    push_text(out, "arrangement ")?;
    push_count(out, u64::from(number))?;
    push_text(out, "\n")
}

/// How many segments, then each with its route.
fn push_segments(out: &mut Vec<u8>, routes: &[Routed]) -> Result<(), Memory>
    ensures text { OnOk result (out.new.items ≡ out.old.items ++ segments_part routes.now) }
    ensures memory { OnErr result (BeginsWith out.new.items out.old.items) }
{
    push_text(out, "segments ")?;
    push_count(out, routes.len() as u64)?;
    push_text(out, "\n")?;
    push_segment_lines(out, routes)
}

fn push_segment_lines(out: &mut Vec<u8>, routes: &[Routed]) -> Result<(), Memory>
    ensures text { OnOk result (out.new.items
        ≡ out.old.items ++ flat_map segment_line routes.now) }
    ensures memory { OnErr result (BeginsWith out.new.items out.old.items) }
{
    for routed in routes {
        push_segment_line(out, routed)?;
    }
    Ok(())
}

fn push_segment_line(out: &mut Vec<u8>, routed: &Routed) -> Result<(), Memory>
    ensures text { OnOk result (out.new.items ≡ out.old.items ++ segment_line routed.now) }
    ensures memory { OnErr result (BeginsWith out.new.items out.old.items) }
{
    let points = routed.points.as_slice();
    push_segment(out, &routed.ur)?;
    push_text(out, " route ")?;
    push_count(out, points.len() as u64)?;
    push_points(out, points)?;
    push_text(out, "\n")
}

fn push_segment(out: &mut Vec<u8>, ur: &Ur) -> Result<(), Memory>
    ensures text { OnOk result (out.new.items ≡ out.old.items ++ segment_text ur.now) }
    ensures memory { OnErr result (BeginsWith out.new.items out.old.items) }
{
    push_name(out, ur.name())?;
    push_spaced_point(out, ur.p())?;
    push_spaced_point(out, ur.q())
}

/// How many vertices, then each with its counts.
fn push_vertices(out: &mut Vec<u8>, vertices: &[Vertex]) -> Result<(), Memory>
    ensures text { OnOk result (out.new.items ≡ out.old.items ++ vertices_part vertices.now) }
    ensures memory { OnErr result (BeginsWith out.new.items out.old.items) }
{
    push_text(out, "vertices ")?;
    push_count(out, vertices.len() as u64)?;
    push_text(out, "\n")?;
    push_vertex_lines(out, vertices)
}

fn push_vertex_lines(out: &mut Vec<u8>, vertices: &[Vertex]) -> Result<(), Memory>
    ensures text { OnOk result (out.new.items
        ≡ out.old.items ++ flat_map vertex_line vertices.now) }
    ensures memory { OnErr result (BeginsWith out.new.items out.old.items) }
{
    for vertex in vertices {
        push_vertex_line(out, *vertex)?;
    }
    Ok(())
}

fn push_vertex_line(out: &mut Vec<u8>, vertex: Vertex) -> Result<(), Memory>
    ensures text { OnOk result (out.new.items ≡ out.old.items ++ vertex_line vertex) }
    ensures memory { OnErr result (BeginsWith out.new.items out.old.items) }
{
    push_point(out, vertex.at)?;
    push_text(out, " ends ")?;
    push_count(out, u64::from(vertex.ends))?;
    push_text(out, " crossings ")?;
    push_count(out, u64::from(vertex.crossings))?;
    push_text(out, "\n")
}

/// How many edges, then each with its bundle.
fn push_edges(out: &mut Vec<u8>, edges: &[Bundled]) -> Result<(), Memory>
    ensures text { OnOk result (out.new.items ≡ out.old.items ++ edges_part edges.now) }
    ensures memory { OnErr result (BeginsWith out.new.items out.old.items) }
{
    push_text(out, "edges ")?;
    push_count(out, edges.len() as u64)?;
    push_text(out, "\n")?;
    push_edge_lines(out, edges)
}

fn push_edge_lines(out: &mut Vec<u8>, edges: &[Bundled]) -> Result<(), Memory>
    ensures text { OnOk result (out.new.items ≡ out.old.items ++ flat_map edge_line edges.now) }
    ensures memory { OnErr result (BeginsWith out.new.items out.old.items) }
{
    for bundled in edges {
        push_edge_line(out, bundled)?;
    }
    Ok(())
}

fn push_edge_line(out: &mut Vec<u8>, bundled: &Bundled) -> Result<(), Memory>
    ensures text { OnOk result (out.new.items ≡ out.old.items ++ edge_line bundled.now) }
    ensures memory { OnErr result (BeginsWith out.new.items out.old.items) }
{
    let names = bundled.names.names();
    push_point(out, bundled.edge.a())?;
    push_spaced_point(out, bundled.edge.b())?;
    push_text(out, " names ")?;
    push_count(out, names.len() as u64)?;
    push_names(out, names)?;
    push_text(out, "\n")
}
