//! Replies as text, appended to a buffer.

ghost use Rattle.std.specs.Prelude.{◌≡◌, ◌++◌, OnOk, OnErr, codes, decimal, flat_map};
ghost use Rattle.std.specs.Fmt.{signed_decimal};
ghost use Rattle.seg_text.specs.Text.{BeginsWith, name_text, spaced_point};
ghost use Rattle.script_read.specs.Reply.{spaced_tile, spaced_edge};
ghost use Rattle.script_read.specs.Reply.{edge_or_none, said_text, reply_text, bad_text};

use crate::{Reply, Said};
use grid_core::{Edge, Memory, Name, Point, TileId, Vertex};
use seg_text::{push_name, push_names, push_points, push_spaced_point, push_text, push_whole};

/// The text of a reply. After `Memory` the buffer is as before.
pub fn push_reply(out: &mut Vec<u8>, reply: &Reply) -> Result<(), Memory>
    ensures text { OnOk result (out.new.items ≡ out.old.items ++ reply_text reply.now) }
    ensures memory { OnErr result (out.new.items ≡ out.old.items) }
{
    let before = out.len();
    if let Err(memory) = push_reply_parts(out, reply) {
        out.truncate(before);
        return Err(memory);
    }
    Ok(())
}

#[tactic(auto, unfolding(crate::specs::Reply::reply_text))]
fn push_reply_parts(out: &mut Vec<u8>, reply: &Reply) -> Result<(), Memory>
    ensures text { OnOk result (out.new.items ≡ out.old.items ++ reply_text reply.now) }
    ensures memory { OnErr result (BeginsWith out.new.items out.old.items) }
{
    match &reply.said {
        Said::Show { text } => push_bytes(out, text.as_slice()),
        said => push_line(out, reply.editor, said),
    }
}

/// A line that begins with the editor.
fn push_line(out: &mut Vec<u8>, editor: u8, said: &Said) -> Result<(), Memory>
    ensures text { OnOk result (out.new.items
        ≡ out.old.items ++ (decimal editor ++ said_text said.now ++ codes "\n")) }
    ensures memory { OnErr result (BeginsWith out.new.items out.old.items) }
{
    push_whole(out, i128::from(editor))?;
    push_said(out, said)?;
    push_text(out, "\n")
}

/// What is said, behind the editor.
#[tactic(auto, unfolding(crate::specs::Reply::said_text))]
fn push_said(out: &mut Vec<u8>, said: &Said) -> Result<(), Memory>
    ensures text { OnOk result (out.new.items ≡ out.old.items ++ said_text said.now) }
    ensures memory { OnErr result (BeginsWith out.new.items out.old.items) }
{
    match said {
        Said::At { number } => push_number(out, " at ", *number),
        Said::Ready { name } => push_named(out, " ready ", *name),
        Said::Refused { why } => push_words(out, " refused ", why.word()),
        Said::Reads { tiles } => push_reads(out, tiles.as_slice()),
        Said::Nothing => push_text(out, " none"),
        Said::Dropped => push_text(out, " dropped"),
        Said::Commit { number } => push_number(out, " commit ", *number),
        Said::Stale { by, tile } => push_stale(out, *by, *tile),
        Said::Full { what } => push_words(out, " full ", what.word()),
        Said::Vertex { at } => push_place(out, " vertex", *at),
        Said::OnEdge { edge } => push_placed_edge(out, " edge", *edge),
        Said::Between { above, below } => push_between(out, *above, *below),
        Said::Route { name, points } => push_route(out, *name, points.as_slice()),
        Said::Unknown { name } => push_named(out, " unknown ", *name),
        Said::Hot { vertex } => push_hot(out, *vertex),
        Said::Cold { at } => push_place(out, " cold", *at),
        Said::Bundle { edge, names } => push_bundle(out, *edge, names.as_slice()),
        Said::NoEdge => push_text(out, " no edge"),
        Said::Contour { walk } => push_contour(out, walk.points.as_slice(), walk.area2),
        Said::Show { text } => push_bytes(out, text.as_slice()),
    }
}

fn push_words(out: &mut Vec<u8>, word: &str, what: &str) -> Result<(), Memory>
    ensures text { OnOk result (out.new.items ≡ out.old.items ++ (word.now ++ what.now)) }
    ensures memory { OnErr result (BeginsWith out.new.items out.old.items) }
{
    push_text(out, word)?;
    push_text(out, what)
}

/// A word and a number.
fn push_number(out: &mut Vec<u8>, word: &str, number: u32) -> Result<(), Memory>
    ensures text { OnOk result (out.new.items ≡ out.old.items ++ (word.now ++ decimal number)) }
    ensures memory { OnErr result (BeginsWith out.new.items out.old.items) }
{
    push_text(out, word)?;
    push_whole(out, i128::from(number))
}

/// A word and a count.
fn push_count(out: &mut Vec<u8>, word: &str, count: usize) -> Result<(), Memory>
    ensures text { OnOk result (out.new.items ≡ out.old.items ++ (word.now ++ decimal count)) }
    ensures memory { OnErr result (BeginsWith out.new.items out.old.items) }
{
    push_text(out, word)?;
    push_whole(out, i128::from(count as u64))
}

/// A word and a whole number.
fn push_signed(out: &mut Vec<u8>, word: &str, n: i128) -> Result<(), Memory>
    ensures text { OnOk result (out.new.items ≡ out.old.items ++ (word.now ++ signed_decimal n)) }
    ensures memory { OnErr result (BeginsWith out.new.items out.old.items) }
{
    push_text(out, word)?;
    push_whole(out, n)
}

/// A word and a name.
fn push_named(out: &mut Vec<u8>, word: &str, name: Name) -> Result<(), Memory>
    ensures text { OnOk result (out.new.items ≡ out.old.items ++ (word.now ++ name_text name)) }
    ensures memory { OnErr result (BeginsWith out.new.items out.old.items) }
{
    push_text(out, word)?;
    push_name(out, name)
}

fn push_place(out: &mut Vec<u8>, word: &str, at: Point) -> Result<(), Memory>
    ensures text { OnOk result (out.new.items ≡ out.old.items ++ (word.now ++ spaced_point at)) }
    ensures memory { OnErr result (BeginsWith out.new.items out.old.items) }
{
    push_text(out, word)?;
    push_spaced_point(out, at)
}

fn push_placed_edge(out: &mut Vec<u8>, word: &str, edge: Edge) -> Result<(), Memory>
    ensures text { OnOk result (out.new.items ≡ out.old.items ++ (word.now ++ spaced_edge edge)) }
    ensures memory { OnErr result (BeginsWith out.new.items out.old.items) }
{
    push_text(out, word)?;
    push_spaced_edge(out, edge)
}

fn push_spaced_edge(out: &mut Vec<u8>, edge: Edge) -> Result<(), Memory>
    ensures text { OnOk result (out.new.items ≡ out.old.items ++ spaced_edge edge) }
    ensures memory { OnErr result (BeginsWith out.new.items out.old.items) }
{
    push_spaced_point(out, edge.a())?;
    push_spaced_point(out, edge.b())
}

fn push_reads(out: &mut Vec<u8>, tiles: &[TileId]) -> Result<(), Memory>
    ensures text { OnOk result (out.new.items
        ≡ out.old.items ++ said_text (Said.Reads tiles.now)) }
    ensures memory { OnErr result (BeginsWith out.new.items out.old.items) }
{
    push_count(out, " reads ", tiles.len())?;
    push_tiles(out, tiles)
}

fn push_tiles(out: &mut Vec<u8>, tiles: &[TileId]) -> Result<(), Memory>
    ensures text { OnOk result (out.new.items ≡ out.old.items ++ flat_map spaced_tile tiles.now) }
    ensures memory { OnErr result (BeginsWith out.new.items out.old.items) }
{
    for tile in tiles {
        push_spaced_tile(out, *tile)?;
    }
    Ok(())
}

fn push_spaced_tile(out: &mut Vec<u8>, tile: TileId) -> Result<(), Memory>
    ensures text { OnOk result (out.new.items ≡ out.old.items ++ spaced_tile tile) }
    ensures memory { OnErr result (BeginsWith out.new.items out.old.items) }
{
    push_text(out, " ")?;
    push_whole(out, i128::from(tile.i))?;
    push_text(out, " ")?;
    push_whole(out, i128::from(tile.j))
}

fn push_stale(out: &mut Vec<u8>, by: u32, tile: TileId) -> Result<(), Memory>
    ensures text { OnOk result (out.new.items ≡ out.old.items ++ said_text (Said.Stale by tile)) }
    ensures memory { OnErr result (BeginsWith out.new.items out.old.items) }
{
    push_number(out, " stale by ", by)?;
    push_text(out, " tile")?;
    push_spaced_tile(out, tile)
}

fn push_between(out: &mut Vec<u8>, above: Option<Edge>, below: Option<Edge>) -> Result<(), Memory>
    ensures text { OnOk result (out.new.items
        ≡ out.old.items ++ said_text (Said.Between above below)) }
    ensures memory { OnErr result (BeginsWith out.new.items out.old.items) }
{
    push_side(out, " between above", above)?;
    push_side(out, " below", below)
}

/// A word and an edge, or `none`.
fn push_side(out: &mut Vec<u8>, word: &str, edge: Option<Edge>) -> Result<(), Memory>
    ensures text { OnOk result (out.new.items ≡ out.old.items ++ (word.now ++ edge_or_none edge)) }
    ensures memory { OnErr result (BeginsWith out.new.items out.old.items) }
{
    push_text(out, word)?;
    push_edge_or_none(out, edge)
}

#[tactic(auto, unfolding(crate::specs::Reply::edge_or_none))]
fn push_edge_or_none(out: &mut Vec<u8>, edge: Option<Edge>) -> Result<(), Memory>
    ensures text { OnOk result (out.new.items ≡ out.old.items ++ edge_or_none edge) }
    ensures memory { OnErr result (BeginsWith out.new.items out.old.items) }
{
    match edge {
        Some(edge) => push_spaced_edge(out, edge),
        None => push_text(out, " none"),
    }
}

fn push_route(out: &mut Vec<u8>, name: Name, points: &[Point]) -> Result<(), Memory>
    ensures text { OnOk result (out.new.items
        ≡ out.old.items ++ said_text (Said.Route name points.now)) }
    ensures memory { OnErr result (BeginsWith out.new.items out.old.items) }
{
    push_named(out, " route ", name)?;
    push_count(out, " ", points.len())?;
    push_points(out, points)
}

fn push_hot(out: &mut Vec<u8>, vertex: Vertex) -> Result<(), Memory>
    ensures text { OnOk result (out.new.items ≡ out.old.items ++ said_text (Said.Hot vertex)) }
    ensures memory { OnErr result (BeginsWith out.new.items out.old.items) }
{
    push_place(out, " hot", vertex.at)?;
    push_number(out, " ends ", vertex.ends)?;
    push_number(out, " crossings ", vertex.crossings)
}

fn push_bundle(out: &mut Vec<u8>, edge: Edge, names: &[Name]) -> Result<(), Memory>
    ensures text { OnOk result (out.new.items
        ≡ out.old.items ++ said_text (Said.Bundle edge names.now)) }
    ensures memory { OnErr result (BeginsWith out.new.items out.old.items) }
{
    push_placed_edge(out, " bundle", edge)?;
    push_count(out, " ", names.len())?;
    push_names(out, names)
}

fn push_contour(out: &mut Vec<u8>, points: &[Point], area2: i128) -> Result<(), Memory>
    ensures text { OnOk result (out.new.items
        ≡ out.old.items
        ++ said_text (Said.Contour (record { points = points.now; area2 = area2 }))) }
    ensures memory { OnErr result (BeginsWith out.new.items out.old.items) }
{
    push_count(out, " contour ", points.len())?;
    push_signed(out, " area2 ", area2)?;
    push_points(out, points)
}

/// The bytes as they are.
fn push_bytes(out: &mut Vec<u8>, bytes: &[u8]) -> Result<(), Memory>
    ensures text { OnOk result (out.new.items ≡ out.old.items ++ bytes.now) }
    ensures memory { OnErr result (BeginsWith out.new.items out.old.items) }
{
    out.extend_from_slice(bytes)?;
    Ok(())
}

/// That line `number` is bad. After `Memory` the buffer is as before.
pub fn push_bad(out: &mut Vec<u8>, number: u64) -> Result<(), Memory>
    ensures text { OnOk result (out.new.items ≡ out.old.items ++ bad_text number) }
    ensures memory { OnErr result (out.new.items ≡ out.old.items) }
{
    let before = out.len();
    if let Err(memory) = push_bad_parts(out, number) {
        out.truncate(before);
        return Err(memory);
    }
    Ok(())
}

fn push_bad_parts(out: &mut Vec<u8>, number: u64) -> Result<(), Memory>
    ensures text { OnOk result (out.new.items ≡ out.old.items ++ bad_text number) }
    ensures memory { OnErr result (BeginsWith out.new.items out.old.items) }
{
    push_text(out, "bad ")?;
    push_whole(out, i128::from(number))?;
    push_text(out, "\n")
}
