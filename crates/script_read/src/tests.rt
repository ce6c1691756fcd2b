use super::*;
use grid_core::{Edge, Memory, Name, Point, TileId, Vertex};
use std::process::Abort;

fn name_of(rt: &impl Abort, editor: u8, serial: u16) -> Name {
    Name::new(editor, serial).expect(rt, "a name")
}

fn order(editor: u8, act: Act) -> Line {
    Line::Order(Command { editor, act })
}

fn insert(x1: i64, y1: i64, x2: i64, y2: i64) -> Act {
    let a = Point { x: x1, y: y1 };
    let b = Point { x: x2, y: y2 };
    Act::Insert { a, b }
}

#[test]
fn lines(rt: HostRuntime) -> Result<(), Memory> {
    let mut too_long = Vec::from_slice(rt.alloc(), b"1 take")?;
    too_long.resize(6 + 4091, b' ')?;
    for (number, line, want) in [
        (1, b"# a comment".as_slice(), Line::Quiet),
        (2, b"", Line::Quiet),
        (3, b"1 commit", order(1, Act::Commit)),
        (4, b"0 take", Line::Bad),
        (5, b"65 take", Line::Bad),
        (6, b"  1\tinsert 0 0 7 7 \r", order(1, insert(0, 0, 7, 7))),
        (7, b"1 insert 1 1 2 2", order(1, insert(1, 1, 2, 2))),
        (8, b"1 erase 1.1", Line::Bad),
        (9, b"1 drop", order(1, Act::Drop)),
        (10, too_long.as_slice(), Line::Bad),
        (11, b"1 insert 0 0 +1 0", Line::Bad),
        (12, b"1 route 1.0", Line::Bad),
        (13, b"1 drop", order(1, Act::Drop)),
    ] {
        assert!(rt; read_line(line) == want, "line {number}");
    }
    Ok(())
}

#[test]
fn lines_by_their_fields(rt: HostRuntime) {
    let last = name_of(&rt, 64, 65_535);
    for (line, want) in [
        (b"64 take".as_slice(), order(64, Act::Take)),
        (b"0000000064\t\t take", order(64, Act::Take)),
        (b"2 reads\r", order(2, Act::Reads)),
        (b"2 show", order(2, Act::Ask(Query::Show))),
        (b"7 delete 64.65535", order(7, Act::Delete { name: last })),
        (
            b"1 insert -0 007 -9999999999 9999999999",
            order(1, insert(0, 7, -9_999_999_999, 9_999_999_999)),
        ),
        (b"\r", Line::Quiet),
        (b" \t \r", Line::Quiet),
        (b"\t # 1 take", Line::Quiet),
        (b"#\r\r", Line::Quiet),
        (b"1 take\r\r", Line::Bad),
        (b"\r1 take", Line::Bad),
        (b"1\x0btake", Line::Bad),
        (b"1", Line::Bad),
        (b"1 TAKE", Line::Bad),
        (b"1 take #", Line::Bad),
        (b"+1 take", Line::Bad),
        (b"take 1", Line::Bad),
        (b"1 insert 0 0 7", Line::Bad),
        (b"1 insert 0 0 7 7 7", Line::Bad),
        (b"1 insert 0 0 7 12345678901", Line::Bad),
        (b"1 delete 1 1", Line::Bad),
        (b"1 locate 0 0", Line::Bad),
    ] {
        assert!(rt; read_line(line) == want);
    }
}

#[test]
fn lines_of_4096_bytes_and_more(rt: HostRuntime) -> Result<(), Memory> {
    for (line, want) in [
        (b"1 take".as_slice(), order(1, Act::Take)),
        (b"# take", Line::Quiet),
        (b"", Line::Quiet),
    ] {
        let mut bytes = Vec::from_slice(rt.alloc(), line)?;
        bytes.resize(4095, b' ')?;
        bytes.push(b'\r')?;
        assert!(rt; read_line(bytes.as_slice()) == want);
        bytes.push(b'\r')?;
        assert!(rt; read_line(bytes.as_slice()) == Line::Bad);
    }
    Ok(())
}

#[test]
fn ends_of_lines(rt: HostRuntime) {
    for (input, from, want) in [
        (b"".as_slice(), 0, None),
        (b"\n", 0, Some((0, 1))),
        (b"\n", 1, None),
        (b"1 take\n\n1 drop", 0, Some((6, 7))),
        (b"1 take\n\n1 drop", 7, Some((7, 8))),
        (b"1 take\n\n1 drop", 8, Some((14, 14))),
        (b"1 take\n\n1 drop", 14, None),
        (b"a\r\nb\n", 0, Some((2, 3))),
        (b"a\r\nb\n", 3, Some((4, 5))),
    ] {
        assert!(rt; next_line(input, from) == want);
    }
}

/// Adds the reply to what stands in `out` already, and compares the whole.
fn says(rt: &impl Abort, out: &mut Vec<u8>, said: Said, want: &str) -> Result<(), Memory> {
    out.clear();
    let reply = Reply { editor: 12, said };
    push_reply(out, &reply)?;
    assert!(rt; out.as_slice() == want.as_bytes(), "{want}");
    Ok(())
}

#[test]
fn replies_of_words(rt: HostRuntime) -> Result<(), Memory> {
    let mut out = Vec::new(rt.alloc());
    for (why, want) in [
        (Refusal::Busy, "12 refused busy\n"),
        (Refusal::Range, "12 refused range\n"),
        (Refusal::Point, "12 refused point\n"),
        (Refusal::Serials, "12 refused serials\n"),
        (Refusal::Unknown, "12 refused unknown\n"),
    ] {
        says(&rt, &mut out, Said::Refused { why }, want)?;
    }
    for (what, want) in [
        (FullText::Commits, "12 full commits\n"),
        (FullText::Segments, "12 full segments\n"),
        (FullText::Spans, "12 full spans\n"),
        (FullText::Passes, "12 full passes\n"),
    ] {
        says(&rt, &mut out, Said::Full { what }, want)?;
    }
    says(&rt, &mut out, Said::Nothing, "12 none\n")?;
    says(&rt, &mut out, Said::Dropped, "12 dropped\n")?;
    says(&rt, &mut out, Said::NoEdge, "12 no edge\n")
}

#[test]
fn replies_of_numbers_and_names(rt: HostRuntime) -> Result<(), Memory> {
    let mut out = Vec::new(rt.alloc());
    let name = name_of(&rt, 64, 65_535);
    let tile = TileId { i: 0, j: -1 };
    let at = Point { x: 4, y: -1 };
    let vertex = Vertex {
        at,
        ends: 0,
        crossings: 6,
    };
    says(&rt, &mut out, Said::At { number: 0 }, "12 at 0\n")?;
    says(
        &rt,
        &mut out,
        Said::Commit { number: 262_144 },
        "12 commit 262144\n",
    )?;
    says(&rt, &mut out, Said::Ready { name }, "12 ready 64.65535\n")?;
    says(
        &rt,
        &mut out,
        Said::Unknown { name },
        "12 unknown 64.65535\n",
    )?;
    says(
        &rt,
        &mut out,
        Said::Stale { by: 2, tile },
        "12 stale by 2 tile 0 -1\n",
    )?;
    says(&rt, &mut out, Said::Vertex { at }, "12 vertex 4 -1\n")?;
    says(
        &rt,
        &mut out,
        Said::Hot { vertex },
        "12 hot 4 -1 ends 0 crossings 6\n",
    )?;
    says(&rt, &mut out, Said::Cold { at }, "12 cold 4 -1\n")?;
    out.clear();
    push_bad(&mut out, 4)?;
    assert!(rt; out.as_slice() == b"bad 4\n".as_slice());
    Ok(())
}

#[test]
fn replies_of_edges_and_lists(rt: HostRuntime) -> Result<(), Memory> {
    let alloc = rt.alloc();
    let mut out = Vec::new(alloc);
    let (a, b) = (Point { x: 0, y: 0 }, Point { x: 8, y: -1 });
    let edge = Edge::of(b, a).expect(&rt, "two points");
    let name = name_of(&rt, 1, 1);
    let between = Said::Between {
        above: Some(edge),
        below: None,
    };
    let outside = Said::Between {
        above: None,
        below: Some(edge),
    };
    let tiles = Items::of(Vec::from_slice(
        alloc,
        &[TileId { i: 0, j: -1 }, TileId { i: 5, j: 0 }],
    )?);
    let points = Items::of(Vec::from_slice(alloc, &[a, b])?);
    let names = Items::of(Vec::from_slice(alloc, &[name, name_of(&rt, 3, 20)])?);
    let walk = Walk {
        points: Items::of(Vec::from_slice(alloc, &[a, b, a])?),
        area2: -64,
    };
    let text = Items::of(Vec::from_slice(alloc, b"arrangement 0\nend\n")?);
    says(&rt, &mut out, Said::OnEdge { edge }, "12 edge 0 0 8 -1\n")?;
    says(
        &rt,
        &mut out,
        between,
        "12 between above 0 0 8 -1 below none\n",
    )?;
    says(
        &rt,
        &mut out,
        outside,
        "12 between above none below 0 0 8 -1\n",
    )?;
    says(
        &rt,
        &mut out,
        Said::Reads { tiles },
        "12 reads 2 0 -1 5 0\n",
    )?;
    says(
        &rt,
        &mut out,
        Said::Route { name, points },
        "12 route 1.1 2 0 0 8 -1\n",
    )?;
    says(
        &rt,
        &mut out,
        Said::Bundle { edge, names },
        "12 bundle 0 0 8 -1 2 1.1 3.20\n",
    )?;
    says(
        &rt,
        &mut out,
        Said::Contour { walk },
        "12 contour 3 area2 -64 0 0 8 -1 0 0\n",
    )?;
    says(&rt, &mut out, Said::Show { text }, "arrangement 0\nend\n")
}
