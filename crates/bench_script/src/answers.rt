//! Each line of a script read, and answered by a reply that is made of the line alone.

use grid_core::{Edge, Memory, TileId};
use script_read::{Act, Command, Line, Reply, Said, next_line, push_bad, push_reply, read_line};
use std::alloc::Global;

/// How many lines of each kind there were, and how many bytes answered them.
#[derive(Clone, Copy)]
pub(crate) struct Counts {
    pub(crate) quiet: u64,
    pub(crate) bad: u64,
    pub(crate) orders: u64,
    pub(crate) bytes: u64,
}

/// The counts after so many rounds. One buffer takes each reply in turn.
pub(crate) fn answer_all(alloc: Global, script: &[u8], rounds: u32) -> Result<Counts, Memory> {
    let mut counts = Counts {
        quiet: 0,
        bad: 0,
        orders: 0,
        bytes: 0,
    };
    let mut out = Vec::new(alloc);
    for _ in 0..rounds {
        answer_once(&mut out, &mut counts, script)?;
    }
    Ok(counts)
}

fn answer_once(out: &mut Vec<u8>, counts: &mut Counts, script: &[u8]) -> Result<(), Memory> {
    let mut from = 0;
    let mut number = 0u32;
    while let Some((end, next)) = next_line(script, from) {
        number = number.wrapping_add(1);
        answer_line(out, counts, number, &script[from..end])?;
        from = next;
    }
    Ok(())
}

fn answer_line(
    out: &mut Vec<u8>,
    counts: &mut Counts,
    number: u32,
    line: &[u8],
) -> Result<(), Memory> {
    out.clear();
    match read_line(line) {
        Line::Quiet => counts.quiet = counts.quiet.wrapping_add(1),
        Line::Bad => {
            counts.bad = counts.bad.wrapping_add(1);
            push_bad(out, u64::from(number))?;
        }
        Line::Order(command) => {
            counts.orders = counts.orders.wrapping_add(1);
            push_reply(out, &reply(command, number))?;
        }
    }
    counts.bytes = counts.bytes.wrapping_add(out.len() as u64);
    Ok(())
}

/// A reply that depends on the command and the number of its line.
fn reply(command: Command, number: u32) -> Reply {
    let Command { editor, act } = command;
    let said = match act {
        Act::Take => Said::At { number },
        Act::Insert { a, b } => match Edge::of(a, b) {
            Some(edge) => Said::OnEdge { edge },
            None => Said::NoEdge,
        },
        Act::Delete { name } => Said::Ready { name },
        Act::Reads => Said::Stale {
            by: number,
            tile: TileId { i: -7, j: 12 },
        },
        Act::Commit => Said::Commit { number },
        Act::Drop => Said::Dropped,
        Act::Ask(_) => Said::Nothing,
    };
    Reply { editor, said }
}
