//! A script of mixed lines, drawn from a generator that starts with 1.

ghost use Rattle.std.specs.Prelude.{◌<◌};

use grid_core::Memory;
use seg_text::{push_text, push_whole};
use std::alloc::Global;

/// How many lines the script has.
const LINES: u32 = 10_000;

/// The bytes of the script.
pub(crate) fn draw_script(alloc: Global) -> Result<Vec<u8>, Memory> {
    let mut out = Vec::new(alloc);
    let mut state = 1;
    for _ in 0..LINES {
        push_line(&mut out, &mut state)?;
    }
    Ok(out)
}

/// One line: a comment, an empty line, a command, or a bad line.
fn push_line(out: &mut Vec<u8>, state: &mut u32) -> Result<(), Memory> {
    match draw(state) % 16 {
        0 => push_text(out, "# what follows is drawn")?,
        1 => push_text(out, "\r")?,
        2 => push_command(out, state, " take")?,
        3 => push_command(out, state, " commit")?,
        4 => push_command(out, state, " reads")?,
        5 => push_command(out, state, " drop")?,
        6 => push_command(out, state, " erase 1.1")?,
        7 => {
            push_text(out, "  ")?;
            push_command(out, state, "\tinsert  7 0 7\t7 \r")?;
        }
        8 | 9 => {
            push_command(out, state, " delete ")?;
            push_drawn(out, state, 64)?;
            push_text(out, ".")?;
            push_drawn(out, state, 65_535)?;
        }
        _ => {
            push_command(out, state, " insert")?;
            for _ in 0..4 {
                push_text(out, " ")?;
                let size = draw(state) % 1_048_577;
                push_whole(out, i128::from(size).wrapping_sub(500_000))?;
            }
        }
    }
    push_text(out, "\n")
}

/// An editor, and what it says.
fn push_command(out: &mut Vec<u8>, state: &mut u32, words: &str) -> Result<(), Memory> {
    push_drawn(out, state, 64)?;
    push_text(out, words)
}

/// A number from 1 to `last`.
fn push_drawn(out: &mut Vec<u8>, state: &mut u32, last: u32) -> Result<(), Memory>
    requires { 0 < last }
{
    let drawn = draw(state) % last;
    push_whole(out, i128::from(drawn).wrapping_add(1))
}

/// The next number of the generator: the last one times 48,271, modulo 2^31 - 1.
fn draw(state: &mut u32) -> u32 {
    *state = (u64::from(*state) * 48_271 % 2_147_483_647) as u32;
    *state
}
