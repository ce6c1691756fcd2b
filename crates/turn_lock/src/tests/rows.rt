//! Worked examples, on one thread.
ghost use Rattle.std.specs.Prelude.{◌≡◌, [], IfOk};
ghost use Rattle.turn_lock.specs.Pass.{known, IsIdle, IsReady, IsStill};
ghost use Rattle.turn_lock.specs.Turn.{turn_id};

use super::tally::Tally;
use crate::{Pass, Turn};
use grid_core::Memory;
use std::alloc::Global;
use std::sync::Wait;
use std::test::Fail;

/// Adds one value in a turn of `pass`, and says whether it was added.
pub(super) fn add<R: Wait>(rt: &R, turn: &Turn<Tally>, pass: &mut Pass<Tally>, value: u64) -> bool
    requires { IsReady pass.old.seat (turn_id turn.now) }
    ensures idle { IsIdle pass.new.seat }
    ensures still { IsStill pass.old.seat pass.new.seat }
{
    let mut held = turn.enter(rt, pass);
    let added = held.book.add(pass.number(), value);
    turn.mark(pass, &mut held, added);
    turn.leave(pass, held);
    added
}

/// What `pass` has seen after a turn in which it adds nothing.
pub(super) fn look<R: Wait>(
    rt: &R,
    alloc: Global,
    turn: &Turn<Tally>,
    pass: &mut Pass<Tally>,
) -> Result<Vec<(u32, u64)>, Memory>
    requires { IsReady pass.old.seat (turn_id turn.now) }
    ensures idle { IsIdle pass.new.seat }
    ensures still { IsStill pass.old.seat pass.new.seat }
    ensures mine { (known pass.new.seat).mine ≡ (known pass.old.seat).mine }
    ensures seen { IfOk result (λ entries. entries.items ≡ (known pass.new.seat).seen) }
{
    let mut held = turn.enter(rt, pass);
    turn.mark(pass, &mut held, false);
    let entries = Vec::from_slice(alloc, held.book.entries.as_slice());
    turn.leave(pass, held);
    Ok(entries?)
}

/// The turn and its two passes after `lock_split`, and what the first of them has seen.
#[derive(Drop)]
struct Split {
    turn: Turn<Tally>,
    first: Pass<Tally>,
    second: Pass<Tally>,
    seen: Vec<(u32, u64)>,
}

fn split_and_look<R: Wait>(rt: &R, alloc: Global) -> Result<Split, Memory>
    ensures first { IfOk result (λ s. IsReady s.first.seat (turn_id s.turn)) }
    ensures second { IfOk result (λ s. IsReady s.second.seat (turn_id s.turn)) }
    ensures seats { IfOk result (λ s. (known s.first.seat).seats ≡ 2) }
    ensures numbers { IfOk result (λ s. ((known s.first.seat).number ≡ 0)
        × ((known s.second.seat).number ≡ 1)) }
    ensures room { IfOk result (λ s. (known s.first.seat).room ≡ 0) }
    ensures mine { IfOk result (λ s. (known s.first.seat).mine ≡ []) }
    ensures seen { IfOk result (λ s. (known s.first.seat).seen ≡ s.seen.items) }
{
    let (turn, mut first) = Turn::open(alloc, Tally::new(alloc), 2)?;
    let mut second = turn.split(&mut first);
    add(rt, &turn, &mut second, 5);
    let seen = look(rt, alloc, &turn, &mut first)?;
    Ok(Split {
        turn,
        first,
        second,
        seen,
    })
}

#[test]
fn lock_one_pass(rt: HostRuntime) -> Result<(), Fail> {
    let (turn, mut pass) = Turn::open(rt.alloc(), Tally::new(rt.alloc()), 2)?;
    assert!(rt; add(&rt, &turn, &mut pass, 5));
    let tally = turn.close(pass);
    assert_eq!(rt; tally.entries.as_slice(), [(0, 5)].as_slice());
    Ok(())
}

// That `mine` of the first pass is empty is a clause of `split_and_look`.
#[test]
fn lock_split(rt: HostRuntime) -> Result<(), Fail> {
    let split = split_and_look(&rt, rt.alloc())?;
    assert_eq!(rt; split.seen.as_slice(), [(1, 5)].as_slice());
    assert_eq!(rt; split.first.room(), 0);
    assert_eq!(rt; split.second.number(), 1);
    Ok(())
}

#[test]
fn lock_join(rt: HostRuntime) -> Result<(), Fail> {
    let Split {
        turn,
        mut first,
        second,
        seen: _,
    } = split_and_look(&rt, rt.alloc())?;
    turn.join(&mut first, second);
    let tally = turn.close(first);
    assert_eq!(rt; tally.entries.as_slice(), [(1, 5)].as_slice());
    Ok(())
}
