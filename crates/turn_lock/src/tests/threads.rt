//! Threads that add numbers of their own: in the end each thread's numbers stand in their order.
ghost use Rattle.std.specs.Prelude.{ℕ, ◌+◌, ◌^◌, ◌<◌, ◌≤◌, IfOk, vec_len, slice_index_or};
ghost use Rattle.turn_lock.specs.Pass.{known, IsIdle, IsReady, IsStill};
ghost use Rattle.turn_lock.specs.Turn.{turn_id};

use super::rows::{add, look};
use super::tally::Tally;
use crate::{Pass, Turn};
use grid_core::Memory;
use std::alloc::Global;
use std::ops::Range;
use std::process::Abort;
use std::sync::Wait;
use std::test::Fail;
use std::thread;
use std::thread::Threads;

/// Adds the numbers from `first` on, `count` of them, each in a turn of its own.
fn add_each<R: Wait>(
    rt: &R,
    turn: &Turn<Tally>,
    mut pass: Pass<Tally>,
    first: u64,
    count: u64,
) -> Pass<Tally>
    requires ready { IsReady pass.seat (turn_id turn.now) }
    requires few { first + count < 2 ^ 64 }
    ensures idle { IsIdle result.seat }
    ensures still { IsStill pass.seat result.seat }
{
    for value in first..first + count {
        add(rt, turn, &mut pass, value);
    }
    pass
}

/// Asserts that the entries of each of these passes are the numbers from `count` times its own
/// on, `count` of them, in order.
fn assert_in_order(rt: &impl Abort, entries: &[(u32, u64)], passes: Range<u32>, count: u32) {
    for number in passes {
        let first = u64::from(number) * u64::from(count);
        let mut values = entries.iter().filter(|entry| entry.0 == number);
        for step in 0..count {
            let value = first + u64::from(step);
            assert_eq!(rt; values.next().copied(), Some((number, value)));
        }
        assert!(rt; values.next().is_none());
    }
}

#[test]
fn two_threads_add_a_thousand_each(rt: HostRuntime) -> Result<(), Fail> {
    let (turn, mut one) = Turn::open(rt.alloc(), Tally::new(rt.alloc()), 2)?;
    let other = turn.split(&mut one);
    let (mut one, other) = thread::join(
        &rt,
        || add_each(&rt, &turn, one, 0, 1000),
        || add_each(&rt, &turn, other, 1000, 1000),
    );
    turn.join(&mut one, other);
    let tally = turn.close(one);
    assert_in_order(&rt, tally.entries.as_slice(), 0..2, 1000);
    Ok(())
}

/// So many new passes.
fn split_off(
    alloc: Global,
    turn: &Turn<Tally>,
    first: &mut Pass<Tally>,
    count: u32,
) -> Result<Vec<Pass<Tally>>, Memory>
    requires ready { IsReady first.old.seat (turn_id turn.now) }
    requires room { count ≤ (known first.old.seat).room }
    ensures ready { IsReady first.new.seat (turn_id turn.now) }
    ensures each { IfOk result (λ v. (i : ℕ) (d : _) → i < vec_len v →
        IsReady (slice_index_or v.items i d).seat (turn_id turn.now)) }
{
    let mut passes = Vec::new(alloc);
    for _split in 0..count {
        passes.push(turn.split(first))?;
    }
    Ok(passes)
}

/// Each pass adds 250 numbers, in a thread of its own.
fn run_each<R: Threads + Wait + Sync>(
    rt: &R,
    turn: &Turn<Tally>,
    passes: Vec<Pass<Tally>>,
) -> Result<(), Memory>
    requires { (i : ℕ) (d : _) → i < vec_len passes →
        IsReady (slice_index_or passes.items i d).seat (turn_id turn.now) }
{
    thread::map_vec(
        rt,
        passes,
        &|pass: Pass<Tally>| -> ()
            requires { IsReady pass.seat (turn_id turn.now) }
        {
            let first = u64::from(pass.number()) * 250;
            add_each(rt, turn, pass, first, 250);
        },
    )?;
    Ok(())
}

#[test]
fn eight_threads_add_250_each(rt: HostRuntime) -> Result<(), Fail> {
    let (turn, mut first) = Turn::open(rt.alloc(), Tally::new(rt.alloc()), 9)?;
    let passes = split_off(rt.alloc(), &turn, &mut first, 8)?;
    run_each(&rt, &turn, passes)?;
    let entries = look(&rt, rt.alloc(), &turn, &mut first)?;
    assert_in_order(&rt, entries.as_slice(), 1..9, 250);
    Ok(())
}
