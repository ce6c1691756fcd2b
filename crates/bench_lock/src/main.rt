//! Takes turns round a counter, to be timed from outside: it prints counts, and never times. Its
//! first word is the number of rounds that each thread takes, its second the number of threads.
#![tactic(auto)]

ghost use Rattle.std.specs.Prelude.{ℕ, ◌<◌, ◌≤◌, IfOk, vec_len, slice_index_or};
ghost use Rattle.turn_lock.specs.Pass.{known, IsReady};
ghost use Rattle.turn_lock.specs.Turn.{turn_id};

mod counter;

use counter::Counter;
use grid_core::Memory;
use std::alloc::Global;
use std::sync::Wait;
use std::thread::Threads;
use std::{env, io, thread};
use turn_lock::{Pass, Turn};

/// At most so many threads.
const MOST_THREADS: u32 = 64;

/// Takes `rounds` turns.
fn take_turns<R: Wait>(rt: &R, turn: &Turn<Counter>, pass: &mut Pass<Counter>, rounds: u32)
    requires { IsReady pass.old.seat (turn_id turn.now) }
    ensures { IsReady pass.new.seat (turn_id turn.now) }
{
    for _round in 0..rounds {
        let mut held = turn.enter(rt, pass);
        let counted = held.book.raise(pass.number());
        turn.mark(pass, &mut held, counted);
        turn.leave(pass, held);
    }
}

/// So many new passes.
fn split_off(
    alloc: Global,
    turn: &Turn<Counter>,
    first: &mut Pass<Counter>,
    count: u32,
) -> Result<Vec<Pass<Counter>>, Memory>
    requires ready { IsReady first.old.seat (turn_id turn.now) }
    requires room { count ≤ (known first.old.seat).room }
    ensures ready { IsReady first.new.seat (turn_id turn.now) }
    ensures each { IfOk result (λ v. (i : ℕ) (d : _) → i < vec_len v →
        IsReady (slice_index_or v.items i d).seat (turn_id turn.now)) }
{
    let mut passes = Vec::new(alloc);
    for _split in 0..count {
        passes.push(turn.split(first))?;
    }
    Ok(passes)
}

/// Takes `rounds` turns with each pass, in a thread of its own.
fn run_all<R: Threads + Wait + Sync>(
    rt: &R,
    turn: &Turn<Counter>,
    passes: Vec<Pass<Counter>>,
    rounds: u32,
) -> Result<(), Memory>
    requires { (i : ℕ) (d : _) → i < vec_len passes →
        IsReady (slice_index_or passes.items i d).seat (turn_id turn.now) }
{
    thread::map_vec(
        rt,
        passes,
        &|mut pass: Pass<Counter>| -> ()
            requires { IsReady pass.seat (turn_id turn.now) }
        { take_turns(rt, turn, &mut pass, rounds) },
    )?;
    Ok(())
}

/// How many rounds were counted, after `threads` threads took `rounds` turns each.
fn count<R: Threads + Wait + Sync>(
    rt: &R,
    alloc: Global,
    rounds: u32,
    threads: u32,
) -> Result<u32, Memory>
    requires { threads ≤ 64 }
{
    let (turn, mut first) = Turn::open(alloc, Counter::new(alloc), threads + 1)?;
    let passes = split_off(alloc, &turn, &mut first, threads)?;
    run_all(rt, &turn, passes, rounds)?;
    let mut held = turn.enter(rt, &mut first);
    let counted = held.book.count();
    turn.mark(&mut first, &mut held, false);
    turn.leave(&mut first, held);
    Ok(counted)
}

/// The number that a word is.
fn number(word: Option<String>) -> Option<u32> {
    word?.as_str().parse().ok()
}

fn main(rt: HostRuntime) -> io::Result<()> {
    let mut words = env::args(&rt)?;
    words.next();
    let (Some(rounds), Some(threads)) = (number(words.next()), number(words.next())) else {
        return Err(io::Error::from(io::ErrorKind::InvalidInput));
    };
    if threads > MOST_THREADS {
        return Err(io::Error::from(io::ErrorKind::InvalidInput));
    }
    let Ok(counted) = count(&rt, rt.alloc(), rounds, threads) else {
        return Err(io::Error::from(io::ErrorKind::OutOfMemory));
    };
    println!(&rt; "{threads} threads, {rounds} rounds each: {counted} rounds counted")
}
