//! The works: each answers a count that tells whether it was done.

use crate::keys::{Draws, LONG, WINDOW, flat_key, steep_key, window_key};
use grid_core::Memory;
use radix_map::Map;
use std::alloc::Global;
use std::sync::Arc;

/// What is done in each round.
#[derive(Clone, Copy)]
pub(crate) enum Work {
    /// 10,000 `with` of random keys.
    WithRandom,
    /// 10,000 `with` of keys of the window.
    WithWindow,
    /// One `with_all` of a line's keys.
    WithAll(Line),
    /// One `edit_all` of a line's keys.
    EditAll(Line),
    /// 100,000 `get`, half of keys that are there.
    Get,
    /// One `find_all` of a line's keys.
    FindAll(Line),
    /// One walk over 100,000 entries.
    Entries,
    /// 10,000 walks of one entry, each from a random key on.
    EntriesFrom,
}

/// Which keys.
#[derive(Clone, Copy)]
pub(crate) enum Line {
    Steep,
    Flat,
    Window,
}

impl Work {
    pub(crate) fn named(word: &str) -> Option<Work> {
        match word {
            "with_random" => Some(Work::WithRandom),
            "with_window" => Some(Work::WithWindow),
            "with_all_steep" => Some(Work::WithAll(Line::Steep)),
            "with_all_flat" => Some(Work::WithAll(Line::Flat)),
            "with_all_window" => Some(Work::WithAll(Line::Window)),
            "edit_all_steep" => Some(Work::EditAll(Line::Steep)),
            "edit_all_flat" => Some(Work::EditAll(Line::Flat)),
            "edit_all_window" => Some(Work::EditAll(Line::Window)),
            "get" => Some(Work::Get),
            "find_all_steep" => Some(Work::FindAll(Line::Steep)),
            "find_all_flat" => Some(Work::FindAll(Line::Flat)),
            "find_all_window" => Some(Work::FindAll(Line::Window)),
            "entries" => Some(Work::Entries),
            "entries_from" => Some(Work::EntriesFrom),
            _ => None,
        }
    }
}

impl Line {
    fn len(self) -> u32 {
        match self {
            Line::Steep | Line::Flat => LONG,
            Line::Window => WINDOW,
        }
    }

    fn key(self, n: u32) -> u32 {
        match self {
            Line::Steep => steep_key(n),
            Line::Flat => flat_key(n),
            Line::Window => window_key(n),
        }
    }

    fn keys(self, alloc: Global) -> Result<Vec<u32>, Memory> {
        let mut all = Vec::new(alloc);
        for n in 0..self.len() {
            all.push(self.key(n))?;
        }
        Ok(all)
    }

    fn edits(self, alloc: Global) -> Result<Vec<(u32, Option<Arc<u64>>)>, Memory> {
        let value = Arc::new(alloc, 7)?;
        let mut all = Vec::new(alloc);
        for n in 0..self.len() {
            all.push((self.key(n), Some(Arc::try_clone(&value)?)))?;
        }
        Ok(all)
    }
}

/// The count of the work after the rounds.
pub(crate) fn run(alloc: Global, rounds: u32, work: Work) -> Result<u64, Memory> {
    match work {
        Work::WithRandom => with_random(alloc, rounds),
        Work::WithWindow => with_window(alloc, rounds),
        Work::WithAll(line) => with_all(alloc, rounds, line),
        Work::EditAll(line) => edit_all(alloc, rounds, line),
        Work::Get => get(alloc, rounds),
        Work::FindAll(line) => find_all(alloc, rounds, line),
        Work::Entries => entries(alloc, rounds),
        Work::EntriesFrom => entries_from(alloc, rounds),
    }
}

fn random_map(alloc: Global, count: u32) -> Result<Map<u64>, Memory> {
    let value = Arc::new(alloc, 7)?;
    let mut draws = Draws::start();
    let mut map = Map::open(alloc);
    for _n in 0..count {
        map = map.with(draws.next(), Arc::try_clone(&value)?)?;
    }
    Ok(map)
}

fn with_random(alloc: Global, rounds: u32) -> Result<u64, Memory> {
    let map = random_map(alloc, rounds.saturating_mul(10_000))?;
    Ok(map.len() as u64)
}

fn with_window(alloc: Global, rounds: u32) -> Result<u64, Memory> {
    let value = Arc::new(alloc, 7)?;
    let mut map = Map::open(alloc);
    for n in 0..rounds.saturating_mul(10_000) {
        map = map.with(window_key(n), Arc::try_clone(&value)?)?;
    }
    Ok(map.len() as u64)
}

fn with_all(alloc: Global, rounds: u32, line: Line) -> Result<u64, Memory> {
    let edits = line.edits(alloc)?;
    let mut map = Map::open(alloc);
    for _n in 0..rounds {
        map = map.with_all(&edits)?;
    }
    Ok(map.len() as u64)
}

fn edit_all(alloc: Global, rounds: u32, line: Line) -> Result<u64, Memory> {
    let edits = line.edits(alloc)?;
    let mut map = Map::open(alloc);
    for _n in 0..rounds {
        map.edit_all(&edits)?;
    }
    Ok(map.len() as u64)
}

fn get(alloc: Global, rounds: u32) -> Result<u64, Memory> {
    let map = random_map(alloc, 100_000)?;
    let mut count: u64 = 0;
    for _n in 0..rounds {
        let mut draws = Draws::start();
        for m in 0..100_000u32 {
            let key = draws.next() ^ (m & 1);
            if map.get(key).is_some() {
                count = count.wrapping_add(1);
            }
        }
    }
    Ok(count)
}

fn find_all(alloc: Global, rounds: u32, line: Line) -> Result<u64, Memory> {
    let keys = line.keys(alloc)?;
    let map = Map::open(alloc).with_all(&line.edits(alloc)?)?;
    let mut count: u64 = 0;
    for _n in 0..rounds {
        for value in map.find_all(&keys) {
            if value.is_some() {
                count = count.wrapping_add(1);
            }
        }
    }
    Ok(count)
}

fn entries(alloc: Global, rounds: u32) -> Result<u64, Memory> {
    let map = random_map(alloc, 100_000)?;
    let mut count: u64 = 0;
    for _n in 0..rounds {
        for (key, value) in map.entries() {
            count = count.wrapping_add(u64::from(key) ^ *value);
        }
    }
    Ok(count)
}

fn entries_from(alloc: Global, rounds: u32) -> Result<u64, Memory> {
    let map = random_map(alloc, 100_000)?;
    let mut draws = Draws::start();
    let mut count: u64 = 0;
    for _n in 0..rounds.saturating_mul(10_000) {
        match map.entries_from(draws.next() ^ 1).next() {
            Some((key, value)) => count = count.wrapping_add(u64::from(key) ^ *value),
            None => {}
        }
    }
    Ok(count)
}
