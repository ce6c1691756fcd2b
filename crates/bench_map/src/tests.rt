//! Worked rows, that calls succeed with ample memory, and comparisons with std's map.

use radix_map::Map;
use std::alloc::{AllocError, Global};
use std::collections::BTreeMap;
use std::sync::Arc;
use std::test::Fail;
use std::thread::Threads;
use std::{mem, thread};

const LAST: u32 = 4_294_967_295;

fn map_of(alloc: Global, entries: &[(u32, u64)]) -> Result<Map<u64>, Fail> {
    let mut map = Map::open(alloc);
    for entry in entries {
        map = map.with(entry.0, Arc::new(alloc, entry.1)?)?;
    }
    Ok(map)
}

fn listed(alloc: Global, map: &Map<u64>) -> Result<Vec<(u32, u64)>, Fail> {
    let mut all = Vec::new(alloc);
    for (key, value) in map.entries() {
        all.push((key, *value))?;
    }
    Ok(all)
}

fn listed_from(alloc: Global, map: &Map<u64>, from: u32) -> Result<Vec<(u32, u64)>, Fail> {
    let mut all = Vec::new(alloc);
    for (key, value) in map.entries_from(from) {
        all.push((key, *value))?;
    }
    Ok(all)
}

fn found(alloc: Global, map: &Map<u64>, keys: &[u32]) -> Result<Vec<Option<u64>>, Fail> {
    let mut all = Vec::new(alloc);
    for value in map.find_all(keys) {
        all.push(value.copied())?;
    }
    Ok(all)
}

#[test]
fn tree_first_and_last_key(rt: HostRuntime) -> Result<(), Fail> {
    let alloc = rt.alloc();
    let before = map_of(alloc, &[(0, 1), (LAST, 2)])?;
    let map = before.with(0, Arc::new(alloc, 3)?)?;
    assert_eq!(rt;
        listed(alloc, &map)?.as_slice(),
        [(0, 3), (LAST, 2)].as_slice()
    );
    assert_eq!(rt; before.get(0).copied(), Some(1));
    assert_eq!(rt; map.len(), 2);
    Ok(())
}

#[test]
fn tree_without_a_missing_key(rt: HostRuntime) -> Result<(), Fail> {
    let alloc = rt.alloc();
    let map = map_of(alloc, &[(0, 3), (LAST, 2)])?.without(7)?;
    assert_eq!(rt;
        listed(alloc, &map)?.as_slice(),
        [(0, 3), (LAST, 2)].as_slice()
    );
    assert_eq!(rt; map.len(), 2);
    Ok(())
}

fn some_edits(alloc: Global) -> Result<Vec<(u32, Option<Arc<u64>>)>, Fail> {
    let mut edits = Vec::new(alloc);
    edits.push((1, None))?;
    edits.push((3, Some(Arc::new(alloc, 33)?)))?;
    edits.push((70_000, Some(Arc::new(alloc, 31)?)))?;
    Ok(edits)
}

#[test]
fn with_all_leaves_the_map_that_it_copies(rt: HostRuntime) -> Result<(), Fail> {
    let alloc = rt.alloc();
    let map = map_of(alloc, &[(1, 10), (70_000, 30)])?;
    let copy = map.with_all(&some_edits(alloc)?)?;
    assert_eq!(rt;
        listed(alloc, &copy)?.as_slice(),
        [(3, 33), (70_000, 31)].as_slice()
    );
    assert_eq!(rt;
        listed(alloc, &map)?.as_slice(),
        [(1, 10), (70_000, 30)].as_slice()
    );
    Ok(())
}

#[test]
fn edit_all_leaves_a_map_that_shares_nodes(rt: HostRuntime) -> Result<(), Fail> {
    let alloc = rt.alloc();
    let mut map = map_of(alloc, &[(1, 10), (70_000, 30)])?;
    let kept = map.without(1)?;
    map.edit_all(&some_edits(alloc)?)?;
    assert_eq!(rt;
        listed(alloc, &map)?.as_slice(),
        [(3, 33), (70_000, 31)].as_slice()
    );
    assert_eq!(rt; listed(alloc, &kept)?.as_slice(), [(70_000, 30)].as_slice());
    Ok(())
}

#[test]
fn find_all_answers_in_the_order_of_the_keys(rt: HostRuntime) -> Result<(), Fail> {
    let alloc = rt.alloc();
    let map = map_of(alloc, &[(1, 10), (LAST, 30)])?;
    let values = [Some(10), None, Some(30)];
    assert_eq!(rt;
        found(alloc, &map, &[1, 2, LAST])?.as_slice(),
        values.as_slice()
    );
    Ok(())
}

// Keys at the ends of a leaf and of nodes above, each with itself as its value.
const BORDERS: [(u32, u64); 10] = [
    (0, 0),
    (15, 15),
    (16, 16),
    (255, 255),
    (256, 256),
    (65_535, 65_535),
    (65_536, 65_536),
    (0x0fff_ffff, 0x0fff_ffff),
    (0x1000_0000, 0x1000_0000),
    (LAST, 0xffff_ffff),
];

// How many of them lie below a key.
const STARTS: [(&str, u32, usize); 14] = [
    ("at the first key", 0, 0),
    ("behind the first key", 1, 1),
    ("at the last key of a leaf", 15, 1),
    ("at the first key of the next leaf", 16, 2),
    ("within a leaf, behind its key", 17, 3),
    ("at the last key of sixteen leaves", 255, 3),
    ("at the first key behind sixteen leaves", 256, 4),
    ("in an empty leaf", 4_096, 5),
    ("at the last key below 2^16", 65_535, 5),
    ("at 2^16", 65_536, 6),
    ("at the last key of the root's first slot", 0x0fff_ffff, 7),
    ("at the first key of the root's second slot", 0x1000_0000, 8),
    ("in an empty slot of the root", 0xc000_0000, 9),
    ("at the greatest key", LAST, 9),
];

fn borders_behind(alloc: Global, below: usize) -> Result<Vec<(u32, u64)>, Fail> {
    let mut all = Vec::new(alloc);
    for entry in BORDERS.iter().skip(below) {
        all.push(*entry)?;
    }
    Ok(all)
}

#[test]
fn entries_from_begin_at_the_key_or_behind_it(rt: HostRuntime) -> Result<(), Fail> {
    let alloc = rt.alloc();
    let map = map_of(alloc, &BORDERS)?;
    for (name, from, below) in STARTS {
        let left = listed_from(alloc, &map, from)?;
        assert!(rt; left == borders_behind(alloc, below)?, "{name}");
    }
    assert_eq!(rt;
        map.without(LAST)?
            .entries_from(0x1000_0001)
            .next()
            .is_some(),
        false
    );
    Ok(())
}

fn len_in_a_thread(rt: &impl Threads, map: Map<u64>) -> Result<usize, AllocError> {
    let child = thread::spawn(rt, move || map.len())?;
    Ok(child.join(rt))
}

#[test]
fn a_map_moves_into_a_thread(rt: HostRuntime) -> Result<(), Fail> {
    let map = map_of(rt.alloc(), &[(5, 1), (6, 2)])?;
    assert_eq!(rt; len_in_a_thread(&rt, map)?, 2);
    Ok(())
}

// One of 600 keys: neighbours, or keys far apart.
fn key_of(draw: u64) -> u32 {
    let near = (draw % 600) as u32;
    if draw % 7 < 3 {
        near
    } else {
        near.wrapping_mul(7_158_279)
    }
}

// A map and std's, which have the same edits.
#[derive(Drop)]
struct Pair {
    map: Map<u64>,
    model: BTreeMap<u32, u64>,
}

impl Pair {
    // One edit, and the map that was there before it.
    fn edit(&mut self, alloc: Global, key: u32, value: Option<u64>) -> Result<Map<u64>, Fail> {
        let next = match value {
            Some(value) => {
                self.model.insert(key, value)?;
                self.map.with(key, Arc::new(alloc, value)?)?
            }
            None => {
                self.model.remove(&key);
                self.map.without(key)?
            }
        };
        Ok(mem::replace(&mut self.map, next))
    }

    fn wanted(&self, alloc: Global) -> Result<Vec<(u32, u64)>, Fail> {
        let mut all = Vec::new(alloc);
        for (key, value) in &self.model {
            all.push((*key, *value))?;
        }
        Ok(all)
    }
}

// Every 400th map is kept, with what it has.
#[test]
fn random_edits_agree_with_a_sorted_map(rt: HostRuntime) -> Result<(), Fail> {
    let alloc = rt.alloc();
    let mut pair = Pair {
        map: Map::open(alloc),
        model: BTreeMap::new(alloc),
    };
    let mut kept = Vec::new(alloc);
    let mut wanted = Vec::new(alloc);
    let mut draw: u64 = 1;
    for step in 0..4000u64 {
        draw = draw.wrapping_mul(48_271) % 2_147_483_647;
        if step % 400 == 0 {
            wanted.push(pair.wanted(alloc)?)?;
        }
        let value = if draw % 4 == 0 { None } else { Some(step) };
        let before = pair.edit(alloc, key_of(draw), value)?;
        if step % 400 == 0 {
            kept.push(before)?;
        }
    }
    assert_eq!(rt;
        listed(alloc, &pair.map)?.as_slice(),
        pair.wanted(alloc)?.as_slice()
    );
    let starts = [0, 1, 599, 7_158_279, 2_147_483_648, 4_287_809_121, LAST];
    assert!(rt; pair.agrees_from(alloc, &starts)?);
    for (map, entries) in kept.iter().zip(wanted.iter()) {
        assert_eq!(rt; listed(alloc, map)?.as_slice(), entries.as_slice());
    }
    Ok(())
}

type Edits = Vec<(u32, Option<Arc<u64>>)>;

// Edits of 100 keys, `step` apart from 0 on, and of the last key. Each third key is removed, from
// the key with number `first` on.
fn rising_edits(alloc: Global, step: u32, first: u32) -> Result<Edits, Fail> {
    let mut edits = Vec::new(alloc);
    for n in 0..100u32 {
        let value = if n % 3 == first {
            None
        } else {
            Some(Arc::new(alloc, u64::from(n))?)
        };
        edits.push((n.wrapping_mul(step), value))?;
    }
    edits.push((LAST, Some(Arc::new(alloc, 7)?)))?;
    Ok(edits)
}

impl Pair {
    // Each second key of the edits, and some beside them.
    fn of_even_keys(alloc: Global, step: u32) -> Result<Pair, Fail> {
        let mut pair = Pair {
            map: Map::open(alloc),
            model: BTreeMap::new(alloc),
        };
        for n in 0..60u32 {
            let key = n.wrapping_mul(step).wrapping_mul(2);
            let _before = pair.edit(alloc, key, Some(1_000))?;
        }
        Ok(pair)
    }

    fn edit_all(&mut self, edits: &[(u32, Option<Arc<u64>>)]) -> Result<(), Fail> {
        self.map.edit_all(edits)?;
        self.edit_model(edits)
    }

    fn edit_model(&mut self, edits: &[(u32, Option<Arc<u64>>)]) -> Result<(), Fail> {
        for edit in edits {
            match &edit.1 {
                Some(value) => {
                    self.model.insert(edit.0, **value)?;
                }
                None => {
                    self.model.remove(&edit.0);
                }
            }
        }
        Ok(())
    }

    // Whether the map has the entries of std's.
    fn agrees(&self, alloc: Global) -> Result<bool, Fail> {
        let wanted = self.wanted(alloc)?;
        Ok(listed(alloc, &self.map)? == wanted && self.map.len() == wanted.len())
    }

    // Whether the map has the entries of std's from each of the keys on.
    fn agrees_from(&self, alloc: Global, keys: &[u32]) -> Result<bool, Fail> {
        for from in keys {
            let mut wanted = Vec::new(alloc);
            for (key, value) in &self.model {
                if *key >= *from {
                    wanted.push((*key, *value))?;
                }
            }
            if listed_from(alloc, &self.map, *from)? != wanted {
                return Ok(false);
            }
        }
        Ok(true)
    }

    // Whether the map has the value of std's at each of the keys, one by one and all at once.
    fn agrees_at(&self, alloc: Global, keys: &[u32]) -> Result<bool, Fail> {
        let values = found(alloc, &self.map, keys)?;
        for (key, value) in keys.iter().zip(values.iter()) {
            let wanted = self.model.get(key);
            if self.map.get(*key) != wanted || value.as_ref() != wanted {
                return Ok(false);
            }
        }
        Ok(true)
    }
}

const STEPS: [(&str, u32); 3] = [
    ("neighbours", 1),
    ("one in a leaf", 16),
    ("far apart", 40_000_003),
];

// At first all nodes are shared with a map that is kept, and then none is.
#[test]
fn many_rising_edits_agree_with_a_sorted_map(rt: HostRuntime) -> Result<(), Fail> {
    let alloc = rt.alloc();
    for (name, step) in STEPS {
        let mut pair = Pair::of_even_keys(alloc, step)?;
        let before = pair.wanted(alloc)?;
        let kept = pair.map.with_all(&[])?;
        for first in 0..3u32 {
            pair.edit_all(&rising_edits(alloc, step, first)?)?;
            assert!(rt; pair.agrees(alloc)?, "{name}");
            assert!(rt; pair.agrees_at(alloc, &[0, step, 5, LAST])?, "{name}");
            assert!(rt; pair.agrees_from(alloc, &[0, step, 50, LAST])?, "{name}");
        }
        assert!(rt; listed(alloc, &kept)? == before, "{name}");
    }
    Ok(())
}
