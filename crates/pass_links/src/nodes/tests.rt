use super::{END, Nodes};
use crate::node::Node;
use grid_core::{Name, Point};
use std::collections::BTreeMap;
use std::test::Fail;

/// The most nodes that the test below keeps.
const KEPT: usize = 24;

/// A node that has this number in its links and in its pixel.
fn node_of(name: Name, number: u32) -> Node {
    Node {
        name,
        pixel: Point {
            x: number as i64,
            y: 0,
        },
        next_of_segment: number,
        previous_of_segment: END,
        next_of_pixel: END,
        previous_of_pixel: END,
    }
}

/// The number in a node's links, and that in its pixel.
fn numbers(node: Node) -> (u32, i64) {
    (node.next_of_segment, node.pixel.x)
}

#[test]
fn random_calls_as_in_a_plain_map(rt: HostRuntime) -> Result<(), Fail> {
    let name = Name::new(1, 1).ok_or("1.1 is a name")?;
    let mut nodes = Nodes::new(rt.alloc());
    let mut plain: BTreeMap<u32, (u32, i64)> = BTreeMap::new(rt.alloc());
    let mut drawn: u32 = 1;
    for _ in 0..2_000 {
        drawn = drawn.wrapping_mul(1_664_525).wrapping_add(1_013_904_223);
        let key = (drawn >> 10) % 32;
        match (drawn >> 20) % 10 {
            0 => nodes = nodes.copy_with_room((drawn >> 24) as usize % 3)?,
            1..=3 => {
                if nodes.get(key).is_some() {
                    nodes.remove(key);
                    plain.remove(&key);
                }
            }
            4 | 5 => {
                if let Some(node) = nodes.get(key) {
                    let pixel = node.pixel;
                    nodes.set(
                        key,
                        Node {
                            pixel,
                            ..node_of(name, drawn)
                        },
                    );
                    plain.insert(key, (drawn, pixel.x))?;
                }
            }
            _ => {
                if plain.len() < KEPT {
                    nodes.reserve(1)?;
                    let key = nodes.insert(node_of(name, drawn));
                    assert!(rt; plain.insert(key, (drawn, drawn as i64))?.is_none());
                    // The keys of nodes that were removed are given out again.
                    assert!(rt; (key as usize) < KEPT);
                }
            }
        }
        for key in 0..32 {
            assert_eq!(rt; nodes.get(key).map(numbers), plain.get(&key).copied());
        }
    }
    Ok(())
}

#[test]
fn more_nodes_than_keys_are_refused(rt: HostRuntime) -> Result<(), Fail> {
    let name = Name::new(1, 1).ok_or("1.1 is a name")?;
    let mut nodes = Nodes::new(rt.alloc());
    nodes.reserve(2)?;
    let key = nodes.insert(node_of(name, 7));
    assert!(rt; nodes.reserve(usize::MAX).is_err());
    assert!(rt; nodes.copy_with_room(usize::MAX).is_err());
    assert_eq!(rt; nodes.get(key).map(numbers), Some((7, 7)));
    assert!(rt; nodes.room() >= 1);
    Ok(())
}
