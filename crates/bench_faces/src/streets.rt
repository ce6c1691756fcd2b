//! A grid of streets: 205 columns and 245 rows of corners, 64 pixels apart, with 100,000 edges.

use grid_core::{Edge, Memory, Point};
use std::alloc::Global;

const COLUMNS: i64 = 205;

const ROWS: i64 = 245;

const APART: i64 = 64;

/// The edges, in rising order.
pub(crate) fn streets(alloc: Global) -> Result<Vec<Edge>, Memory> {
    let mut edges = Vec::with_capacity(alloc, 100_000)?;
    for i in 0..COLUMNS {
        for j in 0..ROWS {
            if j + 1 < ROWS {
                push_edge(&mut edges, corner(i, j), corner(i, j + 1))?;
            }
            if i + 1 < COLUMNS {
                push_edge(&mut edges, corner(i, j), corner(i + 1, j))?;
            }
        }
    }
    Ok(edges)
}

fn corner(i: i64, j: i64) -> Point {
    Point {
        x: i.wrapping_mul(APART),
        y: j.wrapping_mul(APART),
    }
}

fn push_edge(edges: &mut Vec<Edge>, u: Point, v: Point) -> Result<(), Memory> {
    if let Some(edge) = Edge::of(u, v) {
        edges.push(edge)?;
    }
    Ok(())
}
