//! What follows from the definition of contours, for every list of edges.
//! A call gives its caller the law, and does nothing when it runs.

ghost use Rattle.face_trace.specs.Laws.{NextIsOneToOne, WalksComeBack};

use grid_core::Edge;

/// No two half-edges have one next.
pub fn next_is_one_to_one(edges: &[Edge])
    ensures { NextIsOneToOne edges.now }
{}

/// The walk from each half-edge goes from next to next, has each half-edge once, and comes back to
/// the one that it began with.
pub fn walks_come_back(edges: &[Edge])
    ensures { WalksComeBack edges.now }
{}
