//! Contours.

use grid_core::Point;
use std::marker::Model;

/// A walk along half-edges until it is back, with the face on its left.
#[derive(Debug, Drop)]
pub struct Contour {
    /// The start points of its half-edges, from its least half-edge on.
    pub points: Vec<Point>,
    /// Twice the signed area: the sum of the cross products of neighbouring points, the last with
    /// the first. Its size is at most 2^61 times the number of points.
    pub area2: i128,
}

impl Model for Contour {
    ghost use Rattle.grid_core.specs.Contours.{BoundaryWalk};

    ghost Value = { BoundaryWalk };

    ghost view = { λ c. record { points = c.points.items; area2 = c.area2 } };
}
