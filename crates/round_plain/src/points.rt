//! A list of points, as a route is.

use grid_core::Point;
use std::marker::Model;

/// A list of points.
#[derive(Drop)]
pub struct Points {
    items: Vec<Point>,
}

impl Model for Points {
    ghost use Rattle.std.specs.Prelude.{List};
    ghost use Rattle.grid_core.specs.declared.point.Point.{Point};

    ghost Value = { List Point };

    ghost view = { λ p. p.items.items };
}

impl Points {
    ghost use Rattle.std.specs.Prelude.{◌≡◌};

    /// The list of these points. Takes no memory.
    pub fn of(points: Vec<Point>) -> Points
        ensures { result ≡ points.items }
    {
        Points { items: points }
    }

    /// The points, in order.
    pub fn as_slice(&self) -> &[Point]
        ensures { result.now ≡ self.now }
    {
        self.items.as_slice()
    }

    /// The points as a vector. Takes no memory.
    pub fn into_vec(self) -> Vec<Point>
        ensures { result.items ≡ self }
    {
        self.items
    }
}
