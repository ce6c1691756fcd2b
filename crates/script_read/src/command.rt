//! What a line asks for.

use grid_core::{Name, Point};

/// What one editor asks for.
#[derive(Clone, Copy, Debug, PartialEq, Eq)]
pub struct Command {
    /// The editor, 1 to 64.
    pub editor: u8,
    pub act: Act,
}

/// What is asked for.
#[derive(Clone, Copy, Debug, PartialEq, Eq)]
pub enum Act {
    /// Hold the newest version.
    Take,
    /// Prepare the insertion of the segment between two points, in pixels.
    Insert { a: Point, b: Point },
    /// Prepare the deletion of the segment of this name.
    Delete { name: Name },
    /// Tell the tiles of the prepared change.
    Reads,
    /// Make the prepared change part of the drawing.
    Commit,
    /// Give the prepared change up.
    Drop,
    /// Ask about the version that is held.
    Ask(Query),
}

/// A question about a version of the drawing.
#[derive(Clone, Copy, Debug, PartialEq, Eq)]
pub enum Query {
    /// What lies at this point, given in 1/256 of a pixel: at most 2^34 in size.
    Locate { at: Point },
    /// Which points the route of this segment has.
    Route { name: Name },
    /// Whether this pixel is hot, and why.
    Hot { at: Point },
    /// Which segments run along the edge between two points, in pixels.
    Bundle { a: Point, b: Point },
    /// The walk around a face, from the half-edge from `a` to `b` on, in pixels.
    Contour { a: Point, b: Point },
    /// The whole drawing as its arrangement.
    Show,
}

impl Act {
    ghost use Rattle.std.specs.Prelude.{◌≡◌};
    ghost use Rattle.script_read.specs.Command.{is_served};

    /// Whether acts of this kind are served so far. A line that asks for any other is bad.
    pub(crate) fn is_served(&self) -> bool
        ensures { result ≡ is_served self.now }
    {
        match self {
            Act::Take | Act::Insert { .. } | Act::Delete { .. } => true,
            Act::Reads | Act::Commit | Act::Drop => true,
            Act::Ask(query) => matches!(query, Query::Show),
        }
    }
}
