//! What is said to a command.

use crate::Items;
use grid_core::{Edge, Name, Point, TileId, Vertex};

/// The reply to a command.
#[derive(Drop)]
pub struct Reply {
    /// The editor whose command it was, 1 to 64.
    pub editor: u8,
    pub said: Said,
}

/// What is said. Points are in pixels.
#[derive(Drop)]
pub enum Said {
    /// The number of the version that is held now.
    At {
        number: u32,
    },
    /// An insertion or a deletion of this segment is prepared.
    Ready {
        name: Name,
    },
    /// Nothing is prepared by this command.
    Refused {
        why: Refusal,
    },
    /// The tiles of the prepared change, in order.
    Reads {
        tiles: Items<TileId>,
    },
    /// Nothing was prepared.
    Nothing,
    /// The prepared change is given up.
    Dropped,
    /// The prepared change is the change of this number.
    Commit {
        number: u32,
    },
    /// Change `by`, made since, shares this tile with the prepared one.
    Stale {
        by: u32,
        tile: TileId,
    },
    /// The prepared change would pass a limit.
    Full {
        what: FullText,
    },
    /// The point asked for is this vertex.
    Vertex {
        at: Point,
    },
    /// The point asked for lies on this edge.
    OnEdge {
        edge: Edge,
    },
    /// The point asked for lies between these two edges, where there are any.
    Between {
        above: Option<Edge>,
        below: Option<Edge>,
    },
    /// The route of the segment, from its lesser end on.
    Route {
        name: Name,
        points: Items<Point>,
    },
    /// No segment of this name is live.
    Unknown {
        name: Name,
    },
    /// The pixel is hot.
    Hot {
        vertex: Vertex,
    },
    /// The pixel isn't hot.
    Cold {
        at: Point,
    },
    /// The names of the segments along the edge, in order.
    Bundle {
        edge: Edge,
        names: Items<Name>,
    },
    /// The two points aren't the ends of an edge.
    NoEdge,
    /// The walk around the face on the left of the half-edge asked for.
    Contour {
        walk: Walk,
    },
    /// The arrangement of the version that is held.
    Show {
        text: Items<u8>,
    },
}

/// Why nothing is prepared, in the order in which the causes are tried.
#[derive(Clone, Copy, Debug, PartialEq, Eq)]
pub enum Refusal {
    /// A change is prepared already.
    Busy,
    /// A coordinate is greater in size than the bound.
    Range,
    /// The two ends are one point.
    Point,
    /// The editor has no serial number left.
    Serials,
    /// No segment of the name is live in the version that is held.
    Unknown,
}

/// Which limit a change would pass, in the order in which they are tried.
#[derive(Clone, Copy, Debug, PartialEq, Eq)]
pub enum FullText {
    /// The number of changes.
    Commits,
    /// The number of live segments.
    Segments,
    /// The number of tiles that the live segments meet, each counted for itself.
    Spans,
    /// The number of points of all routes.
    Passes,
}

/// The walk around a face.
#[derive(Drop)]
pub struct Walk {
    /// Where its half-edges start, from the least half-edge on.
    pub points: Items<Point>,
    /// Twice the signed area, by the sum of the cross products around the walk.
    pub area2: i128,
}

impl Refusal {
    ghost use Rattle.std.specs.Prelude.{◌≡◌};
    ghost use Rattle.script_read.specs.Reply.{refusal_word};

    pub(crate) fn word(self) -> &'static str
        ensures { result.now ≡ refusal_word self }
    {
        match self {
            Refusal::Busy => "busy",
            Refusal::Range => "range",
            Refusal::Point => "point",
            Refusal::Serials => "serials",
            Refusal::Unknown => "unknown",
        }
    }
}

impl FullText {
    ghost use Rattle.std.specs.Prelude.{◌≡◌};
    ghost use Rattle.script_read.specs.Reply.{full_word};

    pub(crate) fn word(self) -> &'static str
        ensures { result.now ≡ full_word self }
    {
        match self {
            FullText::Commits => "commits",
            FullText::Segments => "segments",
            FullText::Spans => "spans",
            FullText::Passes => "passes",
        }
    }
}
