//! The integer grid that every other crate stands on: points, names, segments, edges, and the exact
//! products of their coordinates.
//!
//! Coordinates are in pixels. Points are ordered by x, and at one x by y; names by editor, then by
//! serial. The definitions of the drawing and of its snap rounding are in `specs/`.

#![tactic(auto, using(crate::proofs::Signed::signed))]

mod arithmetic;
mod edge;
mod laws;
mod memory;
mod name;
mod pixel_box;
mod place;
mod point;
mod profile;
mod segment;
mod side;
mod tile;

pub use arithmetic::{cross, dot, offset, sum, vector};
pub use edge::Edge;
pub use laws::{
    bundles_are_of_routes, edges_are_of_routes, hot_pixels_are_counted, meets_where_a_point_lies,
    products_tell_pixels_apart, routes_are_met, routes_run_from_p_to_q,
};
pub use memory::Memory;
pub use name::Name;
pub use pixel_box::PixelBox;
pub use place::{Cell, Place};
pub use point::{Point, Vertex};
pub use profile::Profile;
pub use segment::{EndFault, Ur};
pub use side::{Side, side_of};
pub use tile::{TileId, tile_box, tile_of};
