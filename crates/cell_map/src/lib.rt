//! Places and cells by vertical strips of 256 columns.
//!
//! A strip keeps the vertices in it and the edges that meet it, whole; its walls are the columns 256 k
//! and 256 (k + 1). A query takes the strip by its number, and looks at nothing outside it. With the
//! edges (-4,1)-(6,3), (6,3)-(9,1), (6,3)-(260,5) and (2,-1)-(300,-1) strip 0 has these cells, each with
//! the edges above and below it and two columns:
//!
//! ```text
//!   wall                                    wall
//!    |                                  _ - |     The cell of q has (6,3)-(260,5) above and
//!    |          o - - - - - - - - - - '     |     (6,3)-(9,1) below. It begins at 6, where both
//!    |  _ . - ' :\   q   :                  |     begin, and ends at 9, where a vertex lies
//!    |'         : \      :                  |     between them; past 9 (2,-1)-(300,-1) is below.
//!    |     :    :   ` .  o                  |     A cell ends at a wall at the latest, and edges
//!    |     o----------------------------------    that go on past it end no cell.
//!    0     2    6        9                 256
//! ```
//!
//! Where a point lies follows from its strip alone: an edge that has the point, or its column, meets the
//! strip, and a vertex outside is no nearer than the wall on its side. A strip is filled edge by edge,
//! and vertex by vertex. Once it is complete it is arranged: its edges go into a search by halves, which
//! finds those nearest to a point, and its vertices stand in order, by x and then y. So a query doesn't
//! come to all that lies in its strip. Cells are not kept: each is found from its two edges and the
//! vertices.

#![tactic(auto, using(grid_core::proofs::Signed::signed))]

mod arranged;
mod cell;
mod cell_map;
mod columns;
mod exchange;
mod fill;
mod found;
mod laws;
mod strip;

pub use cell_map::CellMap;
pub use found::Found;
pub use laws::refreshed_are_built;

#[cfg(test)]
mod tests;
