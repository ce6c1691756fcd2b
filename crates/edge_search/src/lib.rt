//! A search by halves for the edges nearest to a query point, among edges that don't cross.

#![tactic(auto, using(grid_core::proofs::Signed::signed))]

mod candidates;
mod cut;
mod laws;
mod node;
mod order;
mod piece;
mod rank;
mod search;
mod verticals;

pub use laws::{
    above_is_above_those_before, enough_tell_the_place, lower_inside_comes_before,
    lower_stays_lower, one_edge_has,
};
pub use search::EdgeSearch;

#[cfg(test)]
mod tests;
