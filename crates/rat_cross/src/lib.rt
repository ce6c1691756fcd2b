//! Where two segments cross, exactly: a fraction of whole numbers, and the pixel that it lies in.
//!
//! Touches and shared ends are crossings; parallel segments have none, even where they overlap.
//! Denominators are the sizes of cross products, and are not reduced.

#![tactic(auto, using(grid_core::proofs::Signed::signed))]

mod cross_point;
mod cross_product;
mod intersection;

pub use cross_point::{Cross, pixel};
pub use intersection::crossing;

#[cfg(test)]
mod tests;
