//! Places in a rounding, by a plain scan over its vertices and edges: the form that every faster one
//! equals.
//!
//! With 1.1 from (0,0) to (10,0), 1.2 from (0,0) to (10,10) and 1.3 from (4,-6) to (4,-2), the query
//! points p to t have these places:
//!
//! ```text
//!   q             _ + (10,10)     p  (0, 0)          at the vertex (0,0)
//!           _  '   /              q  (0, 1)          above: none, below: (0,0)-(10,10)
//!     _ ' s       :               r  (4, -8)         above: (0,0)-(10,0), below: none
//!   p ------------+ (10,0)        s  (2, 1)          above: (0,0)-(10,10), below: (0,0)-(10,0)
//!       |         :               t  (10, 5)         above: none, below: none
//!       |         :
//!       r         t
//! ```

#![tactic(auto)]

mod laws;
mod scan;

pub use laws::{picture_is_drawn_within, rounding_is_drawn_within};
pub use scan::locate;

#[cfg(test)]
mod tests;
