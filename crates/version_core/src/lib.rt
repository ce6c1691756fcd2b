//! Versions of a drawing, kept tile by tile; the changes that lead from one to the next, their
//! histories, and the law by which a change that was prepared on an older live list may be committed
//! to a newer one.
//!
//! ```text
//!    history   1: insert 3.1 (0,0)-(2000,0)      tiles (0,0) .. (7,0)
//!              2: insert 2.1 (1500,-5)-(1500,5)  tiles (5,-1) (5,0)
//!
//!    editor 1 prepared on version 1: insert 1.1 (10,-5)-(10,5), tiles (0,-1) (0,0).
//!    Change 2 shares no tile with it, so what was prepared stands after change 2 too: it fits, its
//!    tiles are what they will be, and it gains as many passes and spans.
//! ```

#![tactic(auto)]

mod change;
mod entry;
mod laws;
mod looked;
mod lookup;
mod read;
mod renew;
mod renewal;
mod replace;
mod version;

pub use change::{Change, Edit};
pub use laws::changes_are_rebased;
pub use looked::{Look, Looked};
pub use read::RouteFault;
pub use renewal::{NewTiles, Renewal};
pub use version::Version;

#[cfg(test)]
mod tests;
