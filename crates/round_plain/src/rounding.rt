//! The snap rounding, made part by part: hot pixels, routes, edges.

ghost use Rattle.std.specs.Prelude.{◌≡◌, ◌≤◌, length, IfOk};
ghost use Rattle.std.specs.List.Sorted.{IsStrictlySortedBy};
ghost use Rattle.grid_core.specs.Name.{label_cmp};
ghost use Rattle.grid_core.specs.LiveList.{names};
ghost use Rattle.grid_core.specs.Rounding.{rounding_of};

use crate::Rounding;
use crate::bundles::bundles;
use crate::hot_pixels::hot_pixels;
use crate::routes::routes;
use grid_core::{Memory, Ur};
use std::alloc::Global;

/// The snap rounding of these segments, from nothing. They stand in order of name, at most 65,536
/// of them.
pub fn round(alloc: Global, segments: &[Ur]) -> Result<Rounding, Memory>
    requires rising { IsStrictlySortedBy label_cmp (names segments.now) }
    requires few { length segments.now ≤ 65536 }
    ensures { IfOk result (λ r. r ≡ rounding_of segments.now) }
{
    let vertices = hot_pixels(alloc, segments)?;
    let routes = routes(alloc, segments, &vertices)?;
    let edges = bundles(alloc, &routes)?;
    Ok(Rounding::of_parts(routes, vertices, edges))
}
