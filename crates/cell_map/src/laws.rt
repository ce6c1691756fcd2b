//! What holds of the strips of every graph. A call gives its caller the law, and does nothing when it runs.

ghost use Rattle.cell_map.specs.Strips.{Strips, DifferIn, AreStripsOf, AreRefreshed};
ghost use Rattle.cell_map.specs.Arranged.{HasSearchableStrips};

use edge_search::{lower_inside_comes_before, one_edge_has};
use planar_law::PlanarEdges;

/// Where two graphs differ in the strips with these numbers alone, the strips of the one, refreshed
/// there by the other, are the strips of the other, as `build` makes them.
pub fn refreshed_are_built(strips: &[i64], before: &PlanarEdges, after: &PlanarEdges)
    ensures { (old new : Strips) → DifferIn strips.now before.now after.now
        → AreStripsOf before.now old
        → AreRefreshed after.now strips.now old new
        → AreStripsOf after.now new }
{
    let _before = before.edges();
    let _after = after.edges();
}

/// What lies in each strip of a graph can be searched.
pub(crate) fn strips_are_searchable(planar: &PlanarEdges)
    ensures { HasSearchableStrips planar.now }
{
    lower_inside_comes_before(planar);
    one_edge_has(planar);
    let _edges = planar.edges();
}
