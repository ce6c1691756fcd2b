//! What holds of the edges of every planar graph. A call gives its caller the law, and does nothing when it runs.

ghost use Rattle.edge_search.specs.EdgeOrder.{LowerStaysLower, AboveIsAboveThoseBefore};
ghost use Rattle.edge_search.specs.EdgeOrder.{LowerInsideComesBefore, OneEdgeHas};
ghost use Rattle.edge_search.specs.Near.{EnoughTellThePlace};

use planar_law::PlanarEdges;

/// An edge that is lower than another over a column stays lower over each column further right, as far
/// as both reach.
pub fn lower_stays_lower(planar: &PlanarEdges)
    ensures { LowerStaysLower planar.now.edges }
{
    let _edges = planar.edges();
}

/// Where edges stand in order over a column, the lower before the higher, and of equally high ones that of
/// less slope: there, and over each column further right that they have, a point above one of them is
/// above all before it. So a search by halves finds the first edge that a point isn't above.
pub fn above_is_above_those_before(planar: &PlanarEdges)
    ensures { AboveIsAboveThoseBefore planar.now.edges }
{
    let _edges = planar.edges();
}

/// Of two edges that aren't one, that which isn't the higher over a column inside both comes before the other
/// over each column that both have, also further left. So edges in order over one such column are in
/// order, from each query point upwards, over all columns that they all have.
pub fn lower_inside_comes_before(planar: &PlanarEdges)
    ensures { LowerInsideComesBefore planar.now.edges }
{
    let _edges = planar.edges();
}

/// A query point that is no end of an edge is on one edge at most.
pub fn one_edge_has(planar: &PlanarEdges)
    ensures { OneEdgeHas planar.now.edges }
{
    let _edges = planar.edges();
}

/// Where some of the edges have, for each edge with the query point's column, one on the same side of the point
/// that is no further from it, and each vertical edge on which the point lies, the point's place among
/// these few is its place among all.
pub fn enough_tell_the_place(planar: &PlanarEdges)
    ensures { EnoughTellThePlace planar.now }
{
    let _edges = planar.edges();
}
