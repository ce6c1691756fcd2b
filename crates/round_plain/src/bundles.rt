//! The edges of the routes, with their bundles.

ghost use Rattle.std.specs.Prelude.{◌≡◌, All, fold, IfOk, OnOk};
ghost use Rattle.std.specs.List.{IsDistinct};
ghost use Rattle.grid_core.specs.Vector.{point_eq};
ghost use Rattle.round_plain.specs.Bundles.{bundles, named_edges, named_edges_of, with_named_edge};

use crate::{Bundled, Names, Routed};
use grid_core::{Edge, Memory, Name};
use std::alloc::Global;
use std::collections::BTreeMap;

/// The edges of the routes in order, with the names of the segments that have them.
/// No route has a point twice.
pub(crate) fn bundles(alloc: Global, routes: &[Routed]) -> Result<Vec<Bundled>, Memory>
    requires { All (λ r. IsDistinct point_eq r.points) routes.now }
    ensures { IfOk result (λ bs. bs.items ≡ bundles (named_edges routes.now)) }
{
    let mut gathered = BTreeMap::new(alloc);
    for route in routes {
        add_route(alloc, &mut gathered, route)?;
    }
    let bundles = gathered
        .into_iter()
        .map(|(edge, names)| Bundled { edge, names })
        .collect(alloc)?;
    Ok(bundles)
}

/// Adds the route's name to each of its edges.
fn add_route(
    alloc: Global,
    gathered: &mut BTreeMap<Edge, Names>,
    route: &Routed,
) -> Result<(), Memory>
    requires { IsDistinct point_eq route.now.points }
    ensures { OnOk result
        (gathered.new.entries ≡ fold with_named_edge gathered.old.entries (named_edges_of route.now)) }
{
    let name = route.ur.name();
    let points = route.points.as_slice();
    for i in 1..points.len() {
        let edge = Edge::of(points[i - 1], points[i]).unwrap();
        add_name(alloc, gathered, edge, name)?;
    }
    Ok(())
}

/// Adds the name to the edge.
fn add_name(
    alloc: Global,
    gathered: &mut BTreeMap<Edge, Names>,
    edge: Edge,
    name: Name,
) -> Result<(), Memory>
    ensures { OnOk result (gathered.new.entries ≡ with_named_edge gathered.old.entries (edge, name)) }
{
    match gathered.get_mut(&edge) {
        Some(names) => names.push(name),
        None => {
            let mut names = Names::open(alloc);
            names.push(name)?;
            gathered.insert(edge, names)?;
            Ok(())
        }
    }
}
