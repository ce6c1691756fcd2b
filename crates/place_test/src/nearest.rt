//! A scan over vertices and edges for what lies nearest to a query point.

ghost use Rattle.std.specs.Prelude.{◌≡◌, ◌^◌, IfSome, if◌then◌else◌, ◌&&◌, int_lt, pos};
ghost use Rattle.grid_core.specs.Vector.{IsWithin};
ghost use Rattle.grid_core.specs.Edge.{edge_cmp};
ghost use Rattle.grid_core.specs.Places.{lies_on, spans, side_of_edge, upwards_cmp, downwards_cmp};
ghost use Rattle.place_test.specs.Reach.{IsEdgeWithin};
ghost use Rattle.place_test.specs.Nearest.{first_of, vertex_or};

use crate::height::{downwards, upwards};
use crate::side::{is_at, is_in_columns, is_left_of, is_right_of, lies_on, spans};
use grid_core::{Edge, Place, Point};
use std::cmp::Ordering;
use std::marker::Model;

/// What lies nearest to a query point among the vertices and edges that a scan has come to: the vertex
/// at the point, the least edge that has it, and the nearest edges above and below it. These two have
/// no coordinate greater than 2^30 in size.
#[derive(Clone, Copy, Debug)]
pub struct Nearest {
    vertex: Option<Point>,
    on: Option<Edge>,
    above: Option<Edge>,
    below: Option<Edge>,
}

impl Model for Nearest {
    ghost use Rattle.std.specs.Prelude.{◌^◌};
    ghost use Rattle.place_test.specs.Nearest.{Around, AreNearWithin};

    ghost Value = { Around };

    ghost view = { λ n. record {
      vertex = n.vertex;
      on = n.on;
      above = n.above;
      below = n.below;
    } };

    ghost invariant = { λ n. AreNearWithin (2 ^ 30) (record {
      vertex = n.vertex;
      on = n.on;
      above = n.above;
      below = n.below;
    }) };

    ghost inverse = { λ n. record {
      vertex = n.vertex;
      on = n.on;
      above = n.above;
      below = n.below;
    } };
}

impl Nearest {
    ghost use Rattle.std.specs.Prelude.{◌≡◌, ◌^◌, List, [], ◌∷◌, ◌++◌};
    ghost use Rattle.grid_core.specs.declared.point.Point.{Point};
    ghost use Rattle.grid_core.specs.Vector.{IsWithin};
    ghost use Rattle.grid_core.specs.Edge.{EdgeEnds};
    ghost use Rattle.grid_core.specs.Places.{place_among};
    ghost use Rattle.place_test.specs.Reach.{IsEdgeWithin};
    ghost use Rattle.place_test.specs.Nearest.{around, AreNearWithin};

    /// Before the scan.
    pub fn of_nothing() -> Nearest
        ensures { (q : Point) → result ≡ around [] [] q }
    {
        Nearest {
            vertex: None,
            on: None,
            above: None,
            below: None,
        }
    }

    /// Takes one vertex more.
    #[inline]
    pub fn add_vertex(&mut self, at: Point, h: Point)
        requires { IsWithin (2 ^ 30) h }
        ensures { (vs : List Point) (es : List EdgeEnds) → self.old ≡ around vs es at
            → self.new ≡ around (vs ++ h ∷ []) es at }
    {
        keep_first_at(&mut self.vertex, at, h);
    }

    /// Takes one edge more. An edge that is wholly left or right of the query point costs two
    /// comparisons.
    #[inline]
    pub fn add_edge(&mut self, at: Point, e: &Edge)
        requires at_within { IsWithin (2 ^ 40) at }
        requires edge_within { IsEdgeWithin (2 ^ 30) e.now }
        ensures { (vs : List Point) (es : List EdgeEnds) → self.old ≡ around vs es at
            → self.new ≡ around vs (es ++ e.now ∷ []) at }
    {
        if is_in_columns(at, e) {
            keep_least_on(&mut self.on, at, e);
            keep_first_above(&mut self.above, at, e);
            keep_first_below(&mut self.below, at, e);
        }
    }

    /// The nearest edge above the query point.
    #[inline]
    pub fn above(&self) -> Option<Edge>
        ensures value { result ≡ self.now.above }
        ensures kept { AreNearWithin (2 ^ 30) self.now }
    {
        self.above
    }

    /// The nearest edge below the query point.
    #[inline]
    pub fn below(&self) -> Option<Edge>
        ensures value { result ≡ self.now.below }
        ensures kept { AreNearWithin (2 ^ 30) self.now }
    {
        self.below
    }

    /// Where the query point lies among what the scan has come to.
    pub fn place(&self) -> Place
        ensures { (vs : List Point) (es : List EdgeEnds) (q : Point) → self.now ≡ around vs es q
            → result ≡ place_among vs es q }
    {
        match (self.vertex, self.on) {
            (Some(h), _) => Place::Vertex(h),
            (None, Some(e)) => Place::OnEdge(e),
            (None, None) => Place::Between {
                above: self.above,
                below: self.below,
            },
        }
    }
}

/// The vertex at the query point so far, or else this one if it is there.
#[inline(always)]
fn keep_first_at(so_far: &mut Option<Point>, at: Point, h: Point)
    requires { IsWithin (2 ^ 30) h }
    ensures { so_far.new ≡ vertex_or at so_far.old h }
{
    match *so_far {
        Some(_) => {}
        None => {
            if is_at(at, h) {
                *so_far = Some(h);
            }
        }
    }
}

/// The least edge that has the query point, of the one so far and this one.
#[inline(always)]
fn keep_least_on(so_far: &mut Option<Edge>, at: Point, e: &Edge)
    requires at_within { IsWithin (2 ^ 40) at }
    requires edge_within { IsEdgeWithin (2 ^ 30) e.now }
    ensures { so_far.new
        ≡ if lies_on at e.now then first_of edge_cmp so_far.old e.now else so_far.old }
{
    if lies_on(at, e) {
        *so_far = lesser(*so_far, e);
    }
}

/// The nearest edge above the query point, of the one so far and this one.
#[inline(always)]
fn keep_first_above(so_far: &mut Option<Edge>, at: Point, e: &Edge)
    requires at_within { IsWithin (2 ^ 40) at }
    requires so_far_within { IfSome so_far.old (IsEdgeWithin (2 ^ 30)) }
    requires edge_within { IsEdgeWithin (2 ^ 30) e.now }
    ensures value { so_far.new ≡ if spans at e.now && int_lt (side_of_edge e.now at) (pos 0)
        then first_of (upwards_cmp at) so_far.old e.now else so_far.old }
    ensures within { IfSome so_far.new (IsEdgeWithin (2 ^ 30)) }
{
    if spans(at, e) && is_right_of(at, e) {
        *so_far = lower(at, *so_far, e);
    }
}

/// The nearest edge below the query point, of the one so far and this one.
#[inline(always)]
fn keep_first_below(so_far: &mut Option<Edge>, at: Point, e: &Edge)
    requires at_within { IsWithin (2 ^ 40) at }
    requires so_far_within { IfSome so_far.old (IsEdgeWithin (2 ^ 30)) }
    requires edge_within { IsEdgeWithin (2 ^ 30) e.now }
    ensures value { so_far.new ≡ if spans at e.now && int_lt (pos 0) (side_of_edge e.now at)
        then first_of (downwards_cmp at) so_far.old e.now else so_far.old }
    ensures within { IfSome so_far.new (IsEdgeWithin (2 ^ 30)) }
{
    if spans(at, e) && is_left_of(at, e) {
        *so_far = higher(at, *so_far, e);
    }
}

/// The lesser of the edge so far and this one.
#[inline(always)]
fn lesser(so_far: Option<Edge>, e: &Edge) -> Option<Edge>
    ensures { result ≡ first_of edge_cmp so_far e.now }
{
    match so_far {
        None => Some(*e),
        Some(f) => if *e < f { Some(*e) } else { Some(f) },
    }
}

/// The first upwards of the edge so far and this one.
#[inline(always)]
fn lower(at: Point, so_far: Option<Edge>, e: &Edge) -> Option<Edge>
    requires at_within { IsWithin (2 ^ 40) at }
    requires so_far_within { IfSome so_far (IsEdgeWithin (2 ^ 30)) }
    requires edge_within { IsEdgeWithin (2 ^ 30) e.now }
    ensures value { result ≡ first_of (upwards_cmp at) so_far e.now }
    ensures within { IfSome result (IsEdgeWithin (2 ^ 30)) }
{
    match so_far {
        None => Some(*e),
        Some(f) => match upwards(at, e, &f) {
            Ordering::Less => Some(*e),
            _ => Some(f),
        },
    }
}

/// The first downwards of the edge so far and this one.
#[inline(always)]
fn higher(at: Point, so_far: Option<Edge>, e: &Edge) -> Option<Edge>
    requires at_within { IsWithin (2 ^ 40) at }
    requires so_far_within { IfSome so_far (IsEdgeWithin (2 ^ 30)) }
    requires edge_within { IsEdgeWithin (2 ^ 30) e.now }
    ensures value { result ≡ first_of (downwards_cmp at) so_far e.now }
    ensures within { IfSome result (IsEdgeWithin (2 ^ 30)) }
{
    match so_far {
        None => Some(*e),
        Some(f) => match downwards(at, e, &f) {
            Ordering::Less => Some(*e),
            _ => Some(f),
        },
    }
}
