//! The crossing of two segments.

ghost use Rattle.std.specs.Prelude.{◌≡◌, ℕ, pos, ◌≤◌, ◌<◌, ◌*◌, ◌^◌, ◌+ℤ◌, ◌-ℤ◌, ◌*ℤ◌};
ghost use Rattle.std.specs.Prelude.{unsigned_abs, IfSome};
ghost use Rattle.grid_core.specs.Vector.{IsWithin, cross_of, minus};
ghost use Rattle.grid_core.specs.Segment.{IsSegment};
ghost use Rattle.grid_core.specs.Crossing.{crossing_of, point_along, within_both};
ghost use Rattle.rat_cross.specs.Apart.{apart_of, columns_apart_of, rows_apart_of, separate_of};
ghost use Rattle.rat_cross.specs.Apart.{unordered_separate_of};
ghost use Rattle.rat_cross.specs.CrossPoint.{IsCrossPoint};

use crate::Cross;
use crate::cross_product::CrossProduct;
use grid_core::{Point, Ur, offset, sum, vector};

/// The common point of two segments that aren't parallel, touches and shared ends included. `None`
/// where they have none, or are parallel.
#[inline]
pub fn crossing(s: &Ur, t: &Ur) -> Option<Cross>
    ensures value { result ≡ crossing_of s.now t.now }
    ensures within { (n : ℕ) → IsSegment n s.now → IsSegment n t.now
        → IfSome result (IsCrossPoint n) }
{
    if apart(s, t) {
        return None;
    }
    let d = direction_between(s.p(), s.q());
    let e = direction_between(t.p(), t.q());
    let turn = CrossProduct::of(d, e);
    if turn.is_positive() {
        common_point(s, direction_between(s.p(), t.p()), d, e, turn.size())
    } else if turn.is_negative() {
        common_point(s, direction_between(t.p(), s.p()), d, e, turn.size())
    } else {
        None
    }
}

/// Whether the bounding boxes of the two segments have no point in common.
#[inline(always)]
fn apart(s: &Ur, t: &Ur) -> bool
    ensures value { result ≡ apart_of s.now t.now }
    ensures first_kept { IsSegment (2 ^ 30) s.now }
    ensures second_kept { IsSegment (2 ^ 30) t.now }
{
    columns_apart(s, t) || rows_apart(s, t)
}

/// Whether no vertical line meets both segments.
#[inline(always)]
fn columns_apart(s: &Ur, t: &Ur) -> bool
    ensures value { result ≡ columns_apart_of s.now t.now }
    ensures first_kept { IsSegment (2 ^ 30) s.now }
    ensures second_kept { IsSegment (2 ^ 30) t.now }
{
    separate(s.p().x, s.q().x, t.p().x, t.q().x)
}

/// Whether no level line meets both segments.
#[inline(always)]
fn rows_apart(s: &Ur, t: &Ur) -> bool
    ensures { result ≡ rows_apart_of s.now t.now }
{
    unordered_separate(s.p().y, s.q().y, t.p().y, t.q().y)
}

/// Whether no number is between `a` and `b` and between `c` and `d`, each pair in either order.
#[inline(always)]
fn unordered_separate(a: i64, b: i64, c: i64, d: i64) -> bool
    ensures { result ≡ unordered_separate_of a b c d }
{
    separate(a.min(b), a.max(b), c.min(d), c.max(d))
}

/// Whether no number is both from `a` to `b` and from `c` to `d`.
#[inline(always)]
fn separate(a: i64, b: i64, c: i64, d: i64) -> bool
    ensures { result ≡ separate_of a b c d }
{
    b < c || d < a
}

/// The direction from one end to another.
#[inline(always)]
fn direction_between(from: Point, to: Point) -> Point
    requires from_within { IsWithin (2 ^ 30) from }
    requires to_within { IsWithin (2 ^ 30) to }
    ensures value { result ≡ minus to from }
    ensures small { IsWithin (2 ^ 31) result }
{
    vector(from, to)
}

/// The point of `s` at the parameter `(w x e) / den`, where that and `(w x d) / den` are from 0 to
/// 1.
#[inline(always)]
fn common_point(s: &Ur, w: Point, d: Point, e: Point, den: u64) -> Option<Cross>
    requires way { IsWithin (2 ^ 31) w }
    requires first { IsWithin (2 ^ 31) d }
    requires second { IsWithin (2 ^ 31) e }
    requires positive { 0 < den }
    requires small { den ≤ 2 ^ 63 }
    ensures { result ≡ within_both s.now (cross_of w e) (cross_of w d) (pos den) }
{
    let u = CrossProduct::of(w, e);
    if !u.lies_within(den) {
        return None;
    }
    if !CrossProduct::of(w, d).lies_within(den) {
        return None;
    }
    Some(point_at(s, u.size(), den))
}

/// The point of `s` at the parameter `u / den`.
#[inline(always)]
fn point_at(s: &Ur, u: u64, den: u64) -> Cross
    requires positive { 0 < den }
    requires small { den ≤ 2 ^ 63 }
    requires part { u ≤ den }
    ensures { result ≡ point_along s.now (pos u) (pos den) }
{
    let p = s.p();
    let q = s.q();
    let num_x = along(p.x, q.x, u, den);
    let num_y = along(p.y, q.y, u, den);
    Cross::new(num_x, num_y, i128::from(den))
}

/// What `p + (u / den) (q - p)` is in units of `1 / den`. Below 2^94 in size.
#[inline(always)]
fn along(p: i64, q: i64, u: u64, den: u64) -> i128
    requires from { unsigned_abs p ≤ 2 ^ 30 }
    requires to { unsigned_abs q ≤ 2 ^ 30 }
    requires small { den ≤ 2 ^ 63 }
    requires part { u ≤ den }
    ensures value { result ≡ p *ℤ pos den +ℤ pos u *ℤ (q -ℤ p) }
    ensures within { unsigned_abs result ≤ 2 ^ 30 * den }
{
    sum(scaled(den, p), scaled(u, offset(p, q)))
}

/// `a * b`. At most 2^94 in size.
#[inline(always)]
fn scaled(a: u64, b: i64) -> i128
    requires left { a ≤ 2 ^ 63 }
    requires right { unsigned_abs b ≤ 2 ^ 31 }
    ensures value { result ≡ pos a *ℤ b }
    ensures small { unsigned_abs result ≤ 2 ^ 94 }
{
    i128::from(a) * i128::from(b)
}
