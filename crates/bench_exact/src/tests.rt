use crate::cases::draw_cases;
use grid_core::{Name, Point, Profile, Ur};
use pixel_test::meets_pixel;
use rat_cross::{Cross, crossing};
use std::alloc::AllocError;

/// A constraint on a number t: `a + b t >= 0`, or `> 0` where it is strict.
#[derive(Clone, Copy)]
struct Constraint {
    a: i64,
    b: i64,
    strict: bool,
}

/// Whether `value` keeps a constraint.
fn is_kept(strict: bool, value: i64) -> bool {
    if strict { value > 0 } else { value >= 0 }
}

/// `d x e`, of small coordinates.
fn plain_cross(d: Point, e: Point) -> i64 {
    d.x.wrapping_mul(e.y).wrapping_sub(d.y.wrapping_mul(e.x))
}

/// `b - a`, of small coordinates.
fn plain_minus(b: Point, a: Point) -> Point {
    Point {
        x: b.x.wrapping_sub(a.x),
        y: b.y.wrapping_sub(a.y),
    }
}

/// The two constraints of one coordinate: from `at - 1/2` to below `at + 1/2`, everything doubled.
fn sides(p: i64, d: i64, at: i64) -> [Constraint; 2] {
    let low = p.wrapping_sub(at).wrapping_mul(2).wrapping_add(1);
    let high = at.wrapping_sub(p).wrapping_mul(2).wrapping_add(1);
    let b = d.wrapping_mul(2);
    [
        Constraint {
            a: low,
            b,
            strict: false,
        },
        Constraint {
            a: high,
            b: b.wrapping_neg(),
            strict: true,
        },
    ]
}

/// Whether a segment meets a pixel, by the six constraints.
fn plain_meets(s: &Ur, at: Point) -> bool {
    let (p, d) = (s.p(), plain_minus(s.q(), s.p()));
    let [left, right] = sides(p.x, d.x, at.x);
    let [lower, upper] = sides(p.y, d.y, at.y);
    let start = Constraint {
        a: 0,
        b: 1,
        strict: false,
    };
    let end = Constraint {
        a: 1,
        b: -1,
        strict: false,
    };
    let all = [start, end, left, right, lower, upper];
    for c in all {
        if c.b == 0 && !is_kept(c.strict, c.a) {
            return false;
        }
        for e in all {
            let room = e.a.wrapping_mul(c.b).wrapping_sub(c.a.wrapping_mul(e.b));
            if c.b > 0 && e.b < 0 && !is_kept(c.strict || e.strict, room) {
                return false;
            }
        }
    }
    true
}

/// The crossing of two segments, by its formula: numerators and denominator.
fn plain_crossing(s: &Ur, t: &Ur) -> Option<(i128, i128, i128)> {
    let (d, e) = (plain_minus(s.q(), s.p()), plain_minus(t.q(), t.p()));
    let w = plain_minus(t.p(), s.p());
    let sign = plain_cross(d, e).signum();
    if sign == 0 {
        return None;
    }
    let den = plain_cross(d, e).wrapping_mul(sign);
    let u = plain_cross(w, e).wrapping_mul(sign);
    let v = plain_cross(w, d).wrapping_mul(sign);
    if u < 0 || u > den || v < 0 || v > den {
        return None;
    }
    let x = s.p().x.wrapping_mul(den).wrapping_add(u.wrapping_mul(d.x));
    let y = s.p().y.wrapping_mul(den).wrapping_add(u.wrapping_mul(d.y));
    Some((i128::from(x), i128::from(y), i128::from(den)))
}

/// The numerators and the denominator of a crossing.
fn numbers(c: Option<Cross>) -> Option<(i128, i128, i128)> {
    let c = c?;
    Some((c.num_x(), c.num_y(), c.den()))
}

/// Each small segment from (0, 0) or (0, 1) to another point of a grid of 5 by 5.
fn small_segment(from: i8, x: i8, y: i8) -> Option<Ur> {
    let a = Point {
        x: 0,
        y: i64::from(from),
    };
    let b = Point {
        x: i64::from(x),
        y: i64::from(y),
    };
    Ur::new(&Profile::edition_one(), Name::new(1, 1)?, a, b).ok()
}

const STEPS: [i8; 5] = [-2, -1, 0, 1, 2];

const PIXELS: [i8; 7] = [-3, -2, -1, 0, 1, 2, 3];

#[test]
fn pixels_met_are_those_of_the_six_constraints(rt: HostRuntime) {
    for from in [0, 1] {
        for dx in STEPS {
            for dy in STEPS {
                if let Some(s) = small_segment(from, dx, dy) {
                    for x in PIXELS {
                        for y in PIXELS {
                            let at = Point {
                                x: i64::from(x),
                                y: i64::from(y),
                            };
                            assert_eq!(rt;
                                meets_pixel(&s, at),
                                plain_meets(&s, at),
                                "{from} {dx} {dy} {x} {y}"
                            );
                        }
                    }
                }
            }
        }
    }
}

#[test]
fn crossings_are_those_of_the_formula(rt: HostRuntime) -> Result<(), AllocError> {
    let cases = draw_cases(rt.alloc())?;
    for step in [1usize, 2, 3, 4] {
        for (case, other) in cases.iter().zip(cases.iter().skip(step)) {
            let (s, t) = (&case.segment, &other.segment);
            assert_eq!(rt; numbers(crossing(s, t)), plain_crossing(s, t));
        }
    }
    Ok(())
}
