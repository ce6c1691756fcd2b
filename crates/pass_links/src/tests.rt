use crate::Passes;
use grid_core::{Name, Point};
use std::alloc::{AllocError, Global};
use std::collections::BTreeMap;
use std::process::Abort;
use std::test::Fail;

const A: Point = Point { x: 0, y: 0 };

const B: Point = Point { x: 3, y: 1 };

const C: Point = Point { x: 5, y: 2 };

const D: Point = Point { x: 8, y: 3 };

/// The points of a segment's list, as they are walked.
fn walk(alloc: Global, passes: &Passes, name: Name) -> Result<Vec<Point>, AllocError> {
    let mut points = Vec::new(alloc);
    for point in passes.along(name) {
        points.push(point)?;
    }
    Ok(points)
}

/// Links three passes of `name` out of order: through (0,0), (5,2), and (3,1) between them.
fn link_three_of(rt: &impl Abort, passes: &mut Passes, name: Name) {
    assert!(rt; passes.spare() >= 3 && !passes.has(name, A));
    passes.link_between(name, A, None);
    assert!(rt; passes.has(name, A) && !passes.has(name, C));
    passes.link_between(name, C, Some(A));
    assert!(rt; passes.has(name, A) && !passes.has(name, B));
    passes.link_between(name, B, Some(A));
}

/// 1.1, and its passes through (0,0), (3,1) and (5,2).
fn three_linked(rt: &(impl Abort + AllocGlobal)) -> Result<(Name, Passes), Fail> {
    let name = Name::new(1, 1).ok_or("1.1 is a name")?;
    let mut passes = Passes::open(rt.alloc());
    passes.reserve(3)?;
    link_three_of(rt, &mut passes, name);
    Ok((name, passes))
}

#[test]
fn link_three(rt: HostRuntime) -> Result<(), Fail> {
    let (name, passes) = three_linked(&rt)?;
    assert_eq!(rt;
        walk(rt.alloc(), &passes, name)?.as_slice(),
        [A, B, C].as_slice()
    );
    Ok(())
}

#[test]
fn unlink_a_pixel(rt: HostRuntime) -> Result<(), Fail> {
    let (name, mut passes) = three_linked(&rt)?;
    passes.unlink_pixel(B);
    assert_eq!(rt;
        walk(rt.alloc(), &passes, name)?.as_slice(),
        [A, C].as_slice()
    );
    assert!(rt; passes.across(B).next().is_none());
    Ok(())
}

#[test]
fn unlink_a_segment(rt: HostRuntime) -> Result<(), Fail> {
    let (name, mut passes) = three_linked(&rt)?;
    passes.unlink_pixel(B);
    passes.unlink_segment(name);
    assert!(rt; passes.along(name).next().is_none());
    for pixel in [A, B, C] {
        assert!(rt; passes.across(pixel).next().is_none());
    }
    Ok(())
}

#[test]
fn a_run_in_front_and_a_run_behind_a_pixel(rt: HostRuntime) -> Result<(), Fail> {
    let name = Name::new(1, 1).ok_or("1.1 is a name")?;
    let mut passes = Passes::open(rt.alloc());
    passes.reserve(4)?;
    assert!(rt; passes.spare() >= 4 && !passes.has(name, A) && !passes.has(name, D));
    passes.link_run(name, None, [A, D].as_slice());
    assert!(rt; passes.spare() >= 2 && passes.has(name, A));
    assert!(rt; !passes.has(name, B) && !passes.has(name, C));
    passes.link_run(name, Some(A), [B, C].as_slice());
    assert_eq!(rt;
        walk(rt.alloc(), &passes, name)?.as_slice(),
        [A, B, C, D].as_slice()
    );
    assert!(rt; passes.across(C).next() == Some(name));
    Ok(())
}

/// The names of a pixel's list, as they are walked.
fn walk_names(alloc: Global, passes: &Passes, pixel: Point) -> Result<Vec<Name>, AllocError> {
    let mut names = Vec::new(alloc);
    for name in passes.across(pixel) {
        names.push(name)?;
    }
    Ok(names)
}

/// The same lists, kept plainly: a vector for each segment, and one for each pixel.
#[derive(Drop)]
struct Plain {
    alloc: Global,
    segments: BTreeMap<Name, Vec<Point>>,
    pixels: BTreeMap<Point, Vec<Name>>,
}

impl Plain {
    fn pixels_of(&mut self, name: Name) -> Vec<Point> {
        match self.segments.remove(&name) {
            Some(points) => points,
            None => Vec::new(self.alloc),
        }
    }

    fn names_at(&mut self, pixel: Point) -> Vec<Name> {
        match self.pixels.remove(&pixel) {
            Some(names) => names,
            None => Vec::new(self.alloc),
        }
    }

    fn link(&mut self, name: Name, pixel: Point, after: Option<Point>) -> Result<(), Fail> {
        let mut points = self.pixels_of(name);
        let mut place = 0;
        for (i, point) in points.iter().enumerate() {
            if Some(*point) == after {
                place = i + 1;
            }
        }
        if place <= points.len() {
            points.insert(place, pixel)?;
        }
        self.segments.insert(name, points)?;
        let mut names = self.names_at(pixel);
        names.push(name)?;
        names.sort_unstable();
        self.pixels.insert(pixel, names)?;
        Ok(())
    }

    fn unlink(&mut self, name: Name, pixel: Point) -> Result<(), Fail> {
        let mut points = self.pixels_of(name);
        points.retain(|point| *point != pixel);
        self.segments.insert(name, points)?;
        let mut names = self.names_at(pixel);
        names.retain(|other| *other != name);
        self.pixels.insert(pixel, names)?;
        Ok(())
    }
}

/// The k-th of four names.
fn name_of(k: u32) -> Result<Name, Fail> {
    Ok(Name::new(1, (k % 4) as u16 + 1).ok_or("a serial of 1 to 4 makes a name")?)
}

/// The k-th of five pixels.
fn pixel_of(k: u32) -> Point {
    Point {
        x: i64::from(k % 5),
        y: 7,
    }
}

#[test]
fn random_calls_as_in_plain_maps(rt: HostRuntime) -> Result<(), Fail> {
    let mut passes = Passes::open(rt.alloc());
    let mut plain = Plain {
        alloc: rt.alloc(),
        segments: BTreeMap::new(rt.alloc()),
        pixels: BTreeMap::new(rt.alloc()),
    };
    let mut drawn: u32 = 1;
    for _ in 0..400 {
        drawn = drawn.wrapping_mul(1_664_525).wrapping_add(1_013_904_223);
        let name = name_of(drawn >> 10)?;
        let pixel = pixel_of(drawn >> 14);
        match (drawn >> 20) % 12 {
            0 => {
                passes.unlink_pixel(pixel);
                for k in 0..4 {
                    plain.unlink(name_of(k)?, pixel)?;
                }
            }
            1 => {
                passes.unlink_segment(name);
                for k in 0..5 {
                    plain.unlink(name, pixel_of(k))?;
                }
            }
            2 => passes = passes.copy()?,
            3 => passes = passes.copy_with_room(2)?,
            4 | 5 => {
                let after = Some(pixel_of(drawn >> 24)).filter(|after| passes.has(name, *after));
                let next = pixel_of((drawn >> 14) + 1);
                if pixel != next && !passes.has(name, pixel) && !passes.has(name, next) {
                    passes.reserve(2)?;
                    passes.link_run(name, after, [pixel, next].as_slice());
                    plain.link(name, pixel, after)?;
                    plain.link(name, next, Some(pixel))?;
                }
            }
            _ => {
                let after = Some(pixel_of(drawn >> 24)).filter(|after| passes.has(name, *after));
                if !passes.has(name, pixel) {
                    passes.reserve(1)?;
                    passes.link_between(name, pixel, after);
                    plain.link(name, pixel, after)?;
                }
            }
        }
        for k in 0..4 {
            let points = plain.pixels_of(name_of(k)?);
            assert_eq!(rt;
                walk(rt.alloc(), &passes, name_of(k)?)?.as_slice(),
                points.as_slice()
            );
            plain.segments.insert(name_of(k)?, points)?;
        }
        for k in 0..5 {
            let names = plain.names_at(pixel_of(k));
            assert_eq!(rt;
                walk_names(rt.alloc(), &passes, pixel_of(k))?.as_slice(),
                names.as_slice()
            );
            plain.pixels.insert(pixel_of(k), names)?;
        }
    }
    Ok(())
}
