//! A drawing whose changes are prepared and applied one after the other.

ghost use Rattle.std.specs.Prelude.{◌≡◌};
ghost use Rattle.std.specs.Arc.{arc_value};

use grid_core::{Memory, Name, Point, Profile, TileId, Ur};
use hot_tile::Scratch;
use seg_edit::{
    PrepareFault, Prepared, apply_beside, apply_in_place, prepare_delete_in, prepare_insert_in,
};
use std::alloc::Global;
use std::mem;
use std::sync::Arc;
use version_core::{Looked, RouteFault, Version};

/// The editor of all changes.
const EDITOR: u8 = 1;

/// How many segments may be live.
const MOST_LIVE: usize = 4096;

/// How many changes may be made.
const MOST_CHANGES: u32 = 1_000_000;

/// Which versions somebody holds.
#[derive(Clone, Copy)]
pub(crate) enum Held {
    /// The newest alone, so each change is made in place.
    Newest,
    /// All of them, so each change is made beside the version before.
    All,
}

/// The newest version of a drawing, and the older ones that are held.
#[derive(Drop)]
pub(crate) struct Drawing {
    alloc: Global,
    version: Arc<Version>,
    looked: Looked,
    scratch: Scratch,
    older: Vec<Arc<Version>>,
    ghost brand: { (arc_value version).brand ≡ looked.brand },
}

impl Drawing {
    ghost use Rattle.std.specs.Prelude.{◌≡◌};
    ghost use Rattle.std.specs.Arc.{arc_value};
    ghost use Rattle.version_core.specs.Stands.{Stands};

    pub(crate) fn open(alloc: Global) -> Result<Drawing, Memory> {
        let (version, looked) = Version::open(alloc, Profile::edition_one(), 1)?;
        Ok(Drawing {
            alloc,
            version,
            looked,
            scratch: Scratch::open(alloc),
            older: Vec::new(alloc),
        })
    }

    /// The newest version.
    pub(crate) fn newest(&self) -> &Version {
        &self.version
    }

    /// Lets go of all versions but the newest.
    pub(crate) fn let_go(&mut self) {
        self.older.clear();
    }

    /// A number made of all that the newest version tells.
    pub(crate) fn checksum(&mut self) -> Result<u64, Memory> {
        let routes = routes_sum(&self.version, &mut self.looked)?;
        self.looked.clear();
        Ok(mixed(
            mixed(numbers_sum(&self.version), stamps_sum(&self.version)),
            routes,
        ))
    }

    /// Puts in the segment of a serial and these ends. `false` where that can't be.
    pub(crate) fn insert(
        &mut self,
        serial: u16,
        ends: (Point, Point),
        held: Held,
    ) -> Result<bool, Memory> {
        let Some(name) = Name::new(EDITOR, serial) else {
            return Ok(false);
        };
        let Ok(s) = Ur::new(&self.version.profile(), name, ends.0, ends.1) else {
            return Ok(false);
        };
        match self.version.segment(s.name(), &mut self.looked)? {
            Some(_) => Ok(false),
            None => {
                let prepared = prepare_insert_in(
                    self.alloc,
                    &self.version,
                    s,
                    &mut self.looked,
                    &mut self.scratch,
                )?;
                self.follow(prepared, held)
            }
        }
    }

    /// Takes out the segment of a serial. `false` where that can't be.
    pub(crate) fn delete(&mut self, serial: u16, held: Held) -> Result<bool, Memory> {
        let Some(name) = Name::new(EDITOR, serial) else {
            return Ok(false);
        };
        match prepare_delete_in(
            self.alloc,
            &self.version,
            EDITOR,
            name,
            &mut self.looked,
            &mut self.scratch,
        ) {
            Ok(prepared) => self.follow(prepared, held),
            Err(PrepareFault::Unknown) => Ok(false),
            Err(PrepareFault::Memory) => Err(Memory),
        }
    }

    /// Makes the prepared change, of one edit. `false` where the drawing is full.
    fn follow(&mut self, mut prepared: Prepared, held: Held) -> Result<bool, Memory>
        requires profile { (arc_value self.old.version).profile ≡ prepared.profile }
        requires stands { Stands prepared (arc_value self.old.version).live }
    {
        self.looked.clear();
        if prepared.change().edits().len() != 1
            || self.version.count() >= MOST_LIVE
            || self.version.number() >= MOST_CHANGES
        {
            return Ok(false);
        }
        match held {
            Held::Newest => match Arc::get_mut(&mut self.version) {
                Some(own) => apply_in_place(own, &mut prepared)?,
                None => return Ok(false),
            },
            Held::All => {
                let next = apply_beside(&self.version, &mut prepared)?;
                let next = Arc::new(self.alloc, next)?;
                let before = mem::replace(&mut self.version, next);
                self.older.push(before)?;
            }
        }
        Ok(true)
    }
}

/// A number made of the version's numbers.
fn numbers_sum(version: &Version) -> u64 {
    let numbers = mixed(u64::from(version.number()), version.count() as u64);
    mixed(mixed(numbers, version.spans()), version.passes())
}

/// A number made of the stamps of the tiles in a square of 4,096 and around it.
fn stamps_sum(version: &Version) -> u64 {
    let mut sum = 0;
    for i in -1..17 {
        for j in -1..17 {
            sum = mixed(sum, u64::from(version.stamp(TileId { i, j })));
        }
    }
    sum
}

/// A number made of the routes of the first sixteen serials.
fn routes_sum(version: &Version, looked: &mut Looked) -> Result<u64, Memory>
    requires { version.now.brand ≡ looked.old.brand }
    ensures { looked.new.brand ≡ looked.old.brand }
{
    let mut sum = 0;
    for serial in 1..17 {
        if let Some(name) = Name::new(EDITOR, serial) {
            sum = mixed(sum, route_sum(version, name, looked)?);
        }
    }
    Ok(sum)
}

/// A number made of the route of a name, 0 where it isn't live.
fn route_sum(version: &Version, name: Name, looked: &mut Looked) -> Result<u64, Memory>
    requires { version.now.brand ≡ looked.old.brand }
    ensures { looked.new.brand ≡ looked.old.brand }
{
    match version.route(name, looked) {
        Ok(route) => Ok(points_sum(&route)),
        Err(RouteFault::Unknown) => Ok(0),
        Err(RouteFault::Memory) => Err(Memory),
    }
}

fn points_sum(points: &[Point]) -> u64 {
    let mut sum = 1;
    for p in points {
        sum = mixed(mixed(sum, p.x.unsigned_abs()), p.y.unsigned_abs());
    }
    sum
}

/// A number made of one and the next.
fn mixed(sum: u64, next: u64) -> u64 {
    sum.wrapping_mul(48_271).wrapping_add(next)
}
