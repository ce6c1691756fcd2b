//! Numbers, names and points as text, appended to a buffer. Where a clause `memory` says that the
//! buffer begins with what it had, a part of the text may stand behind that.

ghost use Rattle.std.specs.Prelude.{◌≡◌, ◌++◌, OnOk, OnErr, decimal, flat_map};
ghost use Rattle.std.specs.Fmt.{signed_decimal};
ghost use Rattle.seg_text.specs.Text.{BeginsWith, name_text, point_text};
ghost use Rattle.seg_text.specs.Text.{spaced_point, spaced_name};

use grid_core::{Memory, Name, Point};
use itoa::Buffer;

/// The text as it is. After `Memory` the buffer is as before.
#[inline]
pub fn push_text(out: &mut Vec<u8>, text: &str) -> Result<(), Memory>
    ensures text { OnOk result (out.new.items ≡ out.old.items ++ text.now) }
    ensures memory { OnErr result (out.new.items ≡ out.old.items) }
{
    out.extend_from_slice(text.as_bytes())?;
    Ok(())
}

/// A whole number, in decimal, a negative one with a minus sign. After `Memory` the buffer is as
/// before.
#[inline(always)]
pub fn push_whole(out: &mut Vec<u8>, n: i128) -> Result<(), Memory>
    ensures text { OnOk result (out.new.items ≡ out.old.items ++ signed_decimal n) }
    ensures memory { OnErr result (out.new.items ≡ out.old.items) }
{
    // Nearly all numbers are shorter, and where the caller's are, the test goes.
    match i64::try_from(n) {
        Ok(short) => push_short(out, short),
        Err(_) => push_long(out, n),
    }
}

fn push_short(out: &mut Vec<u8>, n: i64) -> Result<(), Memory>
    ensures text { OnOk result (out.new.items ≡ out.old.items ++ signed_decimal n) }
    ensures memory { OnErr result (out.new.items ≡ out.old.items) }
{
    let mut digits = Buffer::new();
    push_text(out, digits.format(n))
}

fn push_long(out: &mut Vec<u8>, n: i128) -> Result<(), Memory>
    ensures text { OnOk result (out.new.items ≡ out.old.items ++ signed_decimal n) }
    ensures memory { OnErr result (out.new.items ≡ out.old.items) }
{
    let mut digits = Buffer::new();
    push_text(out, digits.format(n))
}

/// A count, in decimal. After `Memory` the buffer is as before.
#[inline]
pub fn push_count(out: &mut Vec<u8>, count: u64) -> Result<(), Memory>
    ensures text { OnOk result (out.new.items ≡ out.old.items ++ decimal count) }
    ensures memory { OnErr result (out.new.items ≡ out.old.items) }
{
    let mut digits = Buffer::new();
    push_text(out, digits.format(count))
}

/// A name, as `f.k`. After `Memory` the buffer is as before.
pub fn push_name(out: &mut Vec<u8>, name: Name) -> Result<(), Memory>
    ensures text { OnOk result (out.new.items ≡ out.old.items ++ name_text name) }
    ensures memory { OnErr result (out.new.items ≡ out.old.items) }
{
    let before = out.len();
    if let Err(memory) = push_name_parts(out, name) {
        out.truncate(before);
        return Err(memory);
    }
    Ok(())
}

fn push_name_parts(out: &mut Vec<u8>, name: Name) -> Result<(), Memory>
    ensures text { OnOk result (out.new.items ≡ out.old.items ++ name_text name) }
    ensures memory { OnErr result (BeginsWith out.new.items out.old.items) }
{
    push_count(out, u64::from(name.editor()))?;
    push_text(out, ".")?;
    push_count(out, u64::from(name.serial()))
}

/// A point, as `x y`.
pub fn push_point(out: &mut Vec<u8>, at: Point) -> Result<(), Memory>
    ensures text { OnOk result (out.new.items ≡ out.old.items ++ point_text at) }
    ensures memory { OnErr result (BeginsWith out.new.items out.old.items) }
{
    push_whole(out, i128::from(at.x))?;
    push_text(out, " ")?;
    push_whole(out, i128::from(at.y))
}

/// The points, each behind a space.
pub fn push_points(out: &mut Vec<u8>, points: &[Point]) -> Result<(), Memory>
    ensures text { OnOk result (out.new.items
        ≡ out.old.items ++ flat_map spaced_point points.now) }
    ensures memory { OnErr result (BeginsWith out.new.items out.old.items) }
{
    for at in points {
        push_spaced_point(out, *at)?;
    }
    Ok(())
}

/// A space, then the point.
pub fn push_spaced_point(out: &mut Vec<u8>, at: Point) -> Result<(), Memory>
    ensures text { OnOk result (out.new.items ≡ out.old.items ++ spaced_point at) }
    ensures memory { OnErr result (BeginsWith out.new.items out.old.items) }
{
    push_text(out, " ")?;
    push_point(out, at)
}

/// The names, each behind a space.
pub fn push_names(out: &mut Vec<u8>, names: &[Name]) -> Result<(), Memory>
    ensures text { OnOk result (out.new.items ≡ out.old.items ++ flat_map spaced_name names.now) }
    ensures memory { OnErr result (BeginsWith out.new.items out.old.items) }
{
    for name in names {
        push_spaced_name(out, *name)?;
    }
    Ok(())
}

/// A space, then the name.
fn push_spaced_name(out: &mut Vec<u8>, name: Name) -> Result<(), Memory>
    ensures text { OnOk result (out.new.items ≡ out.old.items ++ spaced_name name) }
    ensures memory { OnErr result (BeginsWith out.new.items out.old.items) }
{
    push_text(out, " ")?;
    push_name(out, name)
}
