//! What a line is, read from its bytes.

ghost use Rattle.std.specs.Prelude.{◌≡◌, ◌≤◌, ◌^◌, [], ◌∷◌, length};
ghost use Rattle.std.specs.Prelude.{IfSome, IfNone};
ghost use Rattle.grid_core.specs.Vector.{IsWithin};
ghost use Rattle.seg_text.specs.Fields.{fields_of, fields_from};
ghost use Rattle.script_read.specs.Command.{alone, name_alone, point_alone, points_alone};
ghost use Rattle.script_read.specs.Command.{point_of, points_of, act_of, query_of};
ghost use Rattle.script_read.specs.Command.{IsFairAct, IsFairQuery, IsFair};
ghost use Rattle.script_read.specs.Lines.{without_return, command_from, line_from, line_of};
ghost use Rattle.script_read.specs.Lines.{is_comment, IsFairLine};

use crate::{Act, Command, Line, Query};
use grid_core::{Name, Point};
use seg_text::{editor, name, next_field, whole};

/// A longer line is bad, whatever it holds.
const LONGEST: usize = 4096;

/// What a line is, given without its line feed. Takes no memory.
#[tactic(auto, unfolding(crate::specs::Lines::line_of, crate::specs::Lines::IsFairLine))]
pub fn read_line(line: &[u8]) -> Line
    ensures value { result ≡ line_of line.now }
    ensures fair { IsFairLine result }
{
    if line.len() > LONGEST {
        return Line::Bad;
    }
    read_fields(cut_return(line))
}

/// The line but for the carriage return at its end, where it has one.
#[tactic(auto, unfolding(crate::specs::Lines::without_return))]
fn cut_return(line: &[u8]) -> &[u8]
    ensures { result.now ≡ without_return line.now }
{
    let len = line.len();
    if len > 0 && line[len - 1] == b'\r' {
        &line[..len - 1]
    } else {
        line
    }
}

/// What the line is by its fields.
#[tactic(auto, using(seg_text::proofs::FieldLaws::all_fields), unfolding(crate::specs::Lines::line_from, crate::specs::Lines::IsFairLine))]
fn read_fields(line: &[u8]) -> Line
    ensures value { result ≡ line_from (fields_of line.now) }
    ensures fair { IsFairLine result }
{
    let Some((first, end)) = take_field(line, 0) else {
        return Line::Quiet;
    };
    if is_comment(first) {
        return Line::Quiet;
    }
    match read_command(first, line, end) {
        Some(command) => Line::Order(command),
        None => Line::Bad,
    }
}

/// Whether the field begins with `#`.
fn is_comment(field: &[u8]) -> bool
    ensures { result ≡ is_comment field.now }
{
    match field.split_first() {
        Some((first, _)) => *first == b'#',
        None => false,
    }
}

/// The command of the editor, and of the fields that begin at or after `from`.
#[tactic(auto, unfolding(crate::specs::Lines::command_from))]
fn read_command(first: &[u8], line: &[u8], from: usize) -> Option<Command>
    requires { from ≤ length line.now }
    ensures value { result ≡ command_from first.now (fields_from line.now from) }
    ensures fair { IfSome result IsFair }
{
    let (verb, end) = take_field(line, from)?;
    let editor = editor(first)?;
    let act = read_act(verb, line, end)?;
    if act.is_served() {
        Some(Command { editor, act })
    } else {
        None
    }
}

/// The act of the verb, and of the fields that begin at or after `from`.
#[tactic(auto, unfolding(crate::specs::Command::act_of, crate::specs::Command::IsFairAct))]
fn read_act(verb: &[u8], line: &[u8], from: usize) -> Option<Act>
    requires { from ≤ length line.now }
    ensures value { result ≡ act_of verb.now (fields_from line.now from) }
    ensures fair { IfSome result IsFairAct }
{
    if verb == b"take".as_slice() {
        alone(Act::Take, line, from)
    } else if verb == b"insert".as_slice() {
        let (a, b) = points_alone(line, from)?;
        Some(Act::Insert { a, b })
    } else if verb == b"delete".as_slice() {
        let name = name_alone(line, from)?;
        Some(Act::Delete { name })
    } else if verb == b"reads".as_slice() {
        alone(Act::Reads, line, from)
    } else if verb == b"commit".as_slice() {
        alone(Act::Commit, line, from)
    } else if verb == b"drop".as_slice() {
        alone(Act::Drop, line, from)
    } else {
        let query = read_query(verb, line, from)?;
        Some(Act::Ask(query))
    }
}

/// The query of the verb, and of the fields that begin at or after `from`.
#[tactic(auto, unfolding(crate::specs::Command::query_of))]
fn read_query(verb: &[u8], line: &[u8], from: usize) -> Option<Query>
    requires { from ≤ length line.now }
    ensures value { result ≡ query_of verb.now (fields_from line.now from) }
    ensures fair { IfSome result IsFairQuery }
{
    if verb == b"locate".as_slice() {
        let at = point_alone(line, from)?;
        Some(Query::Locate { at })
    } else if verb == b"route".as_slice() {
        let name = name_alone(line, from)?;
        Some(Query::Route { name })
    } else if verb == b"hot".as_slice() {
        let at = point_alone(line, from)?;
        Some(Query::Hot { at })
    } else if verb == b"bundle".as_slice() {
        let (a, b) = points_alone(line, from)?;
        Some(Query::Bundle { a, b })
    } else if verb == b"contour".as_slice() {
        let (a, b) = points_alone(line, from)?;
        Some(Query::Contour { a, b })
    } else if verb == b"show".as_slice() {
        alone(Query::Show, line, from)
    } else {
        None
    }
}

/// The value, where no field is left.
#[tactic(auto, unfolding(crate::specs::Command::alone))]
fn alone<T: Drop>(value: T, line: &[u8], from: usize) -> Option<T>
    requires { from ≤ length line.now }
    ensures alone { result ≡ alone value (fields_from line.now from) }
    ensures value { IfSome result (λ v. v ≡ value) }
{
    match take_field(line, from) {
        Some(_) => None,
        None => Some(value),
    }
}

/// The name, where one field is left.
#[tactic(auto, unfolding(crate::specs::Command::name_alone))]
fn name_alone(line: &[u8], from: usize) -> Option<Name>
    requires { from ≤ length line.now }
    ensures { result ≡ name_alone (fields_from line.now from) }
{
    let (field, end) = take_field(line, from)?;
    match take_field(line, end) {
        Some(_) => None,
        None => name(field),
    }
}

/// The point, where two fields are left.
#[tactic(auto, unfolding(crate::specs::Command::point_alone))]
fn point_alone(line: &[u8], from: usize) -> Option<Point>
    requires { from ≤ length line.now }
    ensures value { result ≡ point_alone (fields_from line.now from) }
    ensures small { IfSome result (IsWithin (2 ^ 34)) }
{
    let (x, end) = take_field(line, from)?;
    let (y, end) = take_field(line, end)?;
    match take_field(line, end) {
        Some(_) => None,
        None => read_point(x, y),
    }
}

/// The two points, where four fields are left.
#[tactic(auto, unfolding(crate::specs::Command::points_alone))]
fn points_alone(line: &[u8], from: usize) -> Option<(Point, Point)>
    requires { from ≤ length line.now }
    ensures { result ≡ points_alone (fields_from line.now from) }
{
    let (x1, end) = take_field(line, from)?;
    let (y1, end) = take_field(line, end)?;
    let (x2, end) = take_field(line, end)?;
    let (y2, end) = take_field(line, end)?;
    match take_field(line, end) {
        Some(_) => None,
        None => read_points(x1, y1, x2, y2),
    }
}

/// The two points of four whole numbers.
#[tactic(auto, unfolding(crate::specs::Command::points_of))]
fn read_points(x1: &[u8], y1: &[u8], x2: &[u8], y2: &[u8]) -> Option<(Point, Point)>
    ensures { result ≡ points_of x1.now y1.now x2.now y2.now }
{
    let a = read_point(x1, y1)?;
    let b = read_point(x2, y2)?;
    Some((a, b))
}

/// The point of two whole numbers.
#[tactic(auto, unfolding(crate::specs::Command::point_of))]
fn read_point(x: &[u8], y: &[u8]) -> Option<Point>
    ensures value { result ≡ point_of x.now y.now }
    ensures small { IfSome result (IsWithin (2 ^ 34)) }
{
    let x = whole(x)?;
    let y = whole(y)?;
    Some(Point { x, y })
}

/// The first field that begins at or after `from`, and where it ends.
fn take_field(line: &[u8], from: usize) -> Option<(&[u8], usize)>
    requires { from ≤ length line.now }
    ensures none { IfNone result (fields_from line.now from ≡ []) }
    ensures field { IfSome result (λ r.
        fields_from line.now from ≡ r.0.now ∷ fields_from line.now r.1) }
    ensures within { IfSome result (λ r. r.1 ≤ length line.now) }
{
    let (start, end) = next_field(line, from)?;
    Some((&line[start..end], end))
}
