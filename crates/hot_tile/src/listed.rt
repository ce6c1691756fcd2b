//! The segments of a tile by name: one in its place, or several in a vector.

ghost use Rattle.std.specs.Prelude.{◌≡◌, ◌≤◌, not, filter, length, take, drop};
ghost use Rattle.std.specs.List.Sorted.{IsStrictlySortedBy};
ghost use Rattle.std.specs.Ordering.{is_lt};
ghost use Rattle.grid_core.specs.Name.{label_cmp};
ghost use Rattle.grid_core.specs.LiveList.{names};

use grid_core::{Memory, Name, Ur};
use std::alloc::Global;
use std::marker::Model;
use std::slice;

/// The form of a list of segments. One alone takes no memory beside.
#[derive(Drop)]
enum Form {
    One(Ur),
    Several(Vec<Ur>),
}

/// A list of segments.
#[derive(Drop)]
pub(crate) struct Listed {
    form: Form,
}

impl Model for Listed {
    ghost use Rattle.std.specs.Prelude.{List};
    ghost use Rattle.grid_core.specs.Segment.{Segment};
    ghost use Rattle.hot_tile.specs.Listed.{listed};

    ghost Value = { List Segment };

    ghost view = { λ l. listed l.form };
}

impl Listed {
    ghost use Rattle.std.specs.Prelude.{◌≡◌, ◌<◌, ◌≤◌, ◌++◌, ◌∷◌, [], length, take, drop, suc, IfOk};

    /// No segment. Takes no memory.
    pub(crate) fn empty(alloc: Global) -> Listed
        ensures { result ≡ [] }
    {
        Listed {
            form: Form::Several(Vec::new(alloc)),
        }
    }

    /// The segments.
    #[inline]
    pub(crate) fn as_slice(&self) -> &[Ur]
        ensures { result.now ≡ self.now }
    {
        match &self.form {
            Form::One(s) => slice::from_ref(s),
            Form::Several(list) => list.as_slice(),
        }
    }

    /// The same list, in memory of its own.
    pub(crate) fn copy(&self, alloc: Global) -> Result<Listed, Memory>
        ensures { IfOk result (λ l. l ≡ self.now) }
    {
        let form = match &self.form {
            Form::One(s) => Form::One(*s),
            Form::Several(list) => Form::Several(Vec::from_slice(alloc, list)?),
        };
        Ok(Listed { form })
    }

    /// The list with a segment more, before the one at this index.
    pub(crate) fn with(&self, alloc: Global, at: usize, s: &Ur) -> Result<Listed, Memory>
        requires { at ≤ length self.now }
        ensures { IfOk result (λ l. l ≡ take at self.now ++ s.now ∷ drop at self.now) }
    {
        let old = self.as_slice();
        if old.is_empty() {
            return Ok(Listed {
                form: Form::One(*s),
            });
        }
        let mut list = Vec::with_capacity(alloc, old.len() + 1)?;
        list.extend_from_slice(&old[..at])?;
        list.push(*s)?;
        list.extend_from_slice(&old[at..])?;
        Ok(Listed {
            form: Form::Several(list),
        })
    }

    /// The list without the segment at this index.
    pub(crate) fn without(&self, alloc: Global, at: usize) -> Result<Listed, Memory>
        requires { at < length self.now }
        ensures { IfOk result (λ l. l ≡ take at self.now ++ drop (suc at) self.now) }
    {
        let old = self.as_slice();
        if old.len() == 1 {
            return Ok(Listed::empty(alloc));
        }
        if old.len() == 2 {
            return Ok(Listed {
                form: Form::One(old[1 - at]),
            });
        }
        let mut list = Vec::with_capacity(alloc, old.len() - 1)?;
        list.extend_from_slice(&old[..at])?;
        list.extend_from_slice(&old[at + 1..])?;
        Ok(Listed {
            form: Form::Several(list),
        })
    }
}

/// How many of the segments, which stand in order of name, have lesser names: where the name
/// stands, or would stand.
pub(crate) fn index_of(segments: &[Ur], name: Name) -> usize
    requires { IsStrictlySortedBy label_cmp (names segments.now) }
    ensures within { result ≤ length segments.now }
    ensures lesser { take result segments.now
        ≡ filter (λ t. is_lt (label_cmp t.name name)) segments.now }
    ensures others { drop result segments.now
        ≡ filter (λ t. not (is_lt (label_cmp t.name name))) segments.now }
{
    segments.partition_point(|t| t.name() < name)
}
