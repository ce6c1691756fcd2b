//! Lists of numbers, one behind the other in one vector.

ghost use Rattle.std.specs.Prelude.{◌≡◌, ◌<◌, ◌≤◌, ◌+◌, ◌-◌, ◌^◌, ◌++◌, length, map, All};
ghost use Rattle.std.specs.Vec.{vec_capacity};
ghost use Rattle.hot_tile.specs.Rows.{start_at};

use grid_core::Memory;
use std::alloc::Global;
use std::marker::Model;

/// A list of lists of numbers: the rows.
///
/// ```text
///   ends         2     3  3        6          row 2 is empty
///   steps   [a b]   [c] []  [d e f]
/// ```
#[derive(Drop)]
pub(crate) struct Rows {
    /// Where each row ends, and the next begins.
    ends: Vec<usize>,
    /// The rows, one behind the other.
    steps: Vec<u32>,
}

impl Model for Rows {
    ghost use Rattle.std.specs.Prelude.{List, ℕ, length};
    ghost use Rattle.hot_tile.specs.Rows.{cut, AreEnds};

    ghost Value = { List (List ℕ) };

    ghost view = { λ r. cut 0 r.ends.items r.steps.items };

    ghost invariant = { λ r. AreEnds 0 r.ends.items (length r.steps.items) };
}

impl Rows {
    ghost use Rattle.std.specs.Prelude.{◌≡◌, ◌<◌, ◌≤◌, ◌-◌, ◌++◌, ◌∷◌, [], length, take, drop};
    ghost use Rattle.std.specs.Prelude.{sum_by, slice_index_or, IfOk, OnOk};

    /// No rows. Takes no memory.
    pub(crate) fn open(alloc: Global) -> Rows
        ensures { result ≡ [] }
    {
        Rows {
            ends: Vec::new(alloc),
            steps: Vec::new(alloc),
        }
    }

    /// How many numbers the rows have together.
    pub(crate) fn total(&self) -> usize
        ensures { result ≡ sum_by length self.now }
    {
        self.steps.len()
    }

    /// The row at an index.
    #[inline]
    pub(crate) fn row(&self, i: usize) -> &[u32]
        requires { i < length self.now }
        ensures { result.now ≡ slice_index_or self.now i [] }
    {
        let start = if i == 0 { 0 } else { self.ends[i - 1] };
        &self.steps[start..self.ends[i]]
    }

    /// Takes all rows away. Takes no memory, and gives none back.
    pub(crate) fn clear(&mut self)
        ensures { self.new ≡ [] }
    {
        self.ends.clear();
        self.steps.clear();
    }

    /// Puts a row behind the others.
    #[inline]
    pub(crate) fn push(&mut self, row: &[u32]) -> Result<(), Memory>
        ensures { OnOk result (self.new ≡ self.old ++ row.now ∷ []) }
    {
        self.ends.reserve(1)?;
        self.steps.extend_from_slice(row)?;
        let put = self.ends.push(self.steps.len());
        prove!(put.is_ok());
        Ok(())
    }

    /// Puts the rows of others from one index to another behind the rows, all numbers in one piece.
    pub(crate) fn push_run(&mut self, others: &Rows, from: usize, to: usize) -> Result<(), Memory>
        requires order { from ≤ to }
        requires within { to ≤ length others.now }
        ensures { OnOk result (self.new ≡ self.old ++ take (to - from) (drop from others.now)) }
    {
        if from == to {
            return Ok(());
        }
        let start = start_of(&others.ends, from);
        let stop = start_of(&others.ends, to);
        let base = self.steps.len();
        self.ends.reserve(to - from)?;
        self.steps.extend_from_slice(&others.steps[start..stop])?;
        push_ends(&mut self.ends, &others.ends[from..to], start, base);
        Ok(())
    }

    /// The same rows, each vector as long as what it has.
    pub(crate) fn copy(&self, alloc: Global) -> Result<Rows, Memory>
        ensures { IfOk result (λ rows. rows ≡ self.now) }
    {
        Ok(Rows {
            ends: Vec::from_slice(alloc, &self.ends)?,
            steps: Vec::from_slice(alloc, &self.steps)?,
        })
    }
}

/// Where the row at an index begins: where the one before it ends. One index more than there are rows
/// is where all rows end.
#[inline(always)]
fn start_of(ends: &[usize], i: usize) -> usize
    requires { i ≤ length ends.now }
    ensures { result ≡ start_at 0 ends.now i }
{
    if i == 0 { 0 } else { ends[i - 1] }
}

/// Puts more ends behind the others, which have room for them: ends of rows that began at `start`, and
/// begin at `base` now.
fn push_ends(ends: &mut Vec<usize>, more: &[usize], start: usize, base: usize)
    requires room { length ends.old.items + length more.now ≤ vec_capacity ends.old }
    requires behind { All (λ e. start ≤ e) more.now }
    requires fits { All (λ e. base + (e - start) < 2 ^ 64) more.now }
    ensures { ends.new.items ≡ ends.old.items ++ map (λ e. base + (e - start)) more.now }
{
    for end in more {
        let put = ends.push(base + (*end - start));
        prove!(put.is_ok());
    }
}
