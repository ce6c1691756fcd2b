//! The step by which a book takes a prepared change.

ghost use Rattle.std.specs.Prelude.{◌≡◌, ◌≤◌, ◌<◌, ◌+◌, ◌^◌, length, None, IfOk, IfErr, OnOk, OnErr};
ghost use Rattle.std.specs.Arc.{arc_value};
ghost use Rattle.version_core.specs.Stands.{Stands, after_change};
ghost use Rattle.version_core.specs.Version.{IsNext, most_segments};
ghost use Rattle.book_core.specs.Book.{IsBook};
ghost use Rattle.book_core.specs.Commit.{MayCommit, Settles, Took, refusal_of};
ghost use Rattle.book_core.specs.Committed.{Commits};

use crate::book::Book;
use crate::refusal::{FullOf, Refusal};
use grid_core::{Memory, TileId};
use seg_edit::{Prepared, apply_beside, apply_in_place};
use std::alloc::Global;
use std::sync::Arc;
use version_core::Version;

/// What a book answers to a prepared change.
#[derive(Drop)]
pub enum Settled {
    /// The change was taken, under this number.
    Done(u32),
    /// The change was not taken. The book is as before.
    Refused(Refusal),
    /// Out of memory. The book is as before, and the prepared change comes back.
    Memory(Prepared),
}

/// What a book answers to a prepared change, with the version after it.
#[derive(Drop)]
pub enum Committed {
    /// The change was taken, under this number, and this is the version after it.
    Done { number: u32, version: Arc<Version> },
    /// The book is as before. Change number `by` came after the base and shares a tile with the
    /// prepared change: it is the last such change, and `tile` is the least tile that the two share.
    Stale { by: u32, tile: TileId },
    /// The book is as before: this bound would be passed.
    Full(FullOf),
    /// Out of memory. The book is as before, and the prepared change comes back.
    Memory(Prepared),
}

impl Book {
    /// Takes a prepared change, unless it is stale or the drawing is full: `refusal`, and then `append`.
    /// Where nobody else holds the newest version it is changed where it is, so that one editor alone
    /// copies nothing. A refusal takes no memory.
    pub fn commit_newest(&mut self, prepared: Prepared) -> Settled
        requires may { MayCommit self.old prepared }
        ensures { Settles self.old prepared self.new result }
    {
        if let Some(refusal) = self.refusal(&prepared) {
            return Settled::Refused(refusal);
        }
        match self.append(prepared) {
            Ok(number) => Settled::Done(number),
            Err(prepared) => Settled::Memory(prepared),
        }
    }

    /// Takes a prepared change that the book doesn't refuse, and gives the number under which it was
    /// taken. Where nobody else holds the newest version it is changed where it is. The error is want of
    /// memory: the book is as before, and the prepared change comes back.
    pub fn append(&mut self, prepared: Prepared) -> Result<u32, Prepared>
        requires may { MayCommit self.old prepared }
        requires unrefused { refusal_of self.old prepared ≡ None }
        ensures took { OnOk result (Took self.old prepared.change self.new) }
        ensures number { IfOk result (λ n. n ≡ length self.new.history) }
        ensures memory { OnErr result (self.new ≡ self.old) }
        ensures back { IfErr result (λ x. x ≡ prepared) }
        ensures kept { IsBook self.new }
    {
        self.is_rebased(&prepared);
        let mut prepared = prepared;
        if self.history.reserve(1).is_err() {
            return Err(prepared);
        }
        if renew(&mut self.version, self.alloc, &mut prepared).is_err() {
            return Err(prepared);
        }
        let _ = self.history.push(prepared.into_change());
        Ok(self.version.number())
    }

    /// Takes a prepared change as `commit_newest` does, and gives the version after it. That version is
    /// made beside the one before, and shared before the book changes.
    pub fn commit_step(&mut self, prepared: Prepared) -> Committed
        requires may { MayCommit self.old prepared }
        ensures { Commits self.old prepared self.new result }
    {
        match self.refusal(&prepared) {
            Some(Refusal::Stale { by, tile }) => return Committed::Stale { by, tile },
            Some(Refusal::Full(bound)) => return Committed::Full(bound),
            None => {}
        }
        self.is_rebased(&prepared);
        let mut prepared = prepared;
        if self.history.reserve(1).is_err() {
            return Committed::Memory(prepared);
        }
        let Ok((next, version)) = shared_next(&self.version, self.alloc, &mut prepared) else {
            return Committed::Memory(prepared);
        };
        self.version = next;
        let _ = self.history.push(prepared.into_change());
        Committed::Done {
            number: version.number(),
            version,
        }
    }
}

/// The next version, twice.
fn shared_next(
    version: &Version,
    alloc: Global,
    prepared: &mut Prepared,
) -> Result<(Arc<Version>, Arc<Version>), Memory>
    requires profile { version.now.profile ≡ prepared.old.profile }
    requires stands { Stands prepared.old version.now.live }
    requires few { length (after_change version.now.live prepared.old.change) ≤ most_segments }
    requires numbered { version.now.number + 1 < 2 ^ 32 }
    ensures next { IfOk result
        (λ p. IsNext version.now prepared.old.change (arc_value p.0)) }
    ensures shared { IfOk result (λ p. arc_value p.1 ≡ arc_value p.0) }
    ensures same { prepared.new ≡ prepared.old }
{
    let next = Arc::new(alloc, apply_beside(version, prepared)?)?;
    let shared = next.clone()?;
    Ok((next, shared))
}

/// Makes the version the next one, in its place where nobody else holds it.
fn renew(version: &mut Arc<Version>, alloc: Global, prepared: &mut Prepared) -> Result<(), Memory>
    requires profile { (arc_value version.old).profile ≡ prepared.old.profile }
    requires stands { Stands prepared.old (arc_value version.old).live }
    requires few { length (after_change (arc_value version.old).live prepared.old.change)
        ≤ most_segments }
    requires numbered { (arc_value version.old).number + 1 < 2 ^ 32 }
    ensures ok { OnOk result
        (IsNext (arc_value version.old) prepared.old.change (arc_value version.new)) }
    ensures err { OnErr result (arc_value version.new ≡ arc_value version.old) }
    ensures same { prepared.new ≡ prepared.old }
{
    match Arc::get_mut(version) {
        Some(own) => apply_in_place(own, prepared)?,
        None => *version = Arc::new(alloc, apply_beside(version, prepared)?)?,
    }
    Ok(())
}
