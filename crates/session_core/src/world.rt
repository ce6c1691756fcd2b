//! The machine: the book of a drawing, and a seat for each of 64 editors.

ghost use Rattle.std.specs.Prelude.{◌≡◌, ◌≤◌, ◌<◌, true, false, None, IfOk, IfErr, OnOk, OnErr};
ghost use Rattle.std.specs.Prelude.{length, replicate, slice_index_or};
ghost use Rattle.book_core.specs.Book.{IsBook};
ghost use Rattle.book_core.specs.Commit.{MayCommit, Took, refusal_of};
ghost use Rattle.script_read.specs.Command.{IsFair, is_served};
ghost use Rattle.script_read.specs.declared.command.Act.TheVariants.{Commit};
ghost use Rattle.session_core.specs.declared.seat.Held.TheVariants.{Newest};
ghost use Rattle.session_core.specs.Limits.{full_text};
ghost use Rattle.session_core.specs.Machine.{editors, start};
ghost use Rattle.session_core.specs.Step.{step, refusal_said};
ghost use Rattle.session_core.specs.World.{AreAlike, AreKept, DidAt, is_commit, new_seat};

use crate::seat::{Held, Seat, keep_all};
use crate::tools::Tools;
use book_core::{Book, FullOf, Refusal};
use grid_core::{Memory, Profile};
use script_read::{Act, Command, FullText, Reply, Said};
use seg_edit::Prepared;
use std::alloc::Global;
use std::marker::Model;
use std::mem;

/// How many editors there are.
const EDITORS: usize = 64;

/// The machine of sessions. No editor's command changes what another one holds.
#[derive(Drop)]
pub struct World {
    book: Book,
    seats: Vec<Seat>,
    tools: Tools,
}

impl Model for World {
    ghost use Rattle.session_core.specs.World.{WorldState, IsWorld, world_of};

    ghost Value = { WorldState };

    ghost view = { λ w. world_of w.book w.seats.items };

    ghost invariant = { λ w. IsWorld w.tools.looked.brand w.book w.seats.items };
}

impl World {
    /// The machine at its start: no change was made, each editor holds version 0, and nothing is
    /// prepared. `Memory` where there is none for the first version or for the 64 seats.
    pub fn open(alloc: Global, profile: Profile) -> Result<World, Memory>
        ensures { IfOk result (λ w. w ≡ record { profile = profile; state = start }) }
    {
        let (book, looked) = Book::open(alloc, profile, 0)?;
        Ok(World {
            book,
            seats: first_seats(alloc)?,
            tools: Tools::new(alloc, looked),
        })
    }

    /// The history of the drawing, and the version after it. Takes no memory.
    pub fn book(&self) -> &Book
        ensures profile { result.now.version.profile ≡ self.now.profile }
        ensures history { result.now.history ≡ self.now.state.history }
        ensures kept { IsBook result.now }
    {
        // The call hands on what a book keeps of its history and its version.
        let _ = self.book.newest();
        &self.book
    }

    /// Does what a command asks for, and gives the reply to it. The command's editor is one of 1 to 64,
    /// and its act is one of those that are served so far. After `Memory` the machine is as before.
    pub fn step(&mut self, command: &Command) -> Result<Reply, Memory>
        requires fair { IsFair command.now }
        requires served { is_served command.now.act ≡ true }
        ensures profile { self.new.profile ≡ self.old.profile }
        ensures state { OnOk result
            (self.new.state ≡ (step self.old.profile self.old.state command.now).0) }
        ensures reply { IfOk result
            (λ r. r ≡ (step self.old.profile self.old.state command.now).1) }
        ensures memory { OnErr result (self.new ≡ self.old) }
    {
        self.forget();
        let editor = command.editor;
        let said = match command.act {
            Act::Commit => self.commit(editor)?,
            _ => self.act(editor, &command.act)?,
        };
        Ok(Reply { editor, said })
    }

    /// Forgets what the step before has read.
    fn forget(&mut self)
        ensures { self.new ≡ self.old }
    {
        self.tools.clear();
    }

    /// Does an act of an editor that isn't a commit, and tells what is said.
    fn act(&mut self, editor: u8, act: &Act) -> Result<Said, Memory>
        requires first { 1 ≤ editor }
        requires last { editor ≤ 64 }
        requires served { is_served act.now ≡ true }
        requires stays { is_commit act.now ≡ false }
        ensures profile { self.new.profile ≡ self.old.profile }
        ensures did { IfOk result (DidAt editor act.now self.old self.new) }
        ensures memory { OnErr result (self.new ≡ self.old) }
    {
        let at = usize::from(editor) - 1;
        self.seats[at].act(&self.book, editor, act, &mut self.tools)
    }

    /// Commits the change that an editor has prepared, and tells what is said.
    fn commit(&mut self, editor: u8) -> Result<Said, Memory>
        requires first { 1 ≤ editor }
        requires last { editor ≤ 64 }
        ensures profile { self.new.profile ≡ self.old.profile }
        ensures did { IfOk result (DidAt editor Commit self.old self.new) }
        ensures memory { OnErr result (self.new ≡ self.old) }
    {
        let at = usize::from(editor) - 1;
        let seat = &mut self.seats[at];
        let Some(prepared) = seat.prepared.take() else {
            return Ok(Said::Nothing);
        };
        if let Some(why) = self.book.refusal(&prepared) {
            return Ok(refused(why));
        }
        let serial = seat.serial;
        let held = mem::replace(&mut seat.held, Held::Newest);
        match append(&mut self.book, &mut self.seats, at, prepared) {
            Ok(number) => Ok(Said::Commit { number }),
            Err(prepared) => {
                let prepared = Some(prepared);
                self.seats[at] = Seat {
                    held,
                    prepared,
                    serial,
                };
                Err(Memory)
            }
        }
    }
}

/// Appends an editor's prepared change to the book. Each other editor gets a share of the version that
/// it holds, which is about to become old, and the editor itself holds the newest one: where nobody
/// else does, the book changes it in its place.
fn append(
    book: &mut Book,
    seats: &mut [Seat],
    at: usize,
    prepared: Prepared,
) -> Result<u32, Prepared>
    requires at { at < length seats.old }
    requires newest { (slice_index_or seats.old at new_seat).held ≡ Newest }
    requires may { MayCommit book.old prepared }
    requires unrefused { refusal_of book.old prepared ≡ None }
    ensures book { OnOk result (IsBook book.new) }
    ensures took { OnOk result (Took book.old prepared.change book.new) }
    ensures number { IfOk result (λ n. n ≡ length book.new.history) }
    ensures kept { OnOk result (AreKept book.old at seats.old seats.new) }
    ensures same { OnErr result (book.new ≡ book.old) }
    ensures alike { OnErr result (AreAlike book.old seats.old seats.new) }
    ensures back { IfErr result (λ x. x ≡ prepared) }
{
    if keep_all(book, seats).is_err() {
        return Err(prepared);
    }
    seats[at].held = Held::Newest;
    book.append(prepared)
}

/// A seat for each editor.
fn first_seats(alloc: Global) -> Result<Vec<Seat>, Memory>
    ensures { IfOk result (λ seats. seats.items ≡ replicate editors new_seat) }
{
    let mut seats = Vec::new(alloc);
    for _ in 0..EDITORS {
        seats.push(Seat::new())?;
    }
    Ok(seats)
}

/// What is said of a change that isn't taken.
fn refused(why: Refusal) -> Said
    ensures { result ≡ refusal_said why }
{
    match why {
        Refusal::Stale { by, tile } => Said::Stale { by, tile },
        Refusal::Full(bound) => Said::Full {
            what: full_text(bound),
        },
    }
}

/// The word for a bound.
fn full_text(bound: FullOf) -> FullText
    ensures { result ≡ full_text bound }
{
    match bound {
        FullOf::Commits => FullText::Commits,
        FullOf::Segments => FullText::Segments,
        FullOf::Spans => FullText::Spans,
        FullOf::Passes => FullText::Passes,
    }
}
