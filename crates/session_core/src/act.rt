//! The acts of an editor that leave the history as it is.

ghost use Rattle.std.specs.Prelude.{◌≡◌, ℕ, ◌≤◌, ◌+◌, true, false, IfOk, IfErr, OnOk, OnErr, None, Some};
ghost use Rattle.grid_core.specs.Segment.{IsSegment, segment_of};
ghost use Rattle.book_core.specs.Book.{BookState};
ghost use Rattle.script_read.specs.Command.{is_served};
ghost use Rattle.script_read.specs.declared.command.Act.TheVariants.{Take, Insert, Delete, Reads, Drop, Ask};
ghost use Rattle.script_read.specs.declared.command.Query.TheVariants.{Show};
ghost use Rattle.session_core.specs.Step.{draw_refusal};
ghost use Rattle.session_core.specs.World.{Did, IsSeat, IsVersionOf, held_version, is_commit};

use crate::seat::{Held, Seat};
use crate::tools::Tools;
use book_core::Book;
use canon_write::arrangement_text;
use grid_core::{EndFault, Memory, Name, Point, Profile, Ur};
use round_plain::round;
use script_read::{Act, Items, Query, Refusal, Said};
use seg_edit::{PrepareFault, prepare_delete_in, prepare_insert_in};

/// The last serial that an editor can be given.
const LAST_SERIAL: u16 = 65_535;

impl Seat {
    /// Does an act of the editor that isn't a commit, and tells what is said. After `Memory` the seat
    /// is as before.
    pub(crate) fn act(
        &mut self,
        book: &Book,
        editor: u8,
        act: &Act,
        tools: &mut Tools,
    ) -> Result<Said, Memory>
        requires first { 1 ≤ editor }
        requires last { editor ≤ 64 }
        requires served { is_served act.now ≡ true }
        requires stays { is_commit act.now ≡ false }
        requires seat { IsSeat book.now editor self.old }
        requires brand { tools.old.looked.brand ≡ book.now.version.brand }
        ensures did { IfOk result (Did book.now editor act.now self.old self.new) }
        ensures memory { OnErr result (self.new ≡ self.old) }
        ensures brand { tools.new.looked.brand ≡ tools.old.looked.brand }
    {
        match act {
            Act::Take => Ok(self.take(book)),
            Act::Insert { a, b } => self.insert(book, editor, *a, *b, tools),
            Act::Delete { name } => self.delete(book, editor, *name, tools),
            Act::Reads => self.reads(book, tools),
            Act::Drop => Ok(self.give_up()),
            Act::Ask(Query::Show) => self.show(book, tools),
            Act::Commit | Act::Ask(_) => unreachable!(),
        }
    }

    /// The editor holds the newest version.
    fn take(&mut self, book: &Book) -> Said
        ensures { (own : ℕ) → IsSeat book.now own self.old
            → Did book.now own Take self.old self.new result }
    {
        self.held = Held::Newest;
        Said::At {
            number: book.newest().number(),
        }
    }

    /// Prepares the insertion of a segment under the editor's next name.
    fn insert(
        &mut self,
        book: &Book,
        editor: u8,
        a: Point,
        b: Point,
        tools: &mut Tools,
    ) -> Result<Said, Memory>
        requires first { 1 ≤ editor }
        requires last { editor ≤ 64 }
        requires seat { IsSeat book.now editor self.old }
        requires brand { tools.old.looked.brand ≡ book.now.version.brand }
        ensures did { IfOk result (Did book.now editor (Insert a b) self.old self.new) }
        ensures memory { OnErr result (self.new ≡ self.old) }
        ensures brand { tools.new.looked.brand ≡ tools.old.looked.brand }
    {
        if self.prepared.is_some() {
            return Ok(Said::Refused { why: Refusal::Busy });
        }
        let base = self.held.version(book);
        let ur = match draw(&base.profile(), editor, self.serial, a, b) {
            Ok(ur) => ur,
            Err(why) => return Ok(Said::Refused { why }),
        };
        let Tools {
            alloc,
            looked,
            scratch,
        } = tools;
        let prepared = prepare_insert_in(*alloc, base, ur, looked, scratch)?;
        self.prepared = Some(prepared);
        self.serial = ur.name().serial();
        Ok(Said::Ready { name: ur.name() })
    }

    /// Prepares the deletion of a segment that is live in the version that the editor holds.
    fn delete(
        &mut self,
        book: &Book,
        editor: u8,
        name: Name,
        tools: &mut Tools,
    ) -> Result<Said, Memory>
        requires first { 1 ≤ editor }
        requires last { editor ≤ 64 }
        requires seat { IsSeat book.now editor self.old }
        requires brand { tools.old.looked.brand ≡ book.now.version.brand }
        ensures did { IfOk result (Did book.now editor (Delete name) self.old self.new) }
        ensures memory { OnErr result (self.new ≡ self.old) }
        ensures brand { tools.new.looked.brand ≡ tools.old.looked.brand }
    {
        if self.prepared.is_some() {
            return Ok(Said::Refused { why: Refusal::Busy });
        }
        let base = self.held.version(book);
        let looked = &mut tools.looked;
        match prepare_delete_in(tools.alloc, base, editor, name, looked, &mut tools.scratch) {
            Ok(prepared) => {
                self.prepared = Some(prepared);
                Ok(Said::Ready { name })
            }
            Err(PrepareFault::Unknown) => Ok(Said::Refused {
                why: Refusal::Unknown,
            }),
            Err(PrepareFault::Memory) => Err(Memory),
        }
    }

    /// The tiles of the prepared change.
    fn reads(&self, book: &Book, tools: &Tools) -> Result<Said, Memory>
        ensures { IfOk result (λ said. (own : ℕ) → IsSeat book.now own self.now
            → Did book.now own Reads self.now self.now said) }
    {
        match &self.prepared {
            Some(prepared) => {
                let tiles = prepared.tiles().to_vec(tools.alloc)?;
                Ok(Said::Reads {
                    tiles: Items::of(tiles),
                })
            }
            None => Ok(Said::Nothing),
        }
    }

    /// Gives the prepared change up.
    fn give_up(&mut self) -> Said
        ensures { (b : BookState) (own : ℕ) → IsSeat b own self.old
            → Did b own Drop self.old self.new result }
    {
        match self.prepared.take() {
            Some(_) => Said::Dropped,
            None => Said::Nothing,
        }
    }

    /// The arrangement of the version that the editor holds, rounded from nothing.
    fn show(&self, book: &Book, tools: &mut Tools) -> Result<Said, Memory>
        requires held { IsVersionOf book.now (held_version book.now self.now.held) }
        requires brand { tools.old.looked.brand ≡ book.now.version.brand }
        ensures did { IfOk result (λ said. (own : ℕ) → IsSeat book.now own self.now
            → Did book.now own (Ask Show) self.now self.now said) }
        ensures brand { tools.new.looked.brand ≡ tools.old.looked.brand }
    {
        let version = self.held.version(book);
        let live = version.segments(&mut tools.looked)?;
        // The call tells that the segments are a live list, as `round` asks.
        let _ = version.count();
        let picture = round(tools.alloc, &live)?;
        let text = arrangement_text(tools.alloc, version.number(), &picture)?;
        Ok(Said::Show {
            text: Items::of(text),
        })
    }
}

/// The segment that an editor draws between two points under the serial behind its last one.
fn draw(profile: &Profile, editor: u8, last: u16, a: Point, b: Point) -> Result<Ur, Refusal>
    requires first { 1 ≤ editor }
    requires last { editor ≤ 64 }
    ensures drawn { OnOk result (draw_refusal profile.now last a b ≡ None) }
    ensures value { IfOk result (λ s. s
        ≡ segment_of (record { editor = editor; serial = last + 1 }) a b) }
    ensures within { IfOk result (IsSegment profile.now.bound) }
    ensures refused { IfErr result (λ why. draw_refusal profile.now last a b ≡ Some why) }
{
    let name = Name::new(editor, last.saturating_add(1)).unwrap();
    match Ur::new(profile, name, a, b) {
        Ok(_) if last == LAST_SERIAL => Err(Refusal::Serials),
        Ok(ur) => Ok(ur),
        Err(EndFault::Range) => Err(Refusal::Range),
        Err(EndFault::Point) => Err(Refusal::Point),
    }
}
