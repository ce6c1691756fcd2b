//! Worked rows of editors who commit to one book, each row played in three ways.

ghost use Rattle.std.specs.Prelude.{◌≡◌, OnOk, IfSome, IsTrue, not, All, Contains};
ghost use Rattle.version_core.specs.Edits.{inserted_names};
ghost use Rattle.version_core.specs.History.{given_names};
ghost use Rattle.seg_edit.specs.Prepared.{IsPreparedOn};
ghost use Rattle.book_core.specs.Commit.{InsertsNew, MayCommit};
ghost use Rattle.book_core.specs.Waiting.{ShareNoName, AreWaiting, IsSettled};

use crate::{Book, Committed, Refusal, Settled};
use grid_core::{Memory, Name, Point, Profile, TileId, Ur};
use seg_edit::{PrepareFault, Prepared, prepare_delete, prepare_insert};
use std::alloc::Global;
use std::marker::Model;
use std::process::Abort;
use std::test::Fail;
use version_core::{Change, Edit, Looked, Version};

/// How a book takes a change.
#[derive(Clone, Copy, PartialEq, Eq)]
enum Way {
    /// By `commit_newest`, where nobody else holds the newest version.
    InPlace,
    /// By `commit_newest`, where somebody does.
    Beside,
    /// By `commit_step`.
    Step,
}

/// What an editor does.
#[derive(Clone, Copy)]
enum Act {
    /// Prepares an insertion on the newest version, under its name with this serial.
    Insert(u16, [i64; 4]),
    /// Prepares the deletion of this editor's segment with this serial on the newest version.
    Delete(u8, u16),
    /// Sees that this editor's segment with this serial isn't live in the newest version.
    Miss(u8, u16),
    /// Commits what it has prepared: the number, or why the book refuses it.
    Commit(Result<u32, Refusal>),
}

use Act::{Commit, Delete, Insert, Miss};

/// A book, and the changes that wait for it, at most one of each editor.
#[derive(Drop)]
struct Desk {
    book: Book,
    looked: Looked,
    waiting: Vec<Prepared>,
}

impl Model for Desk {
    ghost use Rattle.std.specs.Prelude.{◌≡◌};
    ghost use Rattle.book_core.specs.Book.{BookState};
    ghost use Rattle.book_core.specs.Waiting.{AreWaiting};

    ghost Value = { BookState };

    ghost view = { λ d. d.book };

    ghost invariant = { λ d. (d.book.version.brand ≡ d.looked.brand)
        × AreWaiting d.book d.waiting.items };
}

impl Desk {
    fn open(alloc: Global) -> Result<Desk, Memory> {
        let (book, looked) = Book::open(alloc, Profile::edition_one(), 5)?;
        let waiting = Vec::new(alloc);
        Ok(Desk {
            book,
            looked,
            waiting,
        })
    }

    /// The desk after an editor's act.
    fn after(
        self,
        rt: &impl Abort,
        alloc: Global,
        way: Way,
        editor: u8,
        act: Act,
    ) -> Result<Desk, Fail> {
        match act {
            Insert(serial, ends) => Ok(self.inserting(rt, alloc, name(rt, editor, serial), ends)?),
            Delete(owner, serial) => self.deleting(rt, alloc, editor, name(rt, owner, serial)),
            Miss(owner, serial) => Ok(self.missing(rt, name(rt, owner, serial))?),
            Commit(want) => self.committing(rt, way, editor, want),
        }
    }

    /// The desk, where the insertion of a segment waits too, given as four coordinates.
    fn inserting(
        self,
        rt: &impl Abort,
        alloc: Global,
        name: Name,
        ends: [i64; 4],
    ) -> Result<Desk, Memory> {
        let Desk {
            book,
            mut looked,
            waiting,
        } = self;
        let base = book.newest();
        let [a, b, c, d] = ends;
        let p = Point { x: a, y: b };
        let q = Point { x: c, y: d };
        let s = Ur::new(&base.profile(), name, p, q).expect(rt, "two ends within the bound");
        if base.segment(s.name(), &mut looked)?.is_some() {
            panic!(rt; "a name that isn't live");
        }
        let prepared = prepare_insert(alloc, base, s, &mut looked)?;
        with(rt, book, looked, waiting, prepared)
    }

    /// The desk, where the deletion of a segment waits too.
    fn deleting(
        self,
        rt: &impl Abort,
        alloc: Global,
        editor: u8,
        name: Name,
    ) -> Result<Desk, Fail> {
        let Desk {
            book,
            mut looked,
            waiting,
        } = self;
        match prepare_delete(alloc, book.newest(), editor, name, &mut looked) {
            Ok(prepared) => Ok(with(rt, book, looked, waiting, prepared)?),
            Err(PrepareFault::Unknown) => Err(Fail::new("the name isn't live")),
            Err(PrepareFault::Memory) => Err(Memory.into()),
        }
    }

    /// The desk as it is, in whose newest version the name isn't live.
    fn missing(self, rt: &impl Abort, name: Name) -> Result<Desk, Memory> {
        let mut desk = self;
        assert!(rt;
            desk.book
                .newest()
                .segment(name, &mut desk.looked)?
                .is_none()
        );
        Ok(desk)
    }

    /// The desk after the commit of the editor's change, to which the book gives this answer.
    fn committing(
        self,
        rt: &impl Abort,
        way: Way,
        editor: u8,
        want: Result<u32, Refusal>,
    ) -> Result<Desk, Fail> {
        let Desk {
            mut book,
            mut looked,
            mut waiting,
        } = self;
        let done = taken_out(&book, &mut waiting, editor).expect(rt, "a change that waits");
        let number = book.newest().number();
        let live = book.newest().segments(&mut looked)?;
        let said = settled(rt, way, &mut book, done, &waiting, &mut looked)?;
        assert!(rt; said == want);
        assert!(rt; book.history().len() == book.newest().number() as usize);
        if want.is_err() {
            assert!(rt; book.newest().number() == number);
        }
        let after = book.newest().segments(&mut looked)?;
        assert!(rt; want.is_ok() || after.as_slice() == live.as_slice());
        Ok(Desk {
            book,
            looked,
            waiting,
        })
    }

    /// The live list.
    fn live(&mut self) -> Result<Vec<Ur>, Memory> {
        self.book.newest().segments(&mut self.looked)
    }
}

fn name(rt: &impl Abort, editor: u8, serial: u16) -> Name {
    Name::new(editor, serial).expect(rt, "an editor from 1 to 64, and a serial above 0")
}

/// The desk of a book for which one change more waits.
fn with(
    rt: &impl Abort,
    book: Book,
    looked: Looked,
    mut waiting: Vec<Prepared>,
    prepared: Prepared,
) -> Result<Desk, Memory>
    requires brand { book.version.brand ≡ looked.brand }
    requires waiting { AreWaiting book waiting.items }
    requires prepared { IsPreparedOn book.version prepared }
{
    if !may_wait(&book, &prepared) {
        panic!(rt; "a change that the book may be given");
    }
    waiting.push(prepared)?;
    Ok(Desk {
        book,
        looked,
        waiting,
    })
}

/// Whether a change of one edit, prepared on the newest version, may be given to the book.
fn may_wait(book: &Book, prepared: &Prepared) -> bool
    requires { IsPreparedOn book.now.version prepared.now }
    ensures { IsTrue result → MayCommit book.now prepared.now }
{
    inserts_new(book.history(), prepared)
}

/// Whether the history has none of the names that a change of one edit inserts.
fn inserts_new(history: &[Change], prepared: &Prepared) -> bool
    ensures { IsTrue result → InsertsNew history.now prepared.now.change }
{
    match prepared.change().edits() {
        [Edit::Insert(s)] => !is_given(history, s.name()),
        [Edit::Delete(_)] => true,
        _ => false,
    }
}

/// Whether a history of changes of one edit each has the name.
fn is_given(history: &[Change], name: Name) -> bool
    ensures { IsTrue (not result) → ¬ Contains (given_names history.now) name }
{
    for change in history {
        if gives(change, name) {
            return true;
        }
    }
    false
}

/// Whether a change of one edit inserts the name.
fn gives(change: &Change, name: Name) -> bool
    ensures { IsTrue (not result) → ¬ Contains (inserted_names change.now.edits) name }
{
    match change.edits() {
        [Edit::Insert(s)] => s.name() == name,
        [Edit::Delete(_)] => false,
        _ => true,
    }
}

/// The change of the editor that waits, if there is one. It waits no longer.
fn taken_out(book: &Book, waiting: &mut Vec<Prepared>, editor: u8) -> Option<Prepared>
    requires waiting { AreWaiting book.now waiting.old.items }
    ensures own { IfSome result (MayCommit book.now) }
    ensures others { AreWaiting book.now waiting.new.items }
{
    for i in 0..waiting.len() {
        if waiting[i].change().editor() == editor {
            return Some(waiting.remove(i));
        }
    }
    None
}

/// Sees that the changes that wait are other editors'.
fn see_others(rt: &impl Abort, done: &Prepared, waiting: &[Prepared])
    ensures { All (λ x. ShareNoName x.change done.now.change) waiting.now }
{
    for x in waiting {
        see_other(rt, done, x);
    }
}

/// Sees that the change that waits is another editor's.
fn see_other(rt: &impl Abort, done: &Prepared, x: &Prepared)
    ensures { ShareNoName x.now.change done.now.change }
{
    assert!(rt; is_other(done.change().editor(), done, x));
}

/// Whether the change that waits isn't the editor's, whose change the other is.
fn is_other(editor: u8, done: &Prepared, x: &Prepared) -> bool
    requires { done.now.change.editor ≡ editor }
    ensures { IsTrue result → ShareNoName x.now.change done.now.change }
{
    let _ = done.change();
    if x.change().editor() == editor {
        return false;
    }
    true
}

/// The book's answer to a change, after which the others still wait.
fn settled(
    rt: &impl Abort,
    way: Way,
    book: &mut Book,
    done: Prepared,
    waiting: &[Prepared],
    looked: &mut Looked,
) -> Result<Result<u32, Refusal>, Memory>
    requires may { MayCommit book.old done }
    requires waiting { AreWaiting book.old waiting.now }
    requires brand { book.old.version.brand ≡ looked.old.brand }
    ensures waiting { OnOk result (AreWaiting book.new waiting.now) }
    ensures book { OnOk result (book.new.version.brand ≡ book.old.version.brand) }
    ensures brand { OnOk result (looked.new.brand ≡ looked.old.brand) }
{
    see_others(rt, &done, waiting);
    answered(rt, way, book, done, looked)
}

/// The book's answer, in this way.
fn answered(
    rt: &impl Abort,
    way: Way,
    book: &mut Book,
    done: Prepared,
    looked: &mut Looked,
) -> Result<Result<u32, Refusal>, Memory>
    requires may { MayCommit book.old done }
    requires brand { book.old.version.brand ≡ looked.old.brand }
    ensures book { OnOk result (IsSettled book.old done.change book.new) }
    ensures brand { OnOk result (looked.new.brand ≡ looked.old.brand) }
{
    match way {
        Way::InPlace => in_place(book, done),
        Way::Beside => beside(rt, book, done, looked),
        Way::Step => in_steps(rt, book, done),
    }
}

/// The book's answer, by `commit_newest`.
fn in_place(book: &mut Book, done: Prepared) -> Result<Result<u32, Refusal>, Memory>
    requires { MayCommit book.old done }
    ensures { OnOk result (IsSettled book.old done.change book.new) }
{
    match book.commit_newest(done) {
        Settled::Done(number) => Ok(Ok(number)),
        Settled::Refused(refusal) => Ok(Err(refusal)),
        Settled::Memory(_) => Err(Memory),
    }
}

/// The same, where somebody holds the newest version, which stays as it is.
fn beside(
    rt: &impl Abort,
    book: &mut Book,
    done: Prepared,
    looked: &mut Looked,
) -> Result<Result<u32, Refusal>, Memory>
    requires may { MayCommit book.old done }
    requires brand { book.old.version.brand ≡ looked.old.brand }
    ensures book { OnOk result (IsSettled book.old done.change book.new) }
    ensures brand { OnOk result (looked.new.brand ≡ looked.old.brand) }
{
    let before = book.snapshot()?;
    let number = before.number();
    let live = before.segments(looked)?;
    let said = in_place(book, done)?;
    assert!(rt; before.number() == number);
    assert!(rt; before.segments(looked)?.as_slice() == live.as_slice());
    Ok(said)
}

/// The book's answer, by `commit_step`.
fn in_steps(
    rt: &impl Abort,
    book: &mut Book,
    done: Prepared,
) -> Result<Result<u32, Refusal>, Memory>
    requires { MayCommit book.old done }
    ensures { OnOk result (IsSettled book.old done.change book.new) }
{
    match book.commit_step(done) {
        Committed::Done { number, version } => {
            assert!(rt; version.number() == number);
            Ok(Ok(number))
        }
        Committed::Stale { by, tile } => Ok(Err(Refusal::Stale { by, tile })),
        Committed::Full(bound) => Ok(Err(Refusal::Full(bound))),
        Committed::Memory(_) => Err(Memory),
    }
}

/// The desk after the editors' acts.
fn play(rt: &impl Abort, alloc: Global, way: Way, row: &[(u8, Act)]) -> Result<Desk, Fail> {
    let mut desk = Desk::open(alloc)?;
    for (editor, act) in row {
        desk = desk.after(rt, alloc, way, *editor, *act)?;
    }
    Ok(desk)
}

/// Plays the row in each way, and sees that the same comes of it.
fn see(rt: &impl Abort, alloc: Global, row: &[(u8, Act)]) -> Result<(), Fail> {
    let mut desk = play(rt, alloc, Way::InPlace, row)?;
    for way in [Way::Beside, Way::Step] {
        let mut other = play(rt, alloc, way, row)?;
        see_equal(rt, &mut desk, &mut other)?;
    }
    Ok(())
}

fn see_equal(rt: &impl Abort, a: &mut Desk, b: &mut Desk) -> Result<(), Memory> {
    assert!(rt; are_equal(a.book.history(), b.book.history()));
    assert!(rt; a.live()?.as_slice() == b.live()?.as_slice());
    let (v, w) = (a.book.newest(), b.book.newest());
    assert!(rt; v.number() == w.number() && v.count() == w.count());
    assert!(rt; v.spans() == w.spans() && v.passes() == w.passes());
    for i in -2..5 {
        for j in -2..5 {
            assert!(rt; v.stamp(TileId { i, j }) == w.stamp(TileId { i, j }));
        }
    }
    Ok(())
}

/// Whether the histories are equal.
fn are_equal(a: &[Change], b: &[Change]) -> bool {
    if a.len() != b.len() {
        return false;
    }
    for (x, y) in a.iter().zip(b) {
        if x.editor() != y.editor() || x.edits() != y.edits() {
            return false;
        }
    }
    true
}

fn stale(by: u32, i: i32, j: i32) -> Result<u32, Refusal> {
    let tile = TileId { i, j };
    Err(Refusal::Stale { by, tile })
}

/// Two changes that clash with a third, whose base is before both: the last is named. A change far from
/// them all is taken, with the same base.
#[test]
fn stale_by_the_last(rt: HostRuntime) -> Result<(), Fail> {
    let row = [
        (1, Insert(1, [0, 0, 10, 0])),
        (2, Insert(1, [20, 20, 30, 20])),
        (3, Insert(1, [0, 5, 10, 5])),
        (4, Insert(1, [1000, 1000, 1010, 1000])),
        (1, Commit(Ok(1))),
        (2, Commit(stale(1, 0, 0))),
        (2, Insert(2, [20, 20, 30, 20])),
        (2, Commit(Ok(2))),
        (3, Commit(stale(2, 0, 0))),
        (4, Commit(Ok(3))),
    ];
    see(&rt, rt.alloc(), &row)
}

/// The tile that is named is the least that the last change shares, and not one of a change before it.
#[test]
fn stale_at_the_least_tile(rt: HostRuntime) -> Result<(), Fail> {
    let row = [
        (1, Insert(1, [0, 0, 600, 0])),
        (2, Insert(1, [600, 10, 300, 10])),
        (3, Insert(1, [-300, 5, 700, 5])),
        (1, Commit(Ok(1))),
        (2, Commit(stale(1, 1, 0))),
        (2, Insert(2, [600, 10, 300, 10])),
        (2, Commit(Ok(2))),
        (3, Commit(stale(2, 1, 0))),
    ];
    see(&rt, rt.alloc(), &row)
}

#[test]
fn name_deleted_twice(rt: HostRuntime) -> Result<(), Fail> {
    let row = [
        (1, Insert(1, [0, 0, 10, 0])),
        (1, Commit(Ok(1))),
        (2, Delete(1, 1)),
        (3, Delete(1, 1)),
        (2, Commit(Ok(2))),
        (3, Commit(stale(2, 0, 0))),
        (3, Miss(1, 1)),
    ];
    see(&rt, rt.alloc(), &row)
}
