//! The seats of the editors: which version each holds, what it has prepared, and its last serial.

ghost use Rattle.std.specs.Prelude.{◌≡◌, OnOk, OnErr};
ghost use Rattle.session_core.specs.World.{new_seat, held_version, IsShare, AreShares, AreAlike};

use book_core::Book;
use grid_core::Memory;
use seg_edit::Prepared;
use std::sync::Arc;
use version_core::Version;

/// The version that an editor holds.
#[derive(Drop)]
pub(crate) enum Held {
    /// The newest one, without a share of it: so the book may change it in its place.
    Newest,
    /// One of which the editor has a share.
    Older(Arc<Version>),
}

impl Held {
    /// The version. Takes no memory.
    pub(crate) fn version<'a>(&'a self, book: &'a Book) -> &'a Version
        ensures { result.now ≡ held_version book.now self.now }
    {
        match self {
            Held::Newest => book.newest(),
            Held::Older(version) => version,
        }
    }
}

/// What the machine keeps of an editor.
#[derive(Drop)]
pub(crate) struct Seat {
    /// The version on which the editor prepares, and of which its queries tell.
    pub(crate) held: Held,
    /// The change that the editor has prepared and not yet committed.
    pub(crate) prepared: Option<Prepared>,
    /// The last serial that the editor was given, 0 where none was.
    pub(crate) serial: u16,
}

impl Seat {
    /// The editor holds the newest version, and nothing is prepared.
    pub(crate) fn new() -> Seat
        ensures { result ≡ new_seat }
    {
        Seat {
            held: Held::Newest,
            prepared: None,
            serial: 0,
        }
    }

    /// Gives the editor a share of the version that it holds. So the version stays as it is when the
    /// book takes a change.
    fn keep(&mut self, book: &Book) -> Result<(), Memory>
        ensures kept { OnOk result (IsShare book.now self.old self.new) }
        ensures memory { OnErr result (self.new ≡ self.old) }
    {
        if let Held::Newest = self.held {
            self.held = Held::Older(book.snapshot()?);
        }
        Ok(())
    }
}

/// Gives each editor a share of the version that it holds. After `Memory` some have theirs, and each
/// still holds the version that it held.
pub(crate) fn keep_all(book: &Book, seats: &mut [Seat]) -> Result<(), Memory>
    ensures kept { OnOk result (AreShares book.now seats.old seats.new) }
    ensures memory { OnErr result (AreAlike book.now seats.old seats.new) }
{
    for seat in seats.iter_mut() {
        seat.keep(book)?;
    }
    Ok(())
}
