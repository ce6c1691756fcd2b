//! Books, and what they tell.

ghost use Rattle.std.specs.Prelude.{◌≡◌, [], IfOk};
ghost use Rattle.std.specs.Arc.{arc_value};

use grid_core::{Memory, Profile};
use std::alloc::Global;
use std::marker::Model;
use std::sync::Arc;
use version_core::{Change, Looked, Version};

/// The history of a drawing, and the version after it.
#[derive(Drop)]
pub struct Book {
    pub(crate) alloc: Global,
    pub(crate) history: Vec<Change>,
    pub(crate) version: Arc<Version>,
}

impl Model for Book {
    ghost use Rattle.std.specs.Arc.{arc_value};
    ghost use Rattle.book_core.specs.Book.{BookState, IsBook};

    ghost Value = { BookState };

    ghost view = { λ b. record { history = b.history.items; version = arc_value b.version } };

    ghost invariant = { λ b. IsBook (record {
      history = b.history.items;
      version = arc_value b.version;
    }) };
}

impl Book {
    ghost use Rattle.book_core.specs.Book.{IsBook};

    /// The book before the first change, and the `Looked` by which its versions may be read. No call
    /// of the book changes its profile or its brand.
    pub fn open(alloc: Global, profile: Profile, brand: u64) -> Result<(Book, Looked), Memory>
        ensures history { IfOk result (λ p. p.0.history ≡ []) }
        ensures version { IfOk result (λ p. p.0.version
            ≡ record { number = 0; profile = profile; brand = brand; live = []; stamps = [] }) }
        ensures looked { IfOk result (λ p. p.1
            ≡ record { looks = []; epoch = 0; brand = brand }) }
    {
        let (version, looked) = Version::open(alloc, profile, brand)?;
        let book = Book {
            alloc,
            history: Vec::new(alloc),
            version,
        };
        Ok((book, looked))
    }

    /// The changes in their order: number 1 is the first. Takes no memory.
    pub fn history(&self) -> &[Change]
        ensures value { result.now ≡ self.now.history }
        ensures kept { IsBook self.now }
    {
        &self.history
    }

    /// The version after the whole history, shared once more.
    pub fn snapshot(&self) -> Result<Arc<Version>, Memory>
        ensures { IfOk result (λ v. arc_value v ≡ self.now.version) }
    {
        Ok(self.version.clone()?)
    }

    /// The version after the whole history, lent. Takes no memory.
    pub fn newest(&self) -> &Version
        ensures value { result.now ≡ self.now.version }
        ensures kept { IsBook self.now }
    {
        &self.version
    }
}
