//! What a book tells of itself, so that the lock can say what its holders know of it.
ghost use Rattle.std.specs.Prelude.{◌≡◌, ℕ, List, ℤ, length};

/// A book with a history. Each entry of the history names the number of the lock pass that made it.
pub trait Counted: Drop {
    /// One entry of the history.
    type Entry;

    // the entries, the oldest first
    ghost history: { Self → List Self.Entry };

    // the number that an entry names, in a book with this label
    ghost author: { List ℤ → Self.Entry → ℕ };

    // what stays the same while the book is behind a lock
    ghost label: { Self → List ℤ };

    /// The length of the history.
    fn marks(&self) -> u32
        ensures { result ≡ length (history self.now) };
}
