//! How far a lock pass has come with its turn.

/// The stage of a lock pass, with its ticket where it has one. No value of it is made.
pub enum Stage {
    /// It has no ticket, and holds nothing.
    Idle,
    /// It drew a ticket.
    Waits(u64),
    /// It saw that its ticket is served.
    Served(u64),
    /// It has the book, and has not marked.
    Has(u64),
    /// It has the book, and has marked.
    Marked(u64),
    /// The book is back in the slot, and the ticket is not spent yet.
    Home(u64),
    /// It was joined into another pass.
    Ended,
}
