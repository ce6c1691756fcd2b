//! What follows for every history. A call gives its caller the law, and does nothing when it runs.

ghost use Rattle.book_core.specs.Laws.{NewestIsNeverStale, OldBasesAreTaken};

/// A change that was prepared on the newest version isn't stale. So an editor who works alone never
/// meets a stale answer.
pub fn newest_is_never_stale()
    ensures { NewestIsNeverStale }
{}

/// A change that shares no tile with a later one is taken, however old its base is, unless the drawing
/// would be full.
pub fn old_bases_are_taken()
    ensures { OldBasesAreTaken }
{}
