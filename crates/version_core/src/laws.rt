//! What follows for every history. A call gives its caller the law, and does nothing when it runs.

ghost use Rattle.version_core.specs.Laws.{ChangesAreRebased};

use grid_core::Profile;

/// A change that was prepared on an older live list stands on the newest one, where no change since
/// then shares a tile with it.
pub fn changes_are_rebased(profile: &Profile)
    ensures { ChangesAreRebased profile.now }
{
    profile.side();
}
