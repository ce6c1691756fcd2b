//! Applying a prepared change.

ghost use Rattle.std.specs.Prelude.{◌≡◌, ◌+◌, ◌<◌, ◌≤◌, ◌^◌, length, IfOk, OnOk, OnErr};
ghost use Rattle.version_core.specs.Stands.{Stands, after_change};
ghost use Rattle.version_core.specs.Version.{IsNext, most_segments};

use crate::prepared::Prepared;
use grid_core::Memory;
use version_core::Version;

/// The version after the prepared change. The current version stays as it is.
pub fn apply(current: &Version, prepared: &Prepared) -> Result<Version, Memory>
    requires profile { current.now.profile ≡ prepared.now.profile }
    requires stands { Stands prepared.now current.now.live }
    requires few { length (after_change current.now.live prepared.now.change) ≤ most_segments }
    requires numbered { current.now.number + 1 < 2 ^ 32 }
    ensures { IfOk result (IsNext current.now prepared.now.change) }
{
    let mut renewal = prepared.renewal.copy()?;
    current.renewed(&mut renewal)
}

/// What `apply` gives, made of what was prepared itself and not of a copy: the new version shares its
/// new tiles with the prepared change, which stays as it is.
pub fn apply_beside(current: &Version, prepared: &mut Prepared) -> Result<Version, Memory>
    requires profile { current.now.profile ≡ prepared.old.profile }
    requires stands { Stands prepared.old current.now.live }
    requires few { length (after_change current.now.live prepared.old.change) ≤ most_segments }
    requires numbered { current.now.number + 1 < 2 ^ 32 }
    ensures next { IfOk result (IsNext current.now prepared.old.change) }
    ensures same { prepared.new ≡ prepared.old }
{
    current.renewed(&mut prepared.renewal)
}

/// Makes the current version the one after the prepared change: what `apply` gives, in its place.
/// What nobody else holds is changed where it is. After `Memory` the version is as before, and the
/// prepared change is in any case.
pub fn apply_in_place(current: &mut Version, prepared: &mut Prepared) -> Result<(), Memory>
    requires profile { current.old.profile ≡ prepared.old.profile }
    requires stands { Stands prepared.old current.old.live }
    requires few { length (after_change current.old.live prepared.old.change) ≤ most_segments }
    requires numbered { current.old.number + 1 < 2 ^ 32 }
    ensures ok { OnOk result (IsNext current.old prepared.old.change current.new) }
    ensures err { OnErr result (current.new ≡ current.old) }
    ensures same { prepared.new ≡ prepared.old }
{
    current.renew(&mut prepared.renewal)
}
