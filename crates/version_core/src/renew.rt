//! The next version: what a change makes of a version, in its place or beside it.

ghost use Rattle.std.specs.Prelude.{◌≡◌, ◌≤◌, ◌+◌, ◌*◌, ◌^◌, ◌+ℤ◌, ◌≤ℤ◌, pos, length, []};
ghost use Rattle.std.specs.Prelude.{IfOk, OnOk, OnErr};
ghost use Rattle.version_core.specs.Edits.{inserted_names, after_edits, FitEdits};
ghost use Rattle.version_core.specs.Laws.{AreSegments};
ghost use Rattle.version_core.specs.Renewal.{Renews};
ghost use Rattle.version_core.specs.Version.{MayFollow, IsNext, most_segments};

use crate::change::{Change, Edit};
use crate::renewal::Renewal;
use crate::version::Version;
use grid_core::Memory;

impl Version {
    /// Makes this version the next one, by a change that was prepared. What nobody else holds of it is
    /// changed where it is. After want of memory it is as before.
    pub fn renew(&mut self, renewal: &mut Renewal) -> Result<(), Memory>
        requires follows { MayFollow self.old renewal.old.change }
        requires renews { Renews self.old.profile self.old.live renewal.old }
        ensures next { OnOk result (IsNext self.old renewal.old.change self.new) }
        ensures memory { OnErr result (self.new ≡ self.old) }
        ensures same { renewal.new ≡ renewal.old }
    {
        let number = self.number + 1;
        let count = count_after(self.count, renewal.change().edits());
        let spans = gained(self.spans, renewal.span_gain());
        let passes = gained(self.passes, renewal.gain());
        renewal.edit(&mut self.entries, number)?;
        self.number = number;
        self.count = count;
        self.spans = spans;
        self.passes = passes;
        Ok(())
    }

    /// The next version, by a change that was prepared. It shares with this one the tiles that the
    /// change doesn't touch.
    pub fn renewed(&self, renewal: &mut Renewal) -> Result<Version, Memory>
        requires follows { MayFollow self.now renewal.old.change }
        requires renews { Renews self.now.profile self.now.live renewal.old }
        ensures next { IfOk result (IsNext self.now renewal.old.change) }
        ensures same { renewal.new ≡ renewal.old }
    {
        let mut next = self.share()?;
        next.renew(renewal)?;
        Ok(next)
    }

    /// How many segments are live after a change that fits the live list. Takes no memory.
    pub fn count_with(&self, change: &Change) -> usize
        requires fits { FitEdits change.now.editor [] self.now.live change.now.edits }
        requires within { AreSegments self.now.profile.bound change.now.edits }
        ensures { result ≡ length (after_edits self.now.live change.now.edits) }
    {
        count_after(self.count, change.edits())
    }

    /// The same version once more. The two share all their tiles.
    fn share(&self) -> Result<Version, Memory>
        ensures { IfOk result (λ v. v ≡ self.now) }
    {
        Ok(Version {
            alloc: self.alloc,
            number: self.number,
            profile: self.profile,
            brand: self.brand,
            count: self.count,
            spans: self.spans,
            passes: self.passes,
            entries: self.entries.with_all(&[])?,
        })
    }
}

/// How many segments are live after the edits, where so many were.
fn count_after(count: usize, edits: &[Edit]) -> usize
    requires few { count ≤ most_segments }
    requires some { length edits.now ≤ count + 2 * length (inserted_names edits.now) }
    ensures { result + length edits.now ≡ count + 2 * length (inserted_names edits.now) }
{
    let inserted = insertions(edits);
    count + inserted - (edits.len() - inserted)
}

/// How many of the edits are insertions.
fn insertions(edits: &[Edit]) -> usize
    ensures value { result ≡ length (inserted_names edits.now) }
    ensures few { result ≤ length edits.now }
{
    let mut found = 0;
    for edit in edits {
        match edit {
            Edit::Insert(_) => found += 1,
            Edit::Delete(_) => {}
        }
    }
    found
}

/// A sum after a gain, which may be negative.
fn gained(sum: u64, gain: i64) -> u64
    requires small { sum ≤ 2 ^ 62 }
    requires some { pos 0 ≤ℤ (pos sum +ℤ gain) }
    requires most { (pos sum +ℤ gain) ≤ℤ pos (2 ^ 62) }
    ensures { pos result ≡ pos sum +ℤ gain }
{
    (sum as i64 + gain) as u64
}
