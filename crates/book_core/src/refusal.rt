//! Why a book doesn't take a prepared change.

ghost use Rattle.std.specs.Prelude.{◌≡◌, ◌+ℤ◌, int_lt, pos, None};
ghost use Rattle.version_core.specs.Edits.{after_edits};
ghost use Rattle.version_core.specs.History.{clash, live};
ghost use Rattle.version_core.specs.Laws.{AreSegments};
ghost use Rattle.version_core.specs.Stands.{Stands};
ghost use Rattle.version_core.specs.Version.{stamp_of};
ghost use Rattle.book_core.specs.Commit.{MayCommit, full_of, refusal_of};
ghost use Rattle.book_core.specs.Stamps.{IsLastTouched};

use crate::book::Book;
use grid_core::TileId;
use seg_edit::Prepared;
use version_core::Version;

/// A history has at most so many changes.
const MOST_COMMITS: usize = 262_144;
/// At most so many segments are live.
const MOST_SEGMENTS: usize = 4_096;
/// There are at most so many pairs of a live segment and a tile that it meets.
const MOST_SPANS: u64 = 4_194_304;
/// There are at most so many passes of live segments through hot pixels.
const MOST_PASSES: u64 = 4_194_304;

/// Which bound a change would pass, in the order in which they are tried.
#[derive(Clone, Copy, Debug, PartialEq, Eq)]
pub enum FullOf {
    /// The history has 262,144 changes.
    Commits,
    /// More than 4,096 segments would be live.
    Segments,
    /// There would be more than 4,194,304 pairs of a live segment and a tile that it meets.
    Spans,
    /// There would be more than 4,194,304 passes of live segments through hot pixels.
    Passes,
}

/// Why a change isn't taken. Stale comes before full.
#[derive(Clone, Copy, Debug, PartialEq, Eq)]
pub enum Refusal {
    /// Change number `by` came after the base and shares a tile with the prepared change. It is the
    /// last such change, and `tile` is the least tile that the two share.
    Stale { by: u32, tile: TileId },
    /// The drawing is full.
    Full(FullOf),
}

impl Book {
    /// Why the book doesn't take the prepared change, `None` where it takes it: stale before full, and
    /// the bounds in the order of `FullOf`. Takes no memory.
    pub fn refusal(&self, prepared: &Prepared) -> Option<Refusal>
        requires may { MayCommit self.now prepared.now }
        ensures { result ≡ refusal_of self.now prepared.now }
    {
        if let Some((by, tile)) = self.clash(prepared) {
            return Some(Refusal::Stale { by, tile });
        }
        self.is_rebased(prepared);
        match self.full(prepared) {
            Some(bound) => Some(Refusal::Full(bound)),
            None => None,
        }
    }

    /// The last change after the base that shares a tile with the prepared change, and the least tile
    /// that the two share. Takes no memory.
    fn clash(&self, prepared: &Prepared) -> Option<(u32, TileId)>
        requires may { MayCommit self.now prepared.now }
        ensures { result ≡ clash self.now.version.profile self.now.history
            prepared.now.base prepared.now.change }
    {
        last_touched(&self.version, prepared.tiles(), prepared.base())
    }

    /// A prepared change that clashes with nothing stands on the newest live list. The call gives its
    /// caller this law, and does nothing when it runs.
    pub(crate) fn is_rebased(&self, prepared: &Prepared)
        requires may { MayCommit self.now prepared.now }
        requires apart { clash self.now.version.profile self.now.history
            prepared.now.base prepared.now.change ≡ None }
        ensures stands { Stands prepared.now self.now.version.live }
        ensures within { AreSegments self.now.version.profile.bound prepared.now.change.edits }
    {
        self.version.profile();
        prepared.change();
    }

    /// The first of the bounds that the change would pass. Takes no memory.
    fn full(&self, prepared: &Prepared) -> Option<FullOf>
        requires profile { prepared.now.profile ≡ self.now.version.profile }
        requires stands { Stands prepared.now self.now.version.live }
        ensures { result ≡ full_of self.now.version.profile self.now.history
            (after_edits (live self.now.history) prepared.now.change.edits) }
    {
        if self.history.len() >= MOST_COMMITS {
            return Some(FullOf::Commits);
        }
        if self.version.count_with(prepared.change()) > MOST_SEGMENTS {
            return Some(FullOf::Segments);
        }
        if exceeds(self.version.spans(), prepared.span_gain(), MOST_SPANS) {
            return Some(FullOf::Spans);
        }
        if exceeds(self.version.passes(), prepared.gain(), MOST_PASSES) {
            return Some(FullOf::Passes);
        }
        None
    }
}

/// Whether a sum is greater than `most` after a gain, which may be negative.
fn exceeds(sum: u64, gain: i64, most: u64) -> bool
    ensures { result ≡ int_lt (pos most) (pos sum +ℤ gain) }
{
    i128::from(sum) + i128::from(gain) > i128::from(most)
}

/// The greatest stamp of the tiles that is above the base, and the first tile with it.
fn last_touched(version: &Version, tiles: &[TileId], base: u32) -> Option<(u32, TileId)>
    ensures { IsLastTouched (stamp_of version.now.stamps) base tiles.now result }
{
    let mut found = None;
    let mut last = base;
    for tile in tiles {
        let stamp = version.stamp(*tile);
        if stamp > last {
            last = stamp;
            found = Some((stamp, *tile));
        }
    }
    found
}
