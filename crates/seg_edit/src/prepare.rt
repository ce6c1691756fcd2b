//! Preparing a change of one edit on a version.

ghost use Rattle.std.specs.Prelude.{◌≡◌, ◌≤◌, ◌<◌, ◌∷◌, [], map, IfOk, OnOk, OnErr, IsErrOf};
ghost use Rattle.std.specs.Prelude.{Contains, IfSome, IsPermutation, IsSorted, option_copied};
ghost use Rattle.std.specs.Prelude.{pos, ◌^◌, ◌-ℤ◌, length, unsigned_abs};
ghost use Rattle.std.specs.List.{AllByRecursion};
ghost use Rattle.grid_core.specs.LiveList.{names};
ghost use Rattle.grid_core.specs.Segment.{IsSegment};
ghost use Rattle.grid_core.specs.Tiles.{along, tile_cmp};
ghost use Rattle.hot_tile.specs.Tile.{segment_in};
ghost use Rattle.version_core.specs.declared.change.Edit.TheVariants.{Insert, Delete};
ghost use Rattle.version_core.specs.Looks.{with_looks, tile_look};
ghost use Rattle.version_core.specs.Stands.{content_of};
ghost use Rattle.seg_edit.specs.declared.prepare.PrepareFault.{PrepareFault};
ghost use Rattle.seg_edit.specs.Looks.{GrewByPrefix, looks_at};
ghost use Rattle.seg_edit.specs.Prepared.{IsPreparedOn};

use crate::prepared::Prepared;
use crate::tiles::{Found, grow_tiles, thin_tiles};
use grid_core::{Memory, Name, TileId, Ur};
use hot_tile::Scratch;
use std::alloc::Global;
use version_core::{Change, Edit, Looked, Renewal, Version};

/// Why a deletion wasn't prepared.
#[derive(Clone, Copy, Debug, PartialEq, Eq)]
pub enum PrepareFault {
    /// The name isn't live in the base.
    Unknown,
    /// Out of memory.
    Memory,
}

impl From<Memory> for PrepareFault {
    ghost use Rattle.seg_edit.specs.declared.prepare.PrepareFault.{PrepareFault};

    ghost from_gives = { λ _ fault. fault ≡ PrepareFault.Memory };

    fn from(_refused: Memory) -> PrepareFault {
        PrepareFault::Memory
    }
}

/// The insertion of a segment, prepared on a base in which its name isn't live. The segment lies within
/// the bound of the base's profile. The looks grow by the tiles that the segment meets, from its `p`
/// to its `q`, and after `Memory` by a prefix of these.
pub fn prepare_insert(
    alloc: Global,
    base: &Version,
    ur: Ur,
    looked: &mut Looked,
) -> Result<Prepared, Memory>
    requires brand { base.now.brand ≡ looked.old.brand }
    requires within { IsSegment base.now.profile.bound ur }
    requires new { ¬ Contains (names base.now.live) ur.name }
    ensures change { IfOk result (λ x. x.change
        ≡ record { editor = ur.name.editor; edits = Insert ur ∷ [] }) }
    ensures prepared { IfOk result (IsPreparedOn base.now) }
    ensures looked { OnOk result
        (looked.new ≡ with_looks looked.old (map tile_look (along base.now.profile ur))) }
    ensures memory { OnErr result
        (GrewByPrefix (map tile_look (along base.now.profile ur)) looked.old looked.new) }
{
    prepare_insert_in(alloc, base, ur, looked, &mut Scratch::open(alloc))
}

/// `prepare_insert`, in scratch that the caller lends.
pub fn prepare_insert_in(
    alloc: Global,
    base: &Version,
    ur: Ur,
    looked: &mut Looked,
    scratch: &mut Scratch,
) -> Result<Prepared, Memory>
    requires brand { base.now.brand ≡ looked.old.brand }
    requires within { IsSegment base.now.profile.bound ur }
    requires new { ¬ Contains (names base.now.live) ur.name }
    ensures change { IfOk result (λ x. x.change
        ≡ record { editor = ur.name.editor; edits = Insert ur ∷ [] }) }
    ensures prepared { IfOk result (IsPreparedOn base.now) }
    ensures looked { OnOk result
        (looked.new ≡ with_looks looked.old (map tile_look (along base.now.profile ur))) }
    ensures memory { OnErr result
        (GrewByPrefix (map tile_look (along base.now.profile ur)) looked.old looked.new) }
{
    let tiles = tile_walk::tiles(alloc, &ur, &base.profile())?;
    let found = base.tiles(&tiles, looked)?;
    insertion(alloc, base, ur, tiles, &found, scratch)
}

/// The deletion of the segment of a name, by an editor from 1 to 64, prepared on a base. The looks grow
/// by the name, and then by the tiles that the segment meets, from its `p` to its `q`; after `Memory`
/// by a prefix of these.
pub fn prepare_delete(
    alloc: Global,
    base: &Version,
    editor: u8,
    name: Name,
    looked: &mut Looked,
) -> Result<Prepared, PrepareFault>
    requires brand { base.now.brand ≡ looked.old.brand }
    ensures unknown { IsErrOf result PrepareFault.Unknown → ¬ Contains (names base.now.live) name }
    ensures known { OnOk result (Contains (names base.now.live) name) }
    ensures change { IfOk result (λ x. IfSome (segment_in base.now.live name)
        (λ s. x.change ≡ record { editor = editor; edits = Delete s ∷ [] })) }
    ensures prepared { IfOk result (IsPreparedOn base.now) }
    ensures looked { OnOk result (looked.new ≡ with_looks looked.old (looks_at base.now name)) }
    ensures looked_in_vain { IsErrOf result PrepareFault.Unknown
        → looked.new ≡ with_looks looked.old (looks_at base.now name) }
    ensures memory { IsErrOf result PrepareFault.Memory
        → GrewByPrefix (looks_at base.now name) looked.old looked.new }
{
    let mut scratch = Scratch::open(alloc);
    prepare_delete_in(alloc, base, editor, name, looked, &mut scratch)
}

/// `prepare_delete`, in scratch that the caller lends.
pub fn prepare_delete_in(
    alloc: Global,
    base: &Version,
    editor: u8,
    name: Name,
    looked: &mut Looked,
    scratch: &mut Scratch,
) -> Result<Prepared, PrepareFault>
    requires brand { base.now.brand ≡ looked.old.brand }
    ensures unknown { IsErrOf result PrepareFault.Unknown → ¬ Contains (names base.now.live) name }
    ensures known { OnOk result (Contains (names base.now.live) name) }
    ensures change { IfOk result (λ x. IfSome (segment_in base.now.live name)
        (λ s. x.change ≡ record { editor = editor; edits = Delete s ∷ [] })) }
    ensures prepared { IfOk result (IsPreparedOn base.now) }
    ensures looked { OnOk result (looked.new ≡ with_looks looked.old (looks_at base.now name)) }
    ensures looked_in_vain { IsErrOf result PrepareFault.Unknown
        → looked.new ≡ with_looks looked.old (looks_at base.now name) }
    ensures memory { IsErrOf result PrepareFault.Memory
        → GrewByPrefix (looks_at base.now name) looked.old looked.new }
{
    let Some(s) = base.segment(name, looked)? else {
        return Err(PrepareFault::Unknown);
    };
    Ok(prepare_deletion(alloc, base, editor, s, looked, scratch)?)
}

/// The deletion of a live segment.
fn prepare_deletion(
    alloc: Global,
    base: &Version,
    editor: u8,
    s: &Ur,
    looked: &mut Looked,
    scratch: &mut Scratch,
) -> Result<Prepared, Memory>
    requires brand { base.now.brand ≡ looked.old.brand }
    requires here { Contains base.now.live s.now }
    ensures change { IfOk result (λ x. x.change
        ≡ record { editor = editor; edits = Delete s.now ∷ [] }) }
    ensures prepared { IfOk result (IsPreparedOn base.now) }
    ensures looked { OnOk result
        (looked.new ≡ with_looks looked.old (map tile_look (along base.now.profile s.now))) }
    ensures memory { OnErr result
        (GrewByPrefix (map tile_look (along base.now.profile s.now)) looked.old looked.new) }
{
    let _ = base.count();
    let tiles = tile_walk::tiles(alloc, s, &base.profile())?;
    let found = base.tiles(&tiles, looked)?;
    deletion(alloc, base, editor, s, tiles, &found, scratch)
}

/// The insertion, once its tiles are found.
fn insertion(
    alloc: Global,
    base: &Version,
    ur: Ur,
    tiles: Vec<TileId>,
    found: &[Found],
    scratch: &mut Scratch,
) -> Result<Prepared, Memory>
    requires within { IsSegment base.now.profile.bound ur }
    requires new { ¬ Contains (names base.now.live) ur.name }
    requires along { tiles.items ≡ along base.now.profile ur }
    requires each { IsPermutation (along base.now.profile ur) (map (λ e. e.0) found.now) }
    requires value { AllByRecursion
        (λ e. option_copied e.1 ≡ content_of base.now.profile e.0 base.now.live) found.now }
    ensures change { IfOk result (λ x. x.change
        ≡ record { editor = ur.name.editor; edits = Insert ur ∷ [] }) }
    ensures prepared { IfOk result (IsPreparedOn base.now) }
{
    let profile = base.profile();
    let _ = base.count();
    let (contents, gain) = grow_tiles(alloc, profile, found, &ur, scratch)?;
    let change = Change::one(alloc, ur.name().editor(), Edit::Insert(ur))?;
    let tiles = sorted(tiles);
    let span_gain = number(&tiles);
    Ok(Prepared {
        base: base.number(),
        profile,
        tiles,
        renewal: Renewal::of(contents, change, narrow(gain), span_gain)?,
    })
}

/// The deletion, once its tiles are found.
fn deletion(
    alloc: Global,
    base: &Version,
    editor: u8,
    s: &Ur,
    tiles: Vec<TileId>,
    found: &[Found],
    scratch: &mut Scratch,
) -> Result<Prepared, Memory>
    requires here { Contains base.now.live s.now }
    requires along { tiles.items ≡ along base.now.profile s.now }
    requires each { IsPermutation (along base.now.profile s.now) (map (λ e. e.0) found.now) }
    requires value { AllByRecursion
        (λ e. option_copied e.1 ≡ content_of base.now.profile e.0 base.now.live) found.now }
    ensures change { IfOk result (λ x. x.change
        ≡ record { editor = editor; edits = Delete s.now ∷ [] }) }
    ensures prepared { IfOk result (IsPreparedOn base.now) }
{
    let profile = base.profile();
    let _ = base.count();
    let (contents, gain) = thin_tiles(alloc, profile, found, s.name(), scratch)?;
    let change = Change::one(alloc, editor, Edit::Delete(*s))?;
    let tiles = sorted(tiles);
    let span_gain = less(&tiles);
    Ok(Prepared {
        base: base.number(),
        profile,
        tiles,
        renewal: Renewal::of(contents, change, narrow(gain), span_gain)?,
    })
}

/// The tiles by column and then row.
fn sorted(mut tiles: Vec<TileId>) -> Vec<TileId>
    ensures permutation { IsPermutation tiles.items result.items }
    ensures sorted { IsSorted tile_cmp result.items }
{
    tiles.sort_unstable();
    tiles
}

/// How many tiles there are.
fn number(tiles: &[TileId]) -> i64
    requires { length tiles.now ≤ 2 ^ 32 }
    ensures value { result ≡ pos (length tiles.now) }
    ensures small { unsigned_abs result ≤ 2 ^ 32 }
{
    tiles.len() as i64
}

/// How many tiles there are less.
fn less(tiles: &[TileId]) -> i64
    requires { length tiles.now ≤ 2 ^ 32 }
    ensures value { result ≡ pos 0 -ℤ pos (length tiles.now) }
    ensures small { unsigned_abs result ≤ 2 ^ 32 }
{
    -number(tiles)
}

/// A gain of a prepared change, which is small.
fn narrow(gain: i128) -> i64
    requires { unsigned_abs gain ≤ 2 ^ 51 }
    ensures { result ≡ gain }
{
    gain as i64
}
