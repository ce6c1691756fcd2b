//! Hot pixels of a tile by key, with their counts: what is more is merged, and what is less taken away.

ghost use Rattle.std.specs.Prelude.{◌≡◌, ◌+◌, ◌-◌, ◌<◌, ◌≤◌, ◌^◌, false, not, All, OnOk};
ghost use Rattle.std.specs.Prelude.{length, take, drop, filter, if◌then◌else◌, [], ◌∷◌, ◌++◌};
ghost use Rattle.std.specs.Ordering.{nat_cmp, is_lt};
ghost use Rattle.std.specs.List.Sorted.{IsStrictlySortedBy};
ghost use Rattle.hot_tile.specs.Spots.{keys, counted, merged, fresh_keys, is_cold, cooled};
ghost use Rattle.hot_tile.specs.Spots.{cold_keys, IsSmall};

use grid_core::Memory;

/// A hot pixel of a tile with its counts, or what is counted at a pixel.
#[derive(Clone, Copy)]
pub(crate) struct Spot {
    /// The pixel, by its key.
    pub(crate) key: u32,
    /// How many ends of segments lie in it.
    pub(crate) ends: u32,
    /// How many pairs of segments cross in it.
    pub(crate) crossings: u32,
}

/// Both counts of each, by the key of the first, which both have.
#[inline(always)]
fn both(a: Spot, b: Spot) -> Spot
    requires first { IsSmall (2 ^ 31) (2 ^ 31) a }
    requires second { IsSmall (2 ^ 30) (2 ^ 30) b }
    ensures { result ≡ record { key = a.key; ends = a.ends + b.ends; crossings = a.crossings + b.crossings } }
{
    Spot {
        key: a.key,
        ends: a.ends + b.ends,
        crossings: a.crossings + b.crossings,
    }
}

/// How many of the spots, which stand in order of key, have lesser keys: where the key stands, or
/// would stand.
pub(crate) fn index_of_key(spots: &[Spot], key: u32) -> usize
    requires { IsStrictlySortedBy nat_cmp (keys spots.now) }
    ensures within { result ≤ length spots.now }
    ensures lesser { take result spots.now ≡ filter (λ x. is_lt (nat_cmp x.key key)) spots.now }
    ensures others { drop result spots.now
        ≡ filter (λ x. not (is_lt (nat_cmp x.key key))) spots.now }
{
    spots.partition_point(|x| x.key < key)
}

/// Counts one thing more, among spots in order of key.
pub(crate) fn count(spots: &mut Vec<Spot>, more: Spot) -> Result<(), Memory>
    requires rising { IsStrictlySortedBy nat_cmp (keys spots.old.items) }
    requires small { All (IsSmall (2 ^ 31) (2 ^ 31)) spots.old.items }
    requires more { IsSmall (2 ^ 30) (2 ^ 30) more }
    ensures { OnOk result (spots.new.items ≡ counted spots.old.items more) }
{
    let at = index_of_key(spots, more.key);
    if at < spots.len() && spots[at].key == more.key {
        spots[at] = both(spots[at], more);
        return Ok(());
    }
    spots.insert(at, more)?;
    Ok(())
}

/// Makes `spots` all of `olds` and `owns`, counted together, and `fresh` the keys that are new. Both
/// lists stand in order of key. The olds between two of the owns, which are few, are copied in one
/// run.
pub(crate) fn merge(
    olds: &[Spot],
    owns: &[Spot],
    spots: &mut Vec<Spot>,
    fresh: &mut Vec<u32>,
) -> Result<(), Memory>
    requires rising { IsStrictlySortedBy nat_cmp (keys olds.now) }
    requires own_rising { IsStrictlySortedBy nat_cmp (keys owns.now) }
    requires small { All (IsSmall (2 ^ 31) (2 ^ 31)) olds.now }
    requires own_small { All (IsSmall (2 ^ 30) (2 ^ 30)) owns.now }
    ensures spots { OnOk result (spots.new.items ≡ merged olds.now owns.now) }
    ensures fresh { OnOk result (fresh.new.items ≡ fresh_keys olds.now owns.now) }
{
    spots.clear();
    fresh.clear();
    let mut i = 0;
    for own in owns {
        let run = index_of_key(&olds[i..], own.key);
        spots.extend_from_slice(&olds[i..i + run])?;
        i += run;
        if i < olds.len() && olds[i].key == own.key {
            spots.push(both(olds[i], *own))?;
            i += 1;
        } else {
            spots.push(*own)?;
            fresh.push(own.key)?;
        }
    }
    spots.extend_from_slice(&olds[i..])?;
    Ok(())
}

/// Makes `spots` those of `olds` of which something is left once the counts of `owns` are taken
/// away, and `cold` the keys of the others. Both lists stand in order of key.
pub(crate) fn cool(
    olds: &[Spot],
    owns: &[Spot],
    spots: &mut Vec<Spot>,
    cold: &mut Vec<u32>,
) -> Result<(), Memory>
    requires rising { IsStrictlySortedBy nat_cmp (keys olds.now) }
    requires warm { All (λ x. is_cold x ≡ false) olds.now }
    requires own_rising { IsStrictlySortedBy nat_cmp (keys owns.now) }
    ensures spots { OnOk result (spots.new.items ≡ cooled olds.now owns.now) }
    ensures cold { OnOk result (cold.new.items ≡ cold_keys olds.now owns.now) }
{
    spots.clear();
    cold.clear();
    let mut i = 0;
    for own in owns {
        let run = index_of_key(&olds[i..], own.key);
        spots.extend_from_slice(&olds[i..i + run])?;
        i += run;
        if i < olds.len() && olds[i].key == own.key {
            push_left(less(olds[i], *own), spots, cold)?;
            i += 1;
        }
    }
    spots.extend_from_slice(&olds[i..])?;
    Ok(())
}

/// Puts what is left of a hot pixel behind the others, or its key behind those that became cold.
#[inline(always)]
fn push_left(left: Spot, spots: &mut Vec<Spot>, cold: &mut Vec<u32>) -> Result<(), Memory>
    ensures spots { OnOk result (spots.new.items
        ≡ spots.old.items ++ (if is_cold left then [] else left ∷ [])) }
    ensures cold { OnOk result (cold.new.items
        ≡ cold.old.items ++ (if is_cold left then left.key ∷ [] else [])) }
{
    if is_cold(left) {
        cold.push(left.key)?;
    } else {
        spots.push(left)?;
    }
    Ok(())
}

/// The first less the counts of the second, which are none greater where the second is counted in it.
#[inline(always)]
fn less(a: Spot, b: Spot) -> Spot
    ensures { result ≡ record {
      key = a.key;
      ends = a.ends - b.ends;
      crossings = a.crossings - b.crossings;
    } }
{
    Spot {
        key: a.key,
        ends: a.ends.saturating_sub(b.ends),
        crossings: a.crossings.saturating_sub(b.crossings),
    }
}

/// Whether nothing is counted.
#[inline(always)]
fn is_cold(x: Spot) -> bool
    ensures { result ≡ is_cold x }
{
    x.ends == 0 && x.crossings == 0
}
