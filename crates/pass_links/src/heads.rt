//! Where lists begin: for each segment or pixel that has one, the key of its list's first node.
ghost use Rattle.std.specs.Prelude.{◌≡◌, ◌≢◌, ◌+◌, ◌<◌, ◌≤◌, cond, OnErr};
ghost use Rattle.std.specs.Ordering.{eq_by_cmp};
ghost use Rattle.std.specs.Vec.{vec_len, vec_capacity};
ghost use Rattle.pass_links.specs.Chain.{end};
ghost use Rattle.pass_links.specs.Heads.{first_of, Rise, IsHeadPlace};

use crate::nodes::END;
use crate::owner::Owner;

/// Where the list of one segment or pixel begins.
#[derive(Clone, Copy)]
pub(crate) struct Head<K> {
    /// The segment or pixel.
    pub(crate) of: K,
    /// The key of the first node.
    pub(crate) first: u32,
}

/// Where the head of this segment or pixel stands, or would stand.
fn place<K: Owner>(heads: &[Head<K>], of: &K) -> Result<usize, usize>
    requires { Rise K.cmp heads.now }
    ensures place { IsHeadPlace K.cmp heads.now of.now result }
    ensures none { OnErr result (first_of K.cmp heads.now of.now ≡ end) }
{
    let at = heads.partition_point(|head| head.of.is_before(of));
    let Some(head) = heads.get(at) else {
        return Err(at);
    };
    if head.of == *of { Ok(at) } else { Err(at) }
}

/// What a search for a head found.
#[derive(Clone, Copy)]
pub(crate) struct Found {
    /// Where the head stands, or would stand.
    pub(crate) place: Result<usize, usize>,
    /// The first key of its list, or `END` where there is none.
    pub(crate) first: u32,
}

/// Searches for the head of this segment or pixel.
pub(crate) fn find<K: Owner>(heads: &[Head<K>], of: K) -> Found
    requires { Rise K.cmp heads.now }
    ensures place { IsHeadPlace K.cmp heads.now of result.place }
    ensures first { result.first ≡ first_of K.cmp heads.now of }
{
    let place = place(heads, &of);
    match place {
        Ok(at) => Found {
            place,
            first: heads[at].first,
        },
        Err(_) => Found { place, first: END },
    }
}

/// Sets where this segment's or pixel's list begins, whose head has this place. The head of a list
/// that becomes empty goes. Takes no memory.
pub(crate) fn set_first<K: Owner>(
    heads: &mut Vec<Head<K>>,
    of: K,
    place: Result<usize, usize>,
    first: u32,
)
    requires rise { Rise K.cmp heads.old.items }
    requires place { IsHeadPlace K.cmp heads.old.items of place }
    requires room { first_of K.cmp heads.old.items of ≡ end
        → vec_len heads.old < vec_capacity heads.old }
    ensures rise { Rise K.cmp heads.new.items }
    ensures first { (q : K) → first_of K.cmp heads.new.items q
        ≡ cond (eq_by_cmp K.cmp q of) first (first_of K.cmp heads.old.items q) }
    ensures len { vec_len heads.new ≤ vec_len heads.old + 1 }
    ensures had { first_of K.cmp heads.old.items of ≢ end → vec_len heads.new ≤ vec_len heads.old }
    ensures capacity { vec_capacity heads.new ≡ vec_capacity heads.old }
{
    match place {
        Ok(at) => {
            if first == END {
                heads.remove(at);
            } else {
                heads[at].first = first;
            }
        }
        Err(at) => {
            let put = heads.insert(at, Head { of, first });
            prove!(put.is_ok());
        }
    }
}
