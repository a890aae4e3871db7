//! What a policy wishes for a group.
ghost use Rattle.std.specs.Prelude.{◌≡◌, nat_le, nat_lt, length, filter, slice_get};
ghost use Rattle.sc_group_table.specs.policy.Wishes.{has_neighbour, middle_of, positions, middle_key, wants_split, wished, wished_of_two, wished_order};

use crate::policy::bodies::Body0;
use sc_base::{Key, Pairs, RingArc, Value};
use sc_words::{Core, Order};

/// The most members of a group that is not to be split.
const MOST_MEMBERS: u8 = 7;

/// The fewest members of a group that is not to be merged.
const FEWEST_MEMBERS: u8 = 3;

/// The most pairs of a group whose boundary is not to be moved.
const MOST_PAIRS: usize = 128;

/// Returns what a policy wishes for a group with this record and these pairs, if anything.
///
/// A group with more than 7 members is to be split in the middle of its arc. Otherwise, if its
/// successor is another group: one with fewer than 3 members is to take over its successor, and of
/// one with more than 128 pairs the end is to move to the middle one of its keys. Neither the lock
/// nor whether the order would be accepted is tested. Allocates nothing. Scatter, SOSP 2011,
/// policies.
pub fn wish(core: &Core, keys: &Pairs) -> Option<Body0>
    ensures { result ≡ wished core.now keys.now }
{
    if wants_split(core) {
        let at = middle_of(&core.arc);
        return Some(Body0::Split { at });
    }
    if has_neighbour(core) {
        return wish_of_two(core, keys);
    }
    None
}

/// Returns the order that a policy makes for a group with this record and these pairs, if it makes
/// one.
pub fn wished_order(core: &Core, keys: &Pairs) -> Option<Order>
    ensures { result ≡ wished_order core.now keys.now }
{
    match wish(core, keys) {
        Some(body) => Some(body.order(core.id)),
        None => None,
    }
}

fn wants_split(core: &Core) -> bool
    ensures { result ≡ wants_split core.now }
{
    core.members.len() > MOST_MEMBERS && core.arc.len() > 1
}

fn has_neighbour(core: &Core) -> bool
    ensures { result ≡ has_neighbour core.now }
{
    !core.is_alone()
}

// Returns the position in the middle of the arc.
fn middle_of(arc: &RingArc) -> u32
    ensures { result ≡ middle_of arc.now }
{
    ((arc.lo() as u64 + arc.len() / 2) % (1 << 32)) as u32
}

// Returns the wish for a group that has a neighbour and is not split.
fn wish_of_two(core: &Core, keys: &Pairs) -> Option<Body0>
    ensures { result ≡ wished_of_two core.now keys.now }
{
    if core.members.len() < FEWEST_MEMBERS {
        return Some(Body0::Merge);
    }
    if keys.len() <= MOST_PAIRS {
        return None;
    }
    let lo = core.arc.lo();
    let at = middle_key(lo, keys.as_slice());
    if at == lo {
        return None;
    }
    Some(Body0::Repart { at })
}

// Returns the position of the middle key, of all keys from `lo` on round the ring.
fn middle_key(lo: u32, pairs: &[(Key, Value)]) -> u32
    ensures { result ≡ middle_key lo pairs.now }
{
    let middle = pairs.len() / 2;
    let above = count_above(lo, pairs);
    let found = if middle < above {
        nth_above(lo, pairs, middle)
    } else {
        nth_below(lo, pairs, middle - above)
    };
    found.unwrap_or(0)
}

// Returns how many keys lie at the position `lo` or above.
fn count_above(lo: u32, pairs: &[(Key, Value)]) -> usize
    ensures { result ≡ length (filter (λ p. nat_le lo p) (positions pairs.now)) }
{
    pairs
        .iter()
        .map(|pair| pair.0.pos())
        .filter(|p| lo <= *p)
        .count()
}

// Returns the position of the n-th key, counted from 0, of those at `lo` or above.
fn nth_above(lo: u32, pairs: &[(Key, Value)], n: usize) -> Option<u32>
    ensures { result ≡ slice_get (filter (λ p. nat_le lo p) (positions pairs.now)) n }
{
    pairs
        .iter()
        .map(|pair| pair.0.pos())
        .filter(|p| lo <= *p)
        .nth(n)
}

// Returns the position of the n-th key, counted from 0, of those below `lo`.
fn nth_below(lo: u32, pairs: &[(Key, Value)], n: usize) -> Option<u32>
    ensures { result ≡ slice_get (filter (λ p. nat_lt p lo) (positions pairs.now)) n }
{
    pairs
        .iter()
        .map(|pair| pair.0.pos())
        .filter(|p| *p < lo)
        .nth(n)
}
