//! Whether the ranges of a ring cover it once.
ghost use Rattle.std.specs.Prelude.{◌≡◌, ◌↔◌, ◌<◌, ◌^◌, true, IsTrue, All};
ghost use Rattle.std.specs.List.{list_all};
ghost use Rattle.sc_base.specs.Arc.{IsArc};
ghost use Rattle.sc_meaning.specs.entries.Rings.{Covers};
ghost use Rattle.sc_world_checks.specs.Covering.{is_beside, is_other, are_others, is_followed};

use sc_base::{RingArc, same_draw};
use sc_meaning::Cut;

// Returns whether two arcs have no position in common: neither holds the first position of the
// other.
fn is_beside(arc: RingArc, other: RingArc) -> bool
    ensures { result ≡ is_beside arc other }
{
    !arc.holds(other.lo()) && !other.holds(arc.lo())
}

fn is_other(cut: &Cut, other: &Cut) -> bool
    ensures { result ≡ is_other cut.now other.now }
{
    !same_draw(cut.group, other.group) && is_beside(cut.arc, other.arc)
}

fn is_other_than(cut: &Cut, ring: &[Cut]) -> bool
    ensures { result ≡ list_all (is_other cut.now) ring.now }
{
    for other in ring {
        if !is_other(cut, other) {
            return false;
        }
    }
    true
}

// Returns whether each two ranges are of different groups and have no position in common.
fn are_others(ring: &[Cut]) -> bool
    ensures { result ≡ are_others ring.now }
{
    for i in 0..ring.len() {
        if !is_other_than(&ring[i], &ring[i + 1..]) {
            return false;
        }
    }
    true
}

// Returns whether some range holds the position after a range's last one.
fn is_followed(ring: &[Cut], cut: &Cut) -> bool
    ensures value { result ≡ is_followed ring.now cut.now }
    ensures arc { IsArc cut.now.arc × (cut.now.arc.lo < 2 ^ 32) }
{
    let end = ((cut.arc.lo() as u64 + cut.arc.len()) % (1 << 32)) as u32;
    for other in ring {
        if other.arc.holds(end) {
            return true;
        }
    }
    false
}

// Returns whether, after each range, some range holds the next position.
fn are_followed(ring: &[Cut]) -> bool
    ensures value { result ≡ list_all (is_followed ring.now) ring.now }
    ensures arcs { result ≡ true → All (λ cut. IsArc cut.arc × (cut.arc.lo < 2 ^ 32)) ring.now }
{
    for cut in ring {
        if !is_followed(ring, cut) {
            return false;
        }
    }
    true
}

/// Returns whether a ring covers: each position lies in the arc of exactly one range, and no group
/// has two ranges.
pub fn covers(ring: &[Cut]) -> bool
    ensures { IsTrue result ↔ Covers ring.now }
{
    if ring.is_empty() {
        return false;
    }
    if !are_others(ring) {
        return false;
    }
    are_followed(ring)
}
