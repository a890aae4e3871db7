//! Whether two lines would say the same of a group, and whether two rings are the same.
ghost use Rattle.std.specs.Prelude.{◌≡◌};
ghost use Rattle.sc_explain.specs.facts.Sameness.{same_arc, same_if_any, same_hold, same_record, same_ring_group, same_cut, same_ring};

use crate::facts::facts::{GroupRecord, Hold, RingGroup};
use sc_base::{Draw, RingArc, same_draw};
use sc_meaning::Cut;

fn same_arc(a: &RingArc, b: &RingArc) -> bool
    ensures { result ≡ same_arc a.now b.now }
{
    a.lo() == b.lo() && a.len() == b.len()
}

fn same_if_any(a: Option<Draw>, b: Option<Draw>) -> bool
    ensures { result ≡ same_if_any a b }
{
    match (a, b) {
        (None, None) => true,
        (Some(a), Some(b)) => same_draw(a, b),
        _ => false,
    }
}

fn same_hold(a: Hold, b: Hold) -> bool
    ensures { result ≡ same_hold a b }
{
    match (a, b) {
        (Hold::Free, Hold::Free) => true,
        (Hold::Coordinating(a), Hold::Coordinating(b)) => same_draw(a, b),
        (Hold::Promised(a), Hold::Promised(b)) => same_draw(a, b),
        (Hold::Watching(a), Hold::Watching(b)) => same_draw(a, b),
        _ => false,
    }
}

/// Returns whether two records of a group by its own log are the same.
pub fn same_record(a: &GroupRecord, b: &GroupRecord) -> bool
    ensures { result ≡ same_record a.now b.now }
{
    same_draw(a.name, b.name)
        && (same_arc(&a.arc, &b.arc)
            && (same_if_any(a.gone, b.gone)
                && (same_hold(a.lock, b.lock)
                    && (a.members == b.members
                        && (same_draw(a.pred, b.pred) && same_draw(a.succ, b.succ))))))
}

/// Returns whether what is said of two groups of the ring is the same.
pub fn same_ring_group(a: &RingGroup, b: &RingGroup) -> bool
    ensures { result ≡ same_ring_group a.now b.now }
{
    same_draw(a.name, b.name)
        && (same_arc(&a.arc, &b.arc)
            && (a.pairs == b.pairs && (same_draw(a.pred, b.pred) && same_draw(a.succ, b.succ))))
}

fn same_cut(a: &Cut, b: &Cut) -> bool
    ensures { result ≡ same_cut a.now b.now }
{
    same_draw(a.group, b.group) && same_arc(&a.arc, &b.arc)
}

/// Returns whether two rings have the same cuts in the same order.
pub fn same_ring(one: &[Cut], other: &[Cut]) -> bool
    ensures { result ≡ same_ring one.now other.now }
{
    if one.len() != other.len() {
        return false;
    }
    for i in 0..one.len() {
        if !same_cut(&one[i], &other[i]) {
            return false;
        }
    }
    true
}
