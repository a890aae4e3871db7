//! Where a group stands in what was said of the groups of the ring.
ghost use Rattle.std.specs.Prelude.{◌≡◌, ◌<◌, ◌+◌, true, false, Some, get_or, length, IfSome};
ghost use Rattle.sc_base.specs.Definitions.{same_draw};
ghost use Rattle.sc_explain.specs.declared.facts.facts.RingGroup.{RingGroup};

use crate::facts::RingGroup;
use sc_base::{Draw, same_draw};

fn is_at(groups: &[RingGroup], at: usize, name: Draw) -> bool
    ensures here { result ≡ true → (at < length groups.now) ×
        ((said : RingGroup) → same_draw (get_or groups.now at said).name name ≡ true) }
    ensures found { (said : RingGroup) → at < length groups.now →
        same_draw (get_or groups.now at said).name name ≡ true → result ≡ true }
{
    if at < groups.len() {
        return same_draw(groups[at].name, name);
    }
    false
}

/// Returns the place of the group with a name, if it is this place or the next one.
pub(crate) fn place_near(groups: &[RingGroup], at: usize, name: Draw) -> Option<usize>
    ensures near { IfSome result (λ place. (place < length groups.now) ×
        ((said : RingGroup) → same_draw (get_or groups.now place said).name name ≡ true)) }
    ensures first { (said : RingGroup) → at < length groups.now →
        same_draw (get_or groups.now at said).name name ≡ true → result ≡ Some at }
    ensures second { (said : RingGroup) → at + 1 < length groups.now →
        same_draw (get_or groups.now at said).name name ≡ false →
        same_draw (get_or groups.now (at + 1) said).name name ≡ true → result ≡ Some (at + 1) }
{
    if is_at(groups, at, name) {
        return Some(at);
    }
    let next = at.saturating_add(1);
    if is_at(groups, next, name) {
        return Some(next);
    }
    None
}
