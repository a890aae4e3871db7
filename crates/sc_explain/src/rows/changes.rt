//! What is said of groups after a row, and was not said before it.
ghost use Rattle.std.specs.Prelude.{◌≡◌, ◌++◌, ◌∷◌, [], true, IfOk, OnOk};
ghost use Rattle.std.specs.List.{list_any};
ghost use Rattle.sc_explain.specs.facts.Sameness.{same_record, same_ring_group};
ghost use Rattle.sc_explain.specs.rows.Explained.{changed};

use crate::facts::{GroupRecord, RingGroup, same_record, same_ring_group};
use crate::rows::places::place_near;
use sc_base::OutOfMemory;
use std::alloc::Global;

// Returns whether a record was said at this place before.
fn is_record_at(one: &GroupRecord, before: &[GroupRecord], at: usize) -> bool
    ensures { result ≡ true → list_any (same_record one.now) before.now ≡ true }
{
    match before.get(at) {
        None => false,
        Some(other) => same_record(one, other),
    }
}

// Returns whether a record was said before. It is looked for at its own place first.
fn was_recorded(one: &GroupRecord, before: &[GroupRecord], at: usize) -> bool
    ensures { result ≡ list_any (same_record one.now) before.now }
{
    if is_record_at(one, before, at) {
        return true;
    }
    before.iter().any(|other| same_record(one, other))
}

// Adds a record, unless it was said before.
fn add_record(
    new: &mut Vec<GroupRecord>,
    one: &GroupRecord,
    before: &[GroupRecord],
    at: usize,
) -> Result<(), OutOfMemory>
    ensures { OnOk result
        (new.new.items ≡ new.old.items ++ changed same_record before.now (one.now ∷ [])) }
{
    if was_recorded(one, before, at) {
        return Ok(());
    }
    new.push(*one)?;
    Ok(())
}

/// Returns the records that were not said before.
pub(crate) fn changed_records(
    alloc: Global,
    before: &[GroupRecord],
    after: &[GroupRecord],
) -> Result<Vec<GroupRecord>, OutOfMemory>
    ensures { IfOk result (λ new. new.items ≡ changed same_record before.now after.now) }
{
    let mut new = Vec::new(alloc);
    let mut at = 0usize;
    for one in after {
        add_record(&mut new, one, before, at)?;
        at = at.saturating_add(1);
    }
    Ok(new)
}

// Returns whether this of a group of the ring was said at this place before.
fn is_group_at(one: &RingGroup, before: &[RingGroup], at: usize) -> bool
    ensures { result ≡ true → list_any (same_ring_group one.now) before.now ≡ true }
{
    match before.get(at) {
        None => false,
        Some(other) => same_ring_group(one, other),
    }
}

// Returns whether this of a group of the ring was said before. It is looked for at a place first.
fn was_in_ring(one: &RingGroup, before: &[RingGroup], at: usize) -> bool
    ensures { result ≡ list_any (same_ring_group one.now) before.now }
{
    if is_group_at(one, before, at) {
        return true;
    }
    before.iter().any(|other| same_ring_group(one, other))
}

// Adds this of a group of the ring, unless it was said before.
fn add_group(
    new: &mut Vec<RingGroup>,
    one: &RingGroup,
    before: &[RingGroup],
    at: usize,
) -> Result<(), OutOfMemory>
    ensures { OnOk result
        (new.new.items ≡ new.old.items ++ changed same_ring_group before.now (one.now ∷ [])) }
{
    if was_in_ring(one, before, at) {
        return Ok(());
    }
    new.push(*one)?;
    Ok(())
}

// Adds this of a group of the ring, unless it was said before. The group is looked for at a place
// and at the next one. Returns the place that is looked at first for the next group.
fn add_near(
    new: &mut Vec<RingGroup>,
    one: &RingGroup,
    before: &[RingGroup],
    at: usize,
) -> Result<usize, OutOfMemory>
    ensures { OnOk result
        (new.new.items ≡ new.old.items ++ changed same_ring_group before.now (one.now ∷ [])) }
{
    match place_near(before, at, one.name) {
        None => {
            add_group(new, one, before, at)?;
            Ok(at)
        }
        Some(place) => {
            add_group(new, one, before, place)?;
            Ok(place.saturating_add(1))
        }
    }
}

/// Returns what is said of groups of the ring that was not said before.
pub(crate) fn changed_groups(
    alloc: Global,
    before: &[RingGroup],
    after: &[RingGroup],
) -> Result<Vec<RingGroup>, OutOfMemory>
    ensures { IfOk result (λ new. new.items ≡ changed same_ring_group before.now after.now) }
{
    let mut new = Vec::new(alloc);
    let mut at = 0usize;
    for one in after {
        let next = add_near(&mut new, one, before, at)?;
        at = next;
    }
    Ok(new)
}
