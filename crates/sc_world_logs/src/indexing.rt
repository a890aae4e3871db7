//! Acceptances by their slots.
ghost use Rattle.std.specs.Prelude.{◌≡◌, ◌++◌, ◌∷◌, [], ℕ, List, IfOk, IsOk, OnOk};
ghost use Rattle.std.specs.Ordering.{nat_cmp};
ghost use Rattle.std.specs.BTreeMap.{get_by};
ghost use Rattle.sc_world_logs.specs.declared.accepting.Acceptance.{Acceptance};
ghost use Rattle.sc_world_logs.specs.Indexes.{listed_in, IsIndexed};

use crate::accepting::Acceptance;
use sc_base::OutOfMemory;
use std::alloc::Global;
use std::collections::BTreeMap;

/// The acceptances of each slot, in the order in which they were found.
pub type BySlot = BTreeMap<u32, Vec<Acceptance>>;

/// Adds an acceptance behind the others of its slot.
pub(crate) fn add(
    alloc: Global,
    index: &mut BySlot,
    acceptance: Acceptance,
) -> Result<(), OutOfMemory>
    ensures { OnOk result ((found : List Acceptance) →
        IsIndexed (λ slot. listed_in (λ kept. kept.items) (get_by (nat_cmp slot) index.old)) found →
        IsIndexed (λ slot. listed_in (λ kept. kept.items) (get_by (nat_cmp slot) index.new))
        (found ++ acceptance ∷ [])) }
{
    let slot = acceptance.slot;
    let mut kept = match index.remove(&slot) {
        Some(kept) => kept,
        None => Vec::new(alloc),
    };
    kept.push(acceptance)?;
    let _old = index.insert(slot, kept)?;
    Ok(())
}

/// Returns the acceptances by their slots.
pub(crate) fn by_slot(alloc: Global, found: Vec<Acceptance>) -> Result<BySlot, OutOfMemory>
    ensures index { IfOk result (λ index.
        IsIndexed (λ slot. listed_in (λ kept. kept.items) (get_by (nat_cmp slot) index))
        found.items) }
    ensures none { found.items ≡ [] → IsOk result }
{
    let mut index = BTreeMap::new(alloc);
    for acceptance in found {
        add(alloc, &mut index, acceptance)?;
    }
    Ok(index)
}

/// Returns the acceptances of a slot; none where the slot has none.
pub(crate) fn at_slot(index: &BySlot, slot: u32) -> &[Acceptance]
    ensures { result.now ≡ listed_in (λ kept. kept.items) (get_by (nat_cmp slot) index.now) }
{
    match index.get(&slot) {
        Some(kept) => kept.as_slice(),
        None => &[],
    }
}
