//! What is said of the groups of the ring, brought up to one entry more: what was said before is
//! kept, of each group that the entry leaves as it was.
ghost use Rattle.std.specs.Prelude.{◌≡◌, ◌++◌, ◌∷◌, [], false, true, cond, List, Some, IfOk, IfSome, OnOk};
ghost use Rattle.std.specs.List.{list_any};
ghost use Rattle.std.specs.Option.{option_map, option_to_list};
ghost use Rattle.sc_base.specs.Definitions.{same_draw};
ghost use Rattle.sc_group_table.specs.machine.MachineDefinitions.{Group};
ghost use Rattle.sc_meaning.specs.declared.entries.LogEntry.{LogEntry};
ghost use Rattle.sc_meaning.specs.entries.EntryDefinitions.{StoreWorld, effective, recorded};
ghost use Rattle.sc_world_groups.specs.Effects.{effect_in};
ghost use Rattle.sc_explain.specs.facts.Facts.{ring_group_of};
ghost use Rattle.sc_explain.specs.rows.Explained.{ring_groups_in};
ghost use Rattle.sc_explain.specs.rows.Said.{AreByLog, bound_names, is_bound};

use crate::facts::RingGroup;
use crate::rows::counts::recount;
use crate::rows::groups::{add_group, is_by_log, ring_group_in};
use crate::rows::places::place_near;
use sc_base::{Draw, OutOfMemory, same_draw};
use sc_group::Machine;
use sc_meaning::LogEntry;
use sc_words::{Command, Effect};
use sc_world_groups::StoreWorld;
use std::alloc::Global;

// Adds the name of a group, if another group may have decided something of it.
fn add_bound(bound: &mut Vec<Draw>, group: &Machine) -> Result<(), OutOfMemory>
    ensures kept { OnOk result ((groups : List Group) → AreByLog groups bound.old.items →
        AreByLog (groups ++ group.now ∷ []) bound.new.items) }
    ensures exact { OnOk result
        (bound.new.items ≡ cond (is_bound group.now.core.lock)
        (bound.old.items ++ group.now.core.id ∷ []) bound.old.items) }
{
    let core = group.core();
    if is_by_log(&core.lock) {
        return Ok(());
    }
    bound.push(core.id)?;
    Ok(())
}

// Returns the names of the groups of which another group may have decided something.
fn bound_in(alloc: Global, world: &StoreWorld) -> Result<Vec<Draw>, OutOfMemory>
    ensures kept { IfOk result (λ bound. AreByLog world.now.groups bound.items) }
    ensures exact { IfOk result (λ bound. bound.items ≡ bound_names world.now.groups) }
{
    let mut bound = Vec::new(alloc);
    let groups = world.groups();
    for group in groups {
        add_bound(&mut bound, group)?;
    }
    Ok(bound)
}

fn has_name(names: &[Draw], name: Draw) -> bool
    ensures { result ≡ list_any (same_draw name) names.now }
{
    names.iter().any(|other| same_draw(name, *other))
}

// Returns whether a group is neither the one that an entry changed nor one of which another group
// may have decided something.
fn stays(name: Draw, changed: Draw, bound: &[Draw]) -> bool
    ensures kept { result ≡ true →
        (same_draw name changed ≡ false) × (list_any (same_draw name) bound.now ≡ false) }
    ensures all { same_draw name changed ≡ false → list_any (same_draw name) bound.now ≡ false →
        result ≡ true }
{
    if same_draw(name, changed) {
        return false;
    }
    !has_name(bound, name)
}

fn add_anew(after: &mut Vec<RingGroup>, world: &StoreWorld, name: Draw) -> Result<(), OutOfMemory>
    ensures { OnOk result (after.new.items ≡ after.old.items
        ++ option_to_list (option_map (ring_group_of name) (effective world.now name))) }
{
    let group = ring_group_in(world, name)?;
    add_group(after, group)
}

// Adds what is said of the group with a name after an entry of a group, where this was said before
// it. Returns the place in what was said that is looked at first for the next group.
fn add_said(
    after: &mut Vec<RingGroup>,
    world: &StoreWorld,
    groups: &[RingGroup],
    at: usize,
    changed: Draw,
    bound: &[Draw],
    name: Draw,
) -> Result<usize, OutOfMemory>
    ensures { OnOk result ((before : StoreWorld) (entry : LogEntry) →
        world.now ≡ recorded before entry → changed ≡ entry.group →
        AreByLog world.now.groups bound.now → groups.now ≡ ring_groups_in before →
        after.new.items ≡ after.old.items
        ++ option_to_list (option_map (ring_group_of name) (effective world.now name))) }
{
    match place_near(groups, at, name) {
        None => {
            add_anew(after, world, name)?;
            Ok(at)
        }
        Some(place) => {
            let next = place.saturating_add(1);
            if stays(name, changed, bound) {
                after.push(groups[place])?;
                return Ok(next);
            }
            add_anew(after, world, name)?;
            Ok(next)
        }
    }
}

// Returns what is said of each group of the ring after an entry of the group with a name, where
// this was said before it, and another group may have decided something of these alone.
fn ring_groups_after(
    alloc: Global,
    world: &StoreWorld,
    groups: &[RingGroup],
    changed: Draw,
    bound: &[Draw],
) -> Result<Vec<RingGroup>, OutOfMemory>
    ensures { IfOk result (λ after. (before : StoreWorld) (entry : LogEntry) →
        world.now ≡ recorded before entry → changed ≡ entry.group →
        AreByLog world.now.groups bound.now → groups.now ≡ ring_groups_in before →
        after.items ≡ ring_groups_in world.now) }
{
    let ring = world.ring();
    let mut after = Vec::with_capacity(alloc, ring.len())?;
    let mut at = 0usize;
    for cut in ring {
        let next = add_said(&mut after, world, groups, at, changed, bound, cut.group)?;
        at = next;
    }
    Ok(after)
}

// Brings what is said of the groups of the ring up to an entry that the world has just taken.
fn follow_entry(
    alloc: Global,
    world: &StoreWorld,
    groups: &[RingGroup],
    entry: &LogEntry,
) -> Result<Vec<RingGroup>, OutOfMemory>
    ensures { IfOk result (λ after. (before : StoreWorld) → world.now ≡ recorded before entry.now →
        groups.now ≡ ring_groups_in before → after.items ≡ ring_groups_in world.now) }
{
    let bound = bound_in(alloc, world)?;
    ring_groups_after(alloc, world, groups, entry.group, bound.as_slice())
}

/// Brings what is said of the groups of the ring up to an entry that the world has just taken, with
/// this effect.
pub(crate) fn follow(
    alloc: Global,
    world: &StoreWorld,
    groups: Vec<RingGroup>,
    entry: &LogEntry,
    effect: &Option<Effect>,
) -> Result<Vec<RingGroup>, OutOfMemory>
    ensures { IfOk result (λ after. (before : StoreWorld) → world.now ≡ recorded before entry.now →
        effect.now ≡ effect_in before entry.now → groups.items ≡ ring_groups_in before →
        after.items ≡ ring_groups_in world.now) }
{
    match &entry.command {
        Command::Call { op, .. } => match effect {
            None => Ok(groups),
            Some(done) => match done {
                Effect::Done(reply) => {
                    let before = groups.as_slice();
                    recount(alloc, before, entry.group, op, reply)
                }
                _ => Ok(groups),
            },
        },
        _ => follow_entry(alloc, world, groups.as_slice(), entry),
    }
}
