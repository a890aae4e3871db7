//! The groups, each as its own log makes it.
ghost use Rattle.std.specs.Prelude.{◌≡◌, ◌<◌, ◌++◌, [], List, length, map, set, slice_get, if◌then◌else◌, Some, None, MatchOption, IfOk, IsOk, OnOk};
ghost use Rattle.std.specs.Option.{option_to_list};
ghost use Rattle.sc_group_table.specs.machine.Group.{Group, group_of};
ghost use Rattle.sc_group_table.specs.machine.Machine.{applied};
ghost use Rattle.sc_meaning.specs.entries.Births.{birth_of};
ghost use Rattle.sc_meaning.specs.entries.Worlds.{is_named, named_group, with_group, groups_after};
ghost use Rattle.sc_world_groups.specs.Places.{IsFirstNamed};

use sc_base::{Draw, Dup, OutOfMemory, same_draw};
use sc_group::Machine;
use sc_meaning::births_are_children;
use sc_words::{Base, Command, Core, Effect};
use std::alloc::Global;

/// Returns the groups that start with these records.
pub(crate) fn born(alloc: Global, bases: &[Base]) -> Result<Vec<Machine>, OutOfMemory>
    ensures groups { IfOk result (λ groups. groups.items ≡ map group_of bases.now) }
    ensures none { bases.now ≡ [] → IsOk result }
{
    let mut groups = Vec::new(alloc);
    for base in bases {
        groups.push(Machine::born(alloc, base.dup(alloc)?)?)?;
    }
    Ok(groups)
}

pub(crate) fn is_named(group: &Machine, name: Draw) -> bool
    ensures { result ≡ is_named name group.now }
{
    same_draw(group.core().id, name)
}

/// Returns the place of the first group with a name, if there is one.
pub(crate) fn place_of(groups: &[Machine], name: Draw) -> Option<usize>
    ensures { MatchOption result (named_group name groups.now ≡ None)
        (λ at. IsFirstNamed name groups.now at) }
{
    let mut at = 0usize;
    for group in groups {
        if is_named(group, name) {
            return Some(at);
        }
        at += 1;
    }
    None
}

pub(crate) fn again(alloc: Global, group: &Machine) -> Result<Machine, OutOfMemory>
    ensures { IfOk result (λ copy. copy ≡ group.now) }
{
    Machine::born(alloc, group.base()?)
}

// Replaces the group at `i` by a copy of the group at `at`.
fn copy(alloc: Global, groups: &mut Vec<Machine>, at: usize, i: usize) -> Result<(), OutOfMemory>
    requires at { at < length groups.old.items }
    requires i { i < length groups.old.items }
    ensures long { OnOk result (length groups.new.items ≡ length groups.old.items) }
    ensures value { OnOk result ((after : Group) → slice_get groups.old.items at ≡ Some after →
        groups.new.items ≡ set groups.old.items i after) }
{
    let copy = again(alloc, &groups[at])?;
    groups[i] = copy;
    Ok(())
}

// Replaces the group at `i` by a copy of the group at `at`, if it has this name.
fn copy_at(
    alloc: Global,
    groups: &mut Vec<Machine>,
    at: usize,
    i: usize,
    name: Draw,
) -> Result<(), OutOfMemory>
    requires at { at < length groups.old.items }
    requires i { i < length groups.old.items }
    ensures long { OnOk result (length groups.new.items ≡ length groups.old.items) }
    ensures value { OnOk result ((after group : Group) → slice_get groups.old.items at ≡ Some after →
        slice_get groups.old.items i ≡ Some group →
        groups.new.items ≡ set groups.old.items i (if is_named name group then after else group)) }
{
    if i == at {
        return Ok(());
    }
    if is_named(&groups[i], name) {
        copy(alloc, groups, at, i)?;
        return Ok(());
    }
    Ok(())
}

// Replaces each group with this name by a copy of the group at `at`.
fn copy_over(
    alloc: Global,
    groups: &mut Vec<Machine>,
    at: usize,
    name: Draw,
) -> Result<(), OutOfMemory>
    requires { at < length groups.old.items }
    ensures { OnOk result ((after : Group) → slice_get groups.old.items at ≡ Some after →
        groups.new.items ≡ with_group name after groups.old.items) }
{
    for i in 0..groups.len() {
        copy_at(alloc, groups, at, i, name)?;
    }
    Ok(())
}

// Adds a child, if there is one, behind the groups.
fn add_child(
    alloc: Global,
    groups: &mut Vec<Machine>,
    child: Option<Base>,
) -> Result<(), OutOfMemory>
    ensures { OnOk result (groups.new.items ≡
        groups.old.items ++ map group_of (option_to_list child)) }
{
    match child {
        Some(base) => {
            groups.push(Machine::born(alloc, base)?)?;
            Ok(())
        }
        None => Ok(()),
    }
}

// Returns the record of the group at a place, and the child that a command creates there, if it
// creates one.
fn look(
    alloc: Global,
    groups: &[Machine],
    at: usize,
    command: &Command,
) -> Result<(Core, Option<Base>), OutOfMemory>
    requires { at < length groups.now }
    ensures { IfOk result (λ seen. (group : Group) → slice_get groups.now at ≡ Some group →
        (seen.0 ≡ group.core) × (seen.1 ≡ birth_of group command.now (applied group command.now).1)) }
{
    births_are_children();
    let group = &groups[at];
    let core = group.core().dup(alloc)?;
    let child = group.child_by(command)?;
    Ok((core, child))
}

fn apply_at(groups: &mut Vec<Machine>, at: usize, command: &Command) -> Result<Effect, OutOfMemory>
    requires { at < length groups.old.items }
    ensures long { OnOk result (length groups.new.items ≡ length groups.old.items) }
    ensures value { IfOk result (λ effect. (group : Group) → slice_get groups.old.items at ≡ Some group →
        (effect ≡ (applied group command.now).1) ×
        (groups.new.items ≡ set groups.old.items at (applied group command.now).0)) }
{
    let effect = groups[at].apply(command)?;
    Ok(effect)
}

/// Executes a command at the group at a place, and adds the child that it creates, if it creates
/// one. Returns the group's record before the command, and the effect.
pub(crate) fn execute(
    alloc: Global,
    groups: &mut Vec<Machine>,
    at: usize,
    command: &Command,
) -> Result<(Core, Effect), OutOfMemory>
    requires { at < length groups.old.items }
    ensures { IfOk result (λ done. (group : Group) → slice_get groups.old.items at ≡ Some group →
        (done.0 ≡ group.core) × (done.1 ≡ (applied group command.now).1) ×
        (groups.new.items ≡ groups_after group (applied group command.now).0
        (birth_of group command.now (applied group command.now).1) groups.old.items)) }
{
    let seen = look(alloc, groups.as_slice(), at, command)?;
    let effect = apply_at(groups, at, command)?;
    let (core, child) = seen;
    copy_over(alloc, groups, at, core.id)?;
    add_child(alloc, groups, child)?;
    Ok((core, effect))
}
