//! What is said of the groups of a world, all of them by their own logs, and those of the ring by
//! their effective records.
ghost use Rattle.std.specs.Prelude.{◌≡◌, ◌++◌, true, not, IfOk, OnOk};
ghost use Rattle.std.specs.Option.{option_map, option_to_list};
ghost use Rattle.sc_explain.specs.facts.Facts.{ring_group_of};
ghost use Rattle.sc_meaning.specs.entries.Effective.{effective};
ghost use Rattle.sc_group_table.specs.machine.Group.{Group, base_of};
ghost use Rattle.sc_explain.specs.rows.Explained.{records_in, ring_groups_in};
ghost use Rattle.sc_explain.specs.rows.Said.{IsByLog, is_bound};

use crate::facts::{GroupRecord, RingGroup, record_of};
use sc_base::{Draw, OutOfMemory};
use sc_group::Machine;
use sc_words::{Base, Lock};
use sc_world_groups::StoreWorld;
use std::alloc::Global;

/// Returns what is said of each group that was created, by its own log.
pub(crate) fn records_in(alloc: Global, world: &StoreWorld) -> Result<Vec<GroupRecord>, OutOfMemory>
    ensures { IfOk result (λ records. records.items ≡ records_in world.now) }
{
    let groups = world.groups();
    let mut records = Vec::with_capacity(alloc, groups.len())?;
    for group in groups {
        records.push(record_of(group.core()))?;
    }
    Ok(records)
}

// Returns what is said of a group by its effective record.
fn said_by(name: Draw, base: &Base) -> RingGroup
    ensures { (group : Group) → base.now ≡ base_of group → result ≡ ring_group_of name group }
{
    RingGroup {
        arc: base.core.arc,
        name,
        pairs: base.pairs.len() as u64,
        pred: base.core.pred.group,
        succ: base.core.succ.group,
    }
}

// Returns what is said of a group whose effective record is what its own log makes of it.
fn said_by_log(name: Draw, group: &Machine) -> Result<RingGroup, OutOfMemory>
    ensures { IfOk result (λ said. said ≡ ring_group_of name group.now) }
{
    let core = group.core();
    let pairs = group.pairs()?;
    Ok(RingGroup {
        arc: core.arc,
        name,
        pairs: pairs.len() as u64,
        pred: core.pred.group,
        succ: core.succ.group,
    })
}

/// Returns whether the effective record of a group with this lock is what its own log makes of it.
pub(crate) fn is_by_log(lock: &Lock) -> bool
    ensures kept { result ≡ true → IsByLog lock.now }
    ensures exact { result ≡ not (is_bound lock.now) }
{
    match lock {
        Lock::Free | Lock::Coordinating { .. } => true,
        Lock::Promised { .. } | Lock::Watching { .. } => false,
    }
}

// Returns what is said of the group with a name by its effective record, if it was created, from a
// copy of the record.
fn ring_group_by_record(world: &StoreWorld, name: Draw) -> Result<Option<RingGroup>, OutOfMemory>
    ensures { IfOk result (λ group. group ≡
        option_map (ring_group_of name) (effective world.now name)) }
{
    let found = world.effective(name)?;
    match found {
        None => Ok(None),
        Some(base) => Ok(Some(said_by(name, &base))),
    }
}

/// Returns what is said of the group with a name by its effective record, if it was created. The
/// record is copied only where another group may have decided something of it.
pub(crate) fn ring_group_in(
    world: &StoreWorld,
    name: Draw,
) -> Result<Option<RingGroup>, OutOfMemory>
    ensures { IfOk result (λ group. group ≡
        option_map (ring_group_of name) (effective world.now name)) }
{
    match world.group(name) {
        None => Ok(None),
        Some(group) => {
            let core = group.core();
            if is_by_log(&core.lock) {
                let said = said_by_log(name, group)?;
                return Ok(Some(said));
            }
            let found = ring_group_by_record(world, name)?;
            Ok(found)
        }
    }
}

/// Adds what is said of a group, if something is.
pub(crate) fn add_group(
    groups: &mut Vec<RingGroup>,
    group: Option<RingGroup>,
) -> Result<(), OutOfMemory>
    ensures { OnOk result (groups.new.items ≡ groups.old.items ++ option_to_list group) }
{
    match group {
        None => Ok(()),
        Some(group) => {
            groups.push(group)?;
            Ok(())
        }
    }
}

/// Returns what is said of each group of the ring.
pub(crate) fn ring_groups_in(
    alloc: Global,
    world: &StoreWorld,
) -> Result<Vec<RingGroup>, OutOfMemory>
    ensures { IfOk result (λ groups. groups.items ≡ ring_groups_in world.now) }
{
    let mut groups = Vec::new(alloc);
    let ring = world.ring();
    for cut in ring {
        let group = ring_group_in(world, cut.group)?;
        add_group(&mut groups, group)?;
    }
    Ok(groups)
}
