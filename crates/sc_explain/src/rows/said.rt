//! What was said last of a world, and the lines of a row.
ghost use Rattle.std.specs.Prelude.{◌≡◌, ◌++◌, List, drop, IfOk, OnOk};
ghost use Rattle.sc_meaning.specs.declared.entries.LogEntry.{LogEntry};
ghost use Rattle.sc_meaning.specs.entries.Worlds.{StoreWorld};
ghost use Rattle.sc_explain.specs.facts.Sameness.{same_record, same_ring_group};
ghost use Rattle.sc_explain.specs.rows.Explained.{changed, entry_lines, no_world, ring_groups_in, row_lines};
ghost use Rattle.sc_explain.specs.rows.Said.{IsSaidOf};

use crate::facts::{GroupRecord, RingGroup};
use crate::rows::adding::{
    add_all, add_births, add_history, add_records, add_ring, add_ring_groups,
};
use crate::rows::changes::{changed_groups, changed_records};
use crate::rows::groups::records_in;
use sc_base::OutOfMemory;
use sc_meaning::Cut;
use sc_scenario::ReportLine;
use sc_world_groups::StoreWorld;
use std::alloc::Global;

/// What was said last of a world.
#[derive(Drop)]
pub(crate) struct Said {
    /// The number of groups that were created.
    pub births: usize,
    /// The number of entries of the history.
    pub history: usize,
    /// What was said of each group, by its own log.
    pub records: Vec<GroupRecord>,
    /// What was said of each group of the ring, by its effective record.
    pub groups: Vec<RingGroup>,
    /// The ring.
    pub ring: Vec<Cut>,
}

/// Returns what was said before the beginning: nothing.
pub(crate) fn nothing(alloc: Global) -> Said
    ensures { IsSaidOf no_world result }
{
    Said {
        births: 0,
        history: 0,
        records: Vec::new(alloc),
        groups: Vec::new(alloc),
        ring: Vec::new(alloc),
    }
}

/// Returns what is said of a world, with this of the groups of its ring.
pub(crate) fn said_of(
    alloc: Global,
    world: &StoreWorld,
    groups: Vec<RingGroup>,
) -> Result<Said, OutOfMemory>
    ensures { IfOk result
        (λ said. groups.items ≡ ring_groups_in world.now → IsSaidOf world.now said) }
{
    let born = world.groups();
    let recorded = world.history();
    let records = records_in(alloc, world)?;
    let cuts = world.ring();
    let ring = Vec::from_slice(alloc, cuts)?;
    Ok(Said {
        births: born.len(),
        history: recorded.len(),
        records,
        groups,
        ring,
    })
}

// Returns the items behind the first `count`, or none where there are fewer.
fn behind<T>(items: &[T], count: usize) -> &[T]
    ensures { result.now ≡ drop count items.now }
{
    if count <= items.len() {
        &items[count..]
    } else {
        &[]
    }
}

// Returns the records that were not said before.
fn new_records(alloc: Global, before: &Said, after: &Said) -> Result<Vec<GroupRecord>, OutOfMemory>
    ensures { IfOk result (λ new.
        new.items ≡ changed same_record before.now.records.items after.now.records.items) }
{
    changed_records(alloc, before.records.as_slice(), after.records.as_slice())
}

// Returns what is said of groups of the ring that was not said before.
fn new_groups(alloc: Global, before: &Said, after: &Said) -> Result<Vec<RingGroup>, OutOfMemory>
    ensures { IfOk result (λ new.
        new.items ≡ changed same_ring_group before.now.groups.items after.now.groups.items) }
{
    changed_groups(alloc, before.groups.as_slice(), after.groups.as_slice())
}

/// Adds the lines of a row, by what was said before it, the lines of its entries, the world after
/// it, and what is said of that world.
pub(crate) fn add_row(
    alloc: Global,
    lines: &mut Vec<ReportLine>,
    row: u64,
    before: &Said,
    entries: Vec<ReportLine>,
    world: &StoreWorld,
    after: &Said,
) -> Result<(), OutOfMemory>
    ensures { OnOk result ((was : StoreWorld) (decided : List LogEntry) → IsSaidOf was before.now →
        IsSaidOf world.now after.now → entries.items ≡ entry_lines row was decided →
        lines.new.items ≡ lines.old.items ++ row_lines row was decided world.now) }
{
    let born = world.groups();
    let births = behind(born, before.births);
    add_births(alloc, lines, row, births)?;
    add_all(lines, entries)?;
    let recorded = world.history();
    let history = behind(recorded, before.history);
    add_history(alloc, lines, row, history)?;
    let records = new_records(alloc, before, after)?;
    let said_records = records.as_slice();
    add_records(alloc, lines, row, said_records)?;
    let groups = new_groups(alloc, before, after)?;
    let said_groups = groups.as_slice();
    add_ring_groups(alloc, lines, row, said_groups)?;
    let ring_before = before.ring.as_slice();
    let ring_after = world.ring();
    add_ring(alloc, lines, row, ring_before, ring_after)
}
