//! Adds the lines of each kind of fact to the lines so far.
ghost use Rattle.std.specs.Prelude.{◌≡◌, ◌++◌, ◌∷◌, [], map, OnOk};
ghost use Rattle.sc_explain.specs.facts.Facts.{history_line, record_line, ring_group_line};
ghost use Rattle.sc_explain.specs.rows.Explained.{birth_of_group, ring_lines};

use crate::facts::{
    GroupRecord, RingGroup, birth_line, history_line, record_line, ring_group_line, ring_line,
    same_ring,
};
use sc_base::OutOfMemory;
use sc_group::Machine;
use sc_meaning::Cut;
use sc_scenario::ReportLine;
use sc_words::Entry;
use std::alloc::Global;

/// Adds a line.
pub(crate) fn add_line(lines: &mut Vec<ReportLine>, line: ReportLine) -> Result<(), OutOfMemory>
    ensures { OnOk result (lines.new.items ≡ lines.old.items ++ line ∷ []) }
{
    lines.push(line)?;
    Ok(())
}

/// Adds some lines.
pub(crate) fn add_all(
    lines: &mut Vec<ReportLine>,
    mut more: Vec<ReportLine>,
) -> Result<(), OutOfMemory>
    ensures { OnOk result (lines.new.items ≡ lines.old.items ++ more.items) }
{
    lines.append(&mut more)?;
    Ok(())
}

/// Adds the lines of the creation of these groups.
pub(crate) fn add_births(
    alloc: Global,
    lines: &mut Vec<ReportLine>,
    row: u64,
    groups: &[Machine],
) -> Result<(), OutOfMemory>
    ensures { OnOk result
        (lines.new.items ≡ lines.old.items ++ map (birth_of_group row) groups.now) }
{
    for group in groups {
        let core = group.core();
        let line = birth_line(alloc, row, core.id, &core.members)?;
        add_line(lines, line)?;
    }
    Ok(())
}

/// Adds the lines of these entries of the history.
pub(crate) fn add_history(
    alloc: Global,
    lines: &mut Vec<ReportLine>,
    row: u64,
    history: &[Entry],
) -> Result<(), OutOfMemory>
    ensures { OnOk result
        (lines.new.items ≡ lines.old.items ++ map (history_line row) history.now) }
{
    for entry in history {
        let line = history_line(alloc, row, entry)?;
        add_line(lines, line)?;
    }
    Ok(())
}

/// Adds the lines of these records.
pub(crate) fn add_records(
    alloc: Global,
    lines: &mut Vec<ReportLine>,
    row: u64,
    records: &[GroupRecord],
) -> Result<(), OutOfMemory>
    ensures { OnOk result
        (lines.new.items ≡ lines.old.items ++ map (record_line row) records.now) }
{
    for one in records {
        let line = record_line(alloc, row, one)?;
        add_line(lines, line)?;
    }
    Ok(())
}

/// Adds the lines of these groups of the ring.
pub(crate) fn add_ring_groups(
    alloc: Global,
    lines: &mut Vec<ReportLine>,
    row: u64,
    groups: &[RingGroup],
) -> Result<(), OutOfMemory>
    ensures { OnOk result
        (lines.new.items ≡ lines.old.items ++ map (ring_group_line row) groups.now) }
{
    for group in groups {
        let line = ring_group_line(alloc, row, group)?;
        add_line(lines, line)?;
    }
    Ok(())
}

/// Adds the line of the ring, where the ring is another than before.
pub(crate) fn add_ring(
    alloc: Global,
    lines: &mut Vec<ReportLine>,
    row: u64,
    before: &[Cut],
    after: &[Cut],
) -> Result<(), OutOfMemory>
    ensures { OnOk result
        (lines.new.items ≡ lines.old.items ++ ring_lines row before.now after.now) }
{
    if same_ring(before, after) {
        return Ok(());
    }
    let line = ring_line(alloc, row, after)?;
    add_line(lines, line)
}
