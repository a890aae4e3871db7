//! What each row decided, from the first row to the last.
ghost use Rattle.std.specs.Prelude.{◌≡◌, ◌++◌, List, [], IfOk, MatchResult};
ghost use Rattle.std.specs.List.{flat_map};
ghost use Rattle.sc_meaning.specs.declared.entries.LogEntry.{LogEntry};
ghost use Rattle.sc_meaning.specs.entries.Worlds.{CoverThroughout, StoreWorld, first_world, world_after};
ghost use Rattle.sc_meaning.specs.sound.GroupsOf.{entries_at};
ghost use Rattle.sc_meaning.specs.sound.Players.{as_nodes};
ghost use Rattle.sc_world_groups.specs.declared.errors.EntryError.TheVariants.{NoArc};
ghost use Rattle.sc_explain.specs.rows.Explained.{entry_lines, explained, no_world, ring_groups_in, row_lines};
ghost use Rattle.sc_explain.specs.rows.Said.{HaveArcsThroughout, IsSaidOf, lines_by};

use crate::facts::RingGroup;
use crate::rows::groups::ring_groups_in;
use crate::rows::said::{Said, add_row, nothing, said_of};
use crate::rows::taking::{Taken, take_all};
use sc_actor::Row;
use sc_base::{OutOfMemory, Sequence};
use sc_mail::Mail;
use sc_scenario::ReportLine;
use sc_words::{Base, OrderLine};
use sc_world_entries::{DecidingRow, deciding_rows};
use sc_world_groups::{EntryError, StoreWorld};
use std::alloc::Global;

fn copy_of(alloc: Global, groups: &[RingGroup]) -> Result<Vec<RingGroup>, OutOfMemory>
    ensures { IfOk result (λ copy. copy.items ≡ groups.now) }
{
    Ok(Vec::from_slice(alloc, groups)?)
}

// Adds the lines of a row whose entries the world has taken. Returns what is said of the world.
fn say(
    alloc: Global,
    lines: &mut Vec<ReportLine>,
    row: u64,
    before: &Said,
    entries: Vec<ReportLine>,
    world: &StoreWorld,
    groups: Vec<RingGroup>,
) -> Result<Said, OutOfMemory>
    ensures { IfOk result (λ after. groups.items ≡ ring_groups_in world.now →
        IsSaidOf world.now after × ((was : StoreWorld) (decided : List LogEntry) →
        IsSaidOf was before.now → entries.items ≡ entry_lines row was decided →
        lines.new.items ≡ lines.old.items ++ row_lines row was decided world.now)) }
{
    let after = said_of(alloc, world, groups)?;
    add_row(alloc, lines, row, before, entries, world, &after)?;
    Ok(after)
}

// Adds the lines of a row, of whose entries these are the lines. Returns what is said of the world.
fn say_taken(
    alloc: Global,
    lines: &mut Vec<ReportLine>,
    row: u64,
    before: &Said,
    taken: Taken,
    world: &StoreWorld,
) -> Result<Said, EntryError>
    ensures { MatchResult result (λ after. taken.groups.items ≡ ring_groups_in world.now →
        IsSaidOf world.now after × ((was : StoreWorld) (decided : List LogEntry) →
        IsSaidOf was before.now → taken.lines.items ≡ entry_lines row was decided →
        lines.new.items ≡ lines.old.items ++ row_lines row was decided world.now))
        (λ error. error ≡ NoArc → ⊥) }
{
    let Taken {
        lines: of_entries,
        groups,
    } = taken;
    let after = say(alloc, lines, row, before, of_entries, world, groups)?;
    Ok(after)
}

// Takes the entries of a row, and adds the lines of the row. Returns what is said of the world
// then.
fn explain_row(
    alloc: Global,
    lines: &mut Vec<ReportLine>,
    world: &mut StoreWorld,
    before: &Said,
    deciding: &DecidingRow,
) -> Result<Said, EntryError>
    ensures { MatchResult result (λ after. IsSaidOf world.old before.now →
        IsSaidOf world.new after ×
        (world.new ≡ world_after world.old deciding.now.entries) ×
        (lines.new.items ≡ lines.old.items ++
        row_lines deciding.now.row world.old deciding.now.entries world.new))
        (λ error. error ≡ NoArc → HaveArcsThroughout world.old deciding.now.entries → ⊥) }
{
    let entries = deciding.entries.as_slice();
    let copy = copy_of(alloc, before.groups.as_slice())?;
    match take_all(alloc, deciding.row, world, copy, entries) {
        Ok(taken) => say_taken(alloc, lines, deciding.row, before, taken, world),
        Err(error) => Err(error),
    }
}

// Adds the lines of the beginning. Returns what is said of the world then.
fn begin(
    alloc: Global,
    lines: &mut Vec<ReportLine>,
    world: &StoreWorld,
) -> Result<Said, OutOfMemory>
    ensures { IfOk result (λ said. IsSaidOf world.now said ×
        (lines.new.items ≡ lines.old.items ++ row_lines 0 no_world [] world.now)) }
{
    let none = nothing(alloc);
    let groups = ring_groups_in(alloc, world)?;
    say(alloc, lines, 0, &none, Vec::new(alloc), world, groups)
}

// Returns the lines of the beginning and of these rows.
fn explain_rows(
    alloc: Global,
    bases: &[Base],
    deciding: &[DecidingRow],
) -> Result<Vec<ReportLine>, OutOfMemory>
    requires { HaveArcsThroughout (first_world bases.now)
        (flat_map (λ row. row.entries) deciding.now) }
    ensures { IfOk result (λ lines. lines.items ≡
        row_lines 0 no_world [] (first_world bases.now)
        ++ lines_by (first_world bases.now) deciding.now) }
{
    let mut lines = Vec::new(alloc);
    let mut world = StoreWorld::first(alloc, bases)?;
    let mut said = begin(alloc, &mut lines, &world)?;
    for row in deciding {
        match explain_row(alloc, &mut lines, &mut world, &said, row) {
            Ok(after) => said = after,
            Err(EntryError::OutOfMemory) => return Err(OutOfMemory),
            Err(EntryError::NoArc) => unreachable!(),
        }
    }
    Ok(lines)
}

/// Returns what each row of a journal decided, line by line, where the ring covers the circle after
/// each of its entries. Fails only where it runs out of memory.
pub fn explain(
    alloc: Global,
    bases: &[Base],
    rows: &[Row<Mail, OrderLine>],
) -> Result<Sequence<ReportLine>, OutOfMemory>
    requires { CoverThroughout bases.now (entries_at as_nodes bases.now rows.now) }
    ensures { IfOk result (λ lines. lines ≡ explained as_nodes bases.now rows.now) }
{
    let deciding = deciding_rows(alloc, bases, rows)?;
    let lines = explain_rows(alloc, bases, deciding.as_slice())?;
    Ok(Sequence::from_vec(lines))
}
