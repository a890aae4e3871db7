//! A scenario played whole, and a scan of its journal.
ghost use Rattle.std.specs.Prelude.{◌≡◌, ◌≤◌, ◌<◌, ◌^◌, length, take, IfOk};
ghost use Rattle.sc_base.specs.Arc.{IsArc};
ghost use Rattle.sc_world_entries.specs.scans.Scan.{entries_in, scan_of};
ghost use Rattle.sc_world_entries.specs.scans.Text.{scan_lines};
ghost use Rattle.sc_scenario.specs.scenario.Valid.{IsValid};
ghost use Rattle.sc_meaning.specs.sound.GroupsOf.{entries_at, world_at};
ghost use Rattle.sc_meaning.specs.sound.Players.{as_nodes};
ghost use Rattle.sc_meaning.specs.sound.Soundness.{IsSoundThroughout};
ghost use Rattle.sc_run.specs.Run.{Comes};
ghost use Rattle.sc_run.specs.Shown.{ShowsScan};

use crate::done::Text;
use crate::reporting::{Left, play_whole};
use crate::texts::full_text;
use sc_actor::{Gate, Played, Row};
use sc_base::{OutOfMemory, Sequence};
use sc_cli::{Said, Sight, said_by};
use sc_law_groups::valid_entries_are_logs;
use sc_mail::Mail;
use sc_scenario::{ReportLine, Scenario};
use sc_thread_workers::Way;
use sc_words::OrderLine;
use sc_world_entries::{entries_count_logs, scan, scan_lines, scans_show};
use std::alloc::Global;
use std::sync::Wait;
use std::thread::Threads;

// Returns the first `most` rows, or all where there are fewer.
fn first_rows(rows: &[Row<Mail, OrderLine>], most: u32) -> &[Row<Mail, OrderLine>]
    ensures { result.now ≡ take most rows.now }
{
    if (most as usize) < rows.len() {
        &rows[..most as usize]
    } else {
        rows
    }
}

// Returns the lines of a scan after the number of rows that is asked for.
fn lines_of(
    alloc: Global,
    scenario: &Scenario,
    rows: &[Row<Mail, OrderLine>],
    sight: Sight,
) -> Result<Sequence<ReportLine>, OutOfMemory>
    requires some { 1 ≤ sight.most }
    requires sound { IsSoundThroughout as_nodes scenario.now rows.now }
    ensures lines { IfOk result (λ lines. lines ≡
        scan_lines sight.most (length (take sight.rows rows.now))
        (scan_of (world_at as_nodes scenario.now.groups (take sight.rows rows.now))
        (entries_in (entries_at as_nodes scenario.now.groups (take sight.rows rows.now)))
        sight.arc)) }
    ensures arc { IfOk result (λ _. IsArc sight.arc × (sight.arc.lo < 2 ^ 32)) }
{
    let first = first_rows(rows, sight.rows);
    let shown = scan(alloc, scenario.groups.as_slice(), first, &sight.arc)?;
    scan_lines(alloc, sight.most, first.len() as u64, shown.as_slice())
}

/// Plays a scenario and returns what an arc holds after its first rows, or the text that the
/// journal is full, as `report` does. Fails only where it runs out of memory.
pub fn show<G: Gate, R: Threads + Wait + Sync>(
    rt: &R,
    alloc: Global,
    scenario: &Scenario,
    sight: Sight,
    gate: &G,
) -> Result<(Said, Text), OutOfMemory>
    requires valid { IsValid scenario.now }
    requires some { 1 ≤ sight.most }
    ensures { IfOk result (λ begun.
        Comes (ShowsScan scenario.now sight) scenario.now begun.0 begun.1) }
{
    scans_show();
    entries_count_logs();
    valid_entries_are_logs();
    let left = play_whole(rt, alloc, Way::Runs, scenario, 1 << 30, gate)?;
    let Some(said) = said_by(left.played) else {
        return Err(OutOfMemory);
    };
    match left.played {
        Played::OutOfMemory => Err(OutOfMemory),
        Played::Full => Ok((said, full_text(alloc, left.journal)?)),
        Played::Ended { .. } => {
            let Left {
                journal,
                parties,
                ..
            } = left;
            let lines = lines_of(alloc, scenario, journal.as_slice(), sight)?;
            let text = Text {
                lines,
                journal: Some(journal),
                parties,
            };
            Ok((said, text))
        }
    }
}
