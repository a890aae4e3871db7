//! A scenario played whole, and its report.
ghost use Rattle.std.specs.Prelude.{◌≤◌, ◌^◌, IfOk};
ghost use Rattle.sc_scenario.specs.scenario.Valid.{IsValid};
ghost use Rattle.sc_run.specs.Played.{IsPlayed};
ghost use Rattle.sc_run.specs.Run.{Comes, ShowsFile, ShowsReport};

use crate::begun::begin;
use crate::done::Text;
use crate::played::play_in;
use crate::texts::full_text;
use sc_actor::{Gate, Journal, Played};
use sc_base::{OutOfMemory, Sequence};
use sc_cli::{Said, said_by};
use sc_json_journal::file_lines;
use sc_mail::Mail;
use sc_scenario::{Scenario, lines};
use sc_thread_drive::close;
use sc_thread_workers::Way;
use sc_words::OrderLine;
use sc_world::{Party, sum_up};
use std::alloc::Global;
use std::sync::Wait;
use std::thread::Threads;

/// What is left of a scenario that was played: how it was played, the rows, and the nodes and then
/// the clients.
#[derive(Drop)]
pub struct Left {
    pub played: Played,
    pub journal: Journal<Mail, OrderLine>,
    pub parties: Sequence<Party>,
}

/// Begins a scenario within a limit of counted bytes of at most 2^30, plays it, takes the shells
/// apart, joins their ports and closes the network's port. `way` says how its lines of many workers
/// are worked. Fails only where it runs out of memory.
pub fn play_whole<G: Gate, R: Threads + Wait + Sync>(
    rt: &R,
    alloc: Global,
    way: Way,
    scenario: &Scenario,
    limit: u64,
    gate: &G,
) -> Result<Left, OutOfMemory>
    requires valid { IsValid scenario.now }
    requires limit { limit ≤ 2 ^ 30 }
    ensures { IfOk result
        (λ left. IsPlayed scenario.now limit left.journal left.parties left.played) }
{
    let mut company = begin(alloc, scenario, limit)?;
    let played = play_in(rt, alloc, way, scenario, &mut company, gate);
    if played == Played::OutOfMemory {
        return Err(OutOfMemory);
    }
    let (journal, parties) = close(rt, alloc, company)?;
    Ok(Left {
        played,
        journal,
        parties,
    })
}

/// Plays a scenario and returns its report, or, where a row would pass the limit of 2^30 counted
/// bytes, the text that says after how many rows. `way` is that of `play_whole`. Fails only where
/// it runs out of memory.
pub fn report<G: Gate, R: Threads + Wait + Sync>(
    rt: &R,
    alloc: Global,
    way: Way,
    scenario: &Scenario,
    gate: &G,
) -> Result<(Said, Text), OutOfMemory>
    requires { IsValid scenario.now }
    ensures { IfOk result (λ begun.
        Comes (ShowsReport scenario.now) scenario.now begun.0 begun.1) }
{
    let left = play_whole(rt, alloc, way, scenario, 1 << 30, gate)?;
    let Some(said) = said_by(left.played) else {
        return Err(OutOfMemory);
    };
    match left.played {
        Played::OutOfMemory => Err(OutOfMemory),
        Played::Full => Ok((said, full_text(alloc, left.journal)?)),
        Played::Ended { quiet, skipped, .. } => {
            let Left {
                journal,
                parties,
                ..
            } = left;
            let summary = sum_up(alloc, scenario, &journal, &parties, skipped, quiet)?;
            let lines = lines(alloc, &summary)?;
            let text = Text {
                lines,
                journal: Some(journal),
                parties,
            };
            Ok((said, text))
        }
    }
}

/// Plays a scenario and returns the lines of the file that stores its journal behind the scenario's
/// text, or the text that the journal is full, as `report` does. Fails only where it runs out of
/// memory.
pub fn store<G: Gate, R: Threads + Wait + Sync>(
    rt: &R,
    alloc: Global,
    scenario: &Scenario,
    bytes: &[u8],
    gate: &G,
) -> Result<(Said, Text), OutOfMemory>
    requires { IsValid scenario.now }
    ensures { IfOk result (λ begun.
        Comes (ShowsFile bytes.now) scenario.now begun.0 begun.1) }
{
    let left = play_whole(rt, alloc, Way::Runs, scenario, 1 << 30, gate)?;
    let Some(said) = said_by(left.played) else {
        return Err(OutOfMemory);
    };
    match left.played {
        Played::OutOfMemory => Err(OutOfMemory),
        Played::Full => Ok((said, full_text(alloc, left.journal)?)),
        Played::Ended { .. } => {
            let Left {
                journal,
                parties,
                ..
            } = left;
            let lines = file_lines(alloc, bytes, journal.as_slice())?;
            let text = Text {
                lines,
                journal: Some(journal),
                parties,
            };
            Ok((said, text))
        }
    }
}
