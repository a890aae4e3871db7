//! A schedule driven to its end.
ghost use Rattle.std.specs.Prelude.{◌≡◌, ◌≢◌, ℕ, [], List, OnOk};
ghost use Rattle.sc_actor.specs.declared.actors.Seat.{Seat};
ghost use Rattle.sc_actor.specs.declared.schedules.Played.TheVariants.{OutOfMemory};
ghost use Rattle.sc_actor.specs.Walk.{tasks_of};
ghost use Rattle.sc_texts.specs.chance.KeyStream.{two_words};
ghost use Rattle.sc_thread_drive.specs.Goings.{SparesGoers};
ghost use Rattle.sc_thread_drive.specs.Rows.{OnFull};
ghost use Rattle.sc_thread_drive.specs.CompanyRows.{AreTogether, HasOpened, IsDriven, IsStaffed, LineEnded, LineRefused, MayTakeEvent, StaysWhole};

use crate::company::Company;
use crate::free_lines::run_free;
use crate::settle_lines::{lowest, run_settle};
use crate::single_lines::{run_go, run_once};
use crate::storm_lines::run_storm;
use sc_actor::{Actor, Gate, Line, Played};
use sc_thread_ports::PostError;
use sc_thread_workers::{Way, gather};
use std::alloc::Global;
use std::sync::Wait;
use std::thread::Threads;

// Runs one line of the schedule.
fn run_line<A: Actor, G: Gate, R: Threads + Wait + Sync>(
    rt: &R,
    alloc: Global,
    way: Way,
    company: &mut Company<A>,
    line: &Line<A::Order>,
    gate: &G,
) -> Result<(), PostError>
    requires together { AreTogether company.old }
    requires staffed { IsStaffed company.old }
    requires runs { (who : ℕ) → line.now ≡ Line.Go who → MayTakeEvent who company.old }
    ensures goes { OnOk result
        (LineEnded (tasks_of two_words line.now) [] company.old company.new) }
    ensures fills { OnFull result
        (LineRefused (tasks_of two_words line.now) company.old company.new) }
{
    match line {
        Line::Go { who } => run_go(rt, alloc, company, *who),
        Line::Settle { most } => run_settle(rt, alloc, company, *most, gate),
        Line::Free { most, workers } => run_free(rt, alloc, way, company, *most, *workers, gate),
        Line::Storm { number, most } => run_storm(rt, alloc, company, *number, *most, gate),
        _ => run_once(rt, alloc, company, line, gate),
    }
}

/// Drives a schedule through a company that has just opened. `way` says how a line of many workers
/// is worked. Returns what the walk has counted, or why the schedule stopped.
///
/// No actor with a `go` line may have a `crash` line (`goers_are_spared`). What is left afterwards
/// is `IsDriven`: a lawful journal of the schedule, or one that the next row would fill.
pub fn drive<A: Actor, G: Gate, R: Threads + Wait + Sync>(
    rt: &R,
    alloc: Global,
    way: Way,
    company: &mut Company<A>,
    lines: &[Line<A::Order>],
    gate: &G,
) -> Played
    requires begins { (births : List (Seat A)) × HasOpened births company.old }
    requires spared { SparesGoers lines.now }
    ensures kept { result ≢ OutOfMemory → StaysWhole company.old company.new }
    ensures driven { (births : List (Seat A)) → HasOpened births company.old →
        IsDriven two_words births lines.now company.old.net.limit company.new result }
{
    // That the journal is empty is known only once all shells have gathered.
    let _ = gather(rt, &mut company.net, &mut company.shells);
    for line in lines {
        match run_line(rt, alloc, way, company, line, gate) {
            Ok(()) => {}
            Err(PostError::JournalFull { .. }) => return Played::Full,
            Err(PostError::OutOfMemory) => return Played::OutOfMemory,
        }
    }
    let Ok(found) = lowest(rt, company) else {
        return Played::OutOfMemory;
    };
    Played::Ended {
        unsettled: company.score.unsettled,
        quiet: found.is_none(),
        skipped: company.score.skipped,
    }
}
