//! A scenario played to its end, through the shells of its actors.
ghost use Rattle.std.specs.Prelude.{◌≢◌, map};
ghost use Rattle.sc_actor.specs.declared.schedules.Played.TheVariants.{OutOfMemory};
ghost use Rattle.sc_thread_ports.specs.exchange.Ports.{seen};
ghost use Rattle.sc_thread_drive.specs.CompanyRows.{HasOpened, StaysWhole};
ghost use Rattle.sc_scenario.specs.scenario.Valid.{IsValid};
ghost use Rattle.sc_meaning.specs.sound.Players.{births, as_nodes};
ghost use Rattle.sc_run.specs.Played.{IsPlayed};

use crate::answering::budgets_suffice;
use sc_actor::{Gate, Played};
use sc_law_groups::valid_journals_are_sound;
use sc_law_refusal::valid_journals_refuse_with_cause;
use sc_scenario::Scenario;
use sc_thread_drive::{Company, drive};
use sc_thread_workers::Way;
use sc_world::{Party, schedule, valid_scenarios_can_play};
use std::alloc::Global;
use std::sync::Wait;
use std::thread::Threads;

// Plays a scenario through its company, which has just opened. `way` says how its lines of many
// workers are worked.
fn play_by<G: Gate, R: Threads + Wait + Sync>(
    rt: &R,
    alloc: Global,
    way: Way,
    scenario: &Scenario,
    company: &mut Company<Party>,
    gate: &G,
) -> Played
    requires valid { IsValid scenario.now }
    requires opened { HasOpened (births as_nodes scenario.now) company.old }
    ensures kept { result ≢ OutOfMemory → StaysWhole company.old company.new }
    ensures played { IsPlayed scenario.now company.old.net.limit (seen company.new.net)
        (map (λ s. s.actor) company.new.shells.items) result }
{
    valid_scenarios_can_play();
    valid_journals_are_sound();
    valid_journals_refuse_with_cause();
    budgets_suffice();
    let Ok(lines) = schedule(alloc, scenario) else {
        return Played::OutOfMemory;
    };
    drive(rt, alloc, way, company, lines.as_slice(), gate)
}

/// Plays a scenario through its company, which has just opened: actors step in their shells alone,
/// and mail is lost and repeated by the network's port alone. Its lines of many workers are worked
/// in rounds.
///
/// The scenario is one that some text is, or that was made. The journal is what the network's port
/// has seen at the end, and its limit is that of the exchange.
pub fn play<G: Gate, R: Threads + Wait + Sync>(
    rt: &R,
    alloc: Global,
    scenario: &Scenario,
    company: &mut Company<Party>,
    gate: &G,
) -> Played
    requires valid { IsValid scenario.now }
    requires opened { HasOpened (births as_nodes scenario.now) company.old }
    ensures kept { result ≢ OutOfMemory → StaysWhole company.old company.new }
    ensures played { IsPlayed scenario.now company.old.net.limit (seen company.new.net)
        (map (λ s. s.actor) company.new.shells.items) result }
{
    play_by(rt, alloc, Way::Runs, scenario, company, gate)
}

/// Plays a scenario through its company as `play` does, but its lines of many workers are worked by
/// a pool.
pub fn play_pool<G: Gate, R: Threads + Wait + Sync>(
    rt: &R,
    alloc: Global,
    scenario: &Scenario,
    company: &mut Company<Party>,
    gate: &G,
) -> Played
    requires valid { IsValid scenario.now }
    requires opened { HasOpened (births as_nodes scenario.now) company.old }
    ensures kept { result ≢ OutOfMemory → StaysWhole company.old company.new }
    ensures played { IsPlayed scenario.now company.old.net.limit (seen company.new.net)
        (map (λ s. s.actor) company.new.shells.items) result }
{
    play_by(rt, alloc, Way::Queue, scenario, company, gate)
}

// Plays a scenario through its company, its lines of many workers in rounds or by a pool.
pub(crate) fn play_in<G: Gate, R: Threads + Wait + Sync>(
    rt: &R,
    alloc: Global,
    way: Way,
    scenario: &Scenario,
    company: &mut Company<Party>,
    gate: &G,
) -> Played
    requires valid { IsValid scenario.now }
    requires opened { HasOpened (births as_nodes scenario.now) company.old }
    ensures kept { result ≢ OutOfMemory → StaysWhole company.old company.new }
    ensures played { IsPlayed scenario.now company.old.net.limit (seen company.new.net)
        (map (λ s. s.actor) company.new.shells.items) result }
{
    match way {
        Way::Runs => play(rt, alloc, scenario, company, gate),
        Way::Queue => play_pool(rt, alloc, scenario, company, gate),
    }
}
