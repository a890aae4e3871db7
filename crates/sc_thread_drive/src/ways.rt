//! The ways to work a `free` line.
ghost use Rattle.std.specs.Prelude.{◌≤◌, Some, IfOk, OnOk};
ghost use Rattle.sc_thread_workers.specs.Crews.{AreLater, IsCrew, crew_numbers};
ghost use Rattle.sc_thread_workers.specs.RoundEnds.{IsEnd, IfHeld};

use sc_actor::{Actor, Gate};
use sc_base::OutOfMemory;
use sc_thread_pool::pool_rounds;
use sc_thread_ports::Port;
use sc_thread_work::Shell;
use sc_thread_workers::{Rounds, Way, rounds};
use std::alloc::Global;
use std::sync::Wait;
use std::thread::Threads;

// Plays rounds, or the rounds of a pool, by `way`.
fn rounds_of<A: Actor, G: Gate, R: Threads + Wait + Sync>(
    rt: &R,
    alloc: Global,
    way: Way,
    net: &mut Port<A::Mail, A::Order>,
    shells: &mut Vec<Shell<A>>,
    workers: u32,
    limit: u32,
    gate: &G,
) -> Rounds
    requires workers { (1 ≤ workers) × (workers ≤ 16) }
    requires crew { IsCrew net.old shells.old.items }
    ensures later { IfHeld (Some result)
        (AreLater net.old net.new shells.old.items shells.new.items) }
    ensures end { IsEnd result net.new shells.old.items shells.new.items (crew_numbers shells.old.items)
        limit }
{
    match way {
        Way::Runs => rounds(rt, alloc, net, shells, workers, limit, gate),
        Way::Queue => pool_rounds(rt, alloc, net, shells, workers, limit, gate),
    }
}

/// Plays rounds, or the rounds of a pool, by `way`, and returns how they end. `Err(OutOfMemory)`:
/// shells may be lost.
pub(crate) fn freed<A: Actor, G: Gate, R: Threads + Wait + Sync>(
    rt: &R,
    alloc: Global,
    way: Way,
    net: &mut Port<A::Mail, A::Order>,
    shells: &mut Vec<Shell<A>>,
    workers: u32,
    limit: u32,
    gate: &G,
) -> Result<Rounds, OutOfMemory>
    requires workers { (1 ≤ workers) × (workers ≤ 16) }
    requires crew { IsCrew net.old shells.old.items }
    ensures later { OnOk result (AreLater net.old net.new shells.old.items shells.new.items) }
    ensures end { IfOk result
        (λ end.
        IsEnd end net.new shells.old.items shells.new.items (crew_numbers shells.old.items) limit) }
{
    match rounds_of(rt, alloc, way, net, shells, workers, limit, gate) {
        Rounds::Quiet { used } => Ok(Rounds::Quiet { used }),
        Rounds::Limit { used } => Ok(Rounds::Limit { used }),
        Rounds::Full { bytes } => Ok(Rounds::Full { bytes }),
        Rounds::OutOfMemory => Err(OutOfMemory),
    }
}
