//! The rounds of a pool.
ghost use Rattle.std.specs.Prelude.{◌≤◌, Some};
ghost use Rattle.sc_thread_workers.specs.Crews.{AreLater, IsCrew, crew_numbers};
ghost use Rattle.sc_thread_workers.specs.RoundEnds.{IsEnd, IfHeld};
ghost use Rattle.sc_thread_workers.specs.Holders.{PhasesHaveOneHolder};

use sc_actor::{Actor, Gate};
use sc_thread_ports::Port;
use sc_thread_work::Shell;
use sc_thread_workers::{Rounds, Way, rounds_by};
use std::alloc::Global;
use std::sync::Wait;
use std::thread::Threads;

/// Plays phases until nothing is pending for the shells' actors, `limit` deliveries were made, or a
/// row is refused. Returns how many deliveries were made, and why it ended.
///
/// Before each phase every shell meets `net`, which is the network's port and makes no row. With d
/// deliveries left and s shells, s at most d, a phase puts each shell once into a queue, with a
/// grant of d / s turns, at most 16. Up to `workers` workers (one for every two shells with mail,
/// and two where there are two) take shells from it, each the next one, and give it turns until the
/// grant is used or a turn makes no row. Then the shells are put back in their order. Where fewer
/// deliveries are left than there are shells, the shells take turns one after the other. A phase in
/// which no turn is refused makes at least one delivery. Where memory runs out, shells may be lost.
pub fn pool_rounds<A: Actor, G: Gate, R: Threads + Wait + Sync>(
    rt: &R,
    alloc: Global,
    net: &mut Port<A::Mail, A::Order>,
    shells: &mut Vec<Shell<A>>,
    workers: u32,
    limit: u32,
    gate: &G,
) -> Rounds
    requires workers { (1 ≤ workers) × (workers ≤ 16) }
    requires crew { IsCrew net.old shells.old.items }
    ensures later { IfHeld (Some result)
        (AreLater net.old net.new shells.old.items shells.new.items) }
    ensures end { IsEnd result net.new shells.old.items shells.new.items (crew_numbers shells.old.items)
        limit }
    ensures holders { PhasesHaveOneHolder shells.old.items }
{
    rounds_by(rt, alloc, Way::Queue, net, shells, workers, limit, gate)
}
