//! Rounds of actors that send each other notes.
ghost use Rattle.std.specs.Prelude.{◌≤◌};
ghost use Rattle.sc_thread_workers.specs.Crews.{IsCrew};

use crate::notes::Note;
use crate::players::{Counter, Open, Pair, Player, go, seats};
use sc_actor::Gate;
use sc_thread_drive::{Company, open};
use sc_thread_pool::pool_rounds;
use sc_thread_ports::Port;
use sc_thread_work::Shell;
use sc_thread_workers::{Rounds, Way, rounds};
use std::alloc::Global;
use std::mem::forget;
use std::process::Abort;
use std::sync::Wait;
use std::sync::atomic::{AtomicU64, Ordering};
use std::thread::Threads;

fn worked<G: Gate, R: Threads + Wait + Sync>(
    rt: &R,
    alloc: Global,
    way: Way,
    net: &mut Port<Note, u32>,
    shells: &mut Vec<Shell<Player>>,
    workers: u32,
    limit: u32,
    gate: &G,
) -> Rounds
    requires workers { (1 ≤ workers) × (workers ≤ 16) }
    requires crew { IsCrew net.old shells.old.items }
{
    match way {
        Way::Runs => rounds(rt, alloc, net, shells, workers, limit, gate),
        Way::Queue => pool_rounds(rt, alloc, net, shells, workers, limit, gate),
    }
}

// Returns how rounds, or the rounds of a pool, end for a pair of players with four notes each, of
// which both went before.
fn played<G: Gate, R: Threads + Wait + Abort + Sync>(
    rt: &R,
    alloc: Global,
    way: Way,
    bytes: u64,
    starves: u32,
    workers: u32,
    limit: u32,
    gate: &G,
) -> Rounds
    requires { (bytes ≤ 1000000) × (1 ≤ workers) × (workers ≤ 16) }
{
    let seats = seats(rt, alloc, 2, 4, starves);
    let mut company = open(alloc, seats, 2, bytes).expect(rt, "memory");
    go(rt, alloc, &company.net, &mut company.shells, 0);
    go(rt, alloc, &company.net, &mut company.shells, 1);
    let Company { net, shells, .. } = &mut company;
    let end = worked(rt, alloc, way, net, shells, workers, limit, gate);
    forget(company);
    end
}

#[test]
fn rounds_end_by_their_causes(rt: HostRuntime) {
    for (way, workers) in [
        (Way::Runs, 1),
        (Way::Runs, 2),
        (Way::Runs, 16),
        (Way::Queue, 1),
        (Way::Queue, 2),
        (Way::Queue, 16),
    ] {
        let ends = [
            played(&rt, rt.alloc(), way, 1 << 19, 0, workers, 100, &Open),
            played(&rt, rt.alloc(), way, 1 << 19, 0, workers, 3, &Open),
            played(&rt, rt.alloc(), way, 1000, 0, workers, 100, &Open),
            played(&rt, rt.alloc(), way, 1 << 19, 2, workers, 100, &Open),
        ];
        let wanted = [
            Rounds::Quiet { used: 8 },
            Rounds::Limit { used: 3 },
            Rounds::Full { bytes: 960 },
            Rounds::OutOfMemory,
        ];
        assert!(rt; ends == wanted);
    }
}

// Returns how a round of two deliveries ends, and how many of the two waited in vain for the other.
fn met<R: Threads + Wait + Abort + Sync>(
    rt: &R,
    alloc: Global,
    way: Way,
    workers: u32,
    turns: u32,
) -> (Rounds, u64)
    requires { (1 ≤ workers) × (workers ≤ 16) }
{
    let gate = Pair {
        turns,
        come: AtomicU64::new(0),
        late: AtomicU64::new(0),
    };
    let end = played(rt, alloc, way, 1 << 19, 0, workers, 2, &gate);
    (end, gate.late.load(Ordering::SeqCst))
}

// Returns how the round ends, and ends the test where one of the two waited in vain.
fn met_in_time<R: Threads + Wait + Abort + Sync>(rt: &R, alloc: Global, way: Way) -> Rounds {
    let (end, late) = met(rt, alloc, way, 2, 1_000_000);
    if late != 0 {
        panic!(rt; "a worker did not meet the other within 1,000,000 turns of waiting");
    }
    end
}

#[test]
fn workers_work_at_the_same_time(rt: HostRuntime) {
    let end = Rounds::Limit { used: 2 };
    for way in [Way::Runs, Way::Queue] {
        assert!(rt; met_in_time(&rt, rt.alloc(), way) == end);
        assert!(rt; met(&rt, rt.alloc(), way, 1, 1_000) == (end, 1));
    }
}

// Returns how rounds end, and how often the gate was passed.
fn counted<R: Threads + Wait + Abort + Sync>(
    rt: &R,
    alloc: Global,
    way: Way,
    workers: u32,
    limit: u32,
) -> (Rounds, u64)
    requires { (1 ≤ workers) × (workers ≤ 16) }
{
    let gate = Counter {
        passes: AtomicU64::new(0),
    };
    let end = played(rt, alloc, way, 1 << 19, 0, workers, limit, &gate);
    (end, gate.passes.load(Ordering::SeqCst))
}

#[test]
fn the_gate_is_passed_at_each_delivery(rt: HostRuntime) {
    for (way, workers) in [
        (Way::Runs, 1),
        (Way::Runs, 4),
        (Way::Queue, 1),
        (Way::Queue, 4),
    ] {
        let all = counted(&rt, rt.alloc(), way, workers, 100);
        let some = counted(&rt, rt.alloc(), way, workers, 3);
        assert!(rt; all == (Rounds::Quiet { used: 8 }, 8));
        assert!(rt; some == (Rounds::Limit { used: 3 }, 3));
    }
}
