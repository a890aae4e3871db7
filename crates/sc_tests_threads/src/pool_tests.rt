//! The rounds of a pool of actors that send each other notes.
ghost use Rattle.std.specs.Prelude.{◌≤◌};
ghost use Rattle.sc_thread_ports.specs.exchange.Ports.{Stays};
ghost use Rattle.sc_thread_work.specs.shell.Shells.{port_of};
ghost use Rattle.sc_thread_workers.specs.Crews.{AllOf, AllSound, Sound, crew_numbers};

use crate::notes::Note;
use crate::players::{Open, Player, go, seats};
use sc_actor::Seat;
use sc_thread_drive::{Company, open};
use sc_thread_pool::pool_rounds;
use sc_thread_ports::Port;
use sc_thread_work::Shell;
use sc_thread_workers::Rounds;
use std::alloc::Global;
use std::mem::forget;
use std::process::Abort;
use std::sync::Wait;
use std::thread::Threads;

// Returns how a pool ends that has the shells of these two players, each with four notes, and the
// numbers of its shells afterwards. Both players went before.
fn pooled<R: Threads + Wait + Abort + Sync>(
    rt: &R,
    alloc: Global,
    bytes: u64,
    workers: u32,
    limit: u32,
) -> (Rounds, u32, u32)
    requires { (bytes ≤ 1000000) × (1 ≤ workers) × (workers ≤ 16) }
{
    let seats = seats(rt, alloc, 2, 4, 0);
    let mut company = open(alloc, seats, 2, bytes).expect(rt, "memory");
    go(rt, alloc, &company.net, &mut company.shells, 0);
    go(rt, alloc, &company.net, &mut company.shells, 1);
    let Company { net, shells, .. } = &mut company;
    let end = pool_rounds(rt, alloc, net, shells, workers, limit, &Open);
    assert!(rt; shells.len() == 2);
    let whos = (shells[0].who(), shells[1].who());
    forget(company);
    (end, whos.0, whos.1)
}

// Shows that no more deliveries are made than are asked for, for limits of which most fall inside a
// phase.
#[test]
fn no_more_deliveries_are_made_than_are_asked_for(rt: HostRuntime) {
    for limit in 1..10u32 {
        let wanted = if limit < 8 {
            Rounds::Limit { used: limit }
        } else {
            Rounds::Quiet { used: 8 }
        };
        assert!(rt; pooled(&rt, rt.alloc(), 1 << 19, 2, limit) == (wanted, 2, 1));
    }
}

#[test]
fn a_full_journal_hands_all_shells_back_in_order(rt: HostRuntime) {
    for bytes in [700u64, 1000, 1300, 1600, 2000, 2300] {
        let (end, first, second) = pooled(&rt, rt.alloc(), bytes, 2, 100);
        let full = matches!(end, Rounds::Full { .. });
        assert!(rt; full && first == 2 && second == 1);
    }
}

#[test]
fn a_pool_without_shells_is_quiet(rt: HostRuntime) {
    let alloc = rt.alloc();
    let mut company = open(alloc, Vec::<Seat<Player>>::new(alloc), 2, 1 << 19).expect(
        &rt, "memory",
    );
    let Company { net, shells, .. } = &mut company;
    let end = pool_rounds(&rt, alloc, net, shells, 4, 5, &Open);
    forget(company);
    assert!(rt; end == Rounds::Quiet { used: 0 });
}
