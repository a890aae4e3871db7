//! Schedules driven with actors that send each other notes.
ghost use Rattle.std.specs.Prelude.{◌≤◌};

use crate::players::{Open, Pair, seats};
use sc_actor::{Gate, Line, Played};
use sc_thread_drive::{drive, goers_are_spared, open};
use sc_thread_workers::Way;
use std::alloc::Global;
use std::mem::forget;
use std::process::Abort;
use std::sync::Wait;
use std::sync::atomic::{AtomicU64, Ordering};
use std::thread::Threads;

// Drives a schedule of the pair of players, with a limit of `bytes`, and returns how it ends. There
// is no actor with the number 3.
fn driven_to<G: Gate, R: Threads + Wait + Abort + Sync>(
    rt: &R,
    alloc: Global,
    bytes: u64,
    other: u32,
    starves: u32,
    lines: &[Line<u32>],
    gate: &G,
) -> Played
    requires { bytes ≤ 1000000 }
{
    assert!(rt; goers_are_spared(lines));
    let seats = seats(rt, alloc, other, 4, starves);
    let mut company = open(alloc, seats, 3, bytes).expect(rt, "memory");
    let end = drive(rt, alloc, Way::Runs, &mut company, lines, gate);
    forget(company);
    end
}

// Drives a schedule that delivers all mail.
fn delivered<R: Threads + Wait + Abort + Sync>(
    rt: &R,
    alloc: Global,
    bytes: u64,
    starves: u32,
    workers: u32,
) -> Played
    requires { bytes ≤ 1000000 }
{
    let lines: [Line<u32>; 4] = [
        Line::Go { who: 1 },
        Line::Go { who: 2 },
        Line::Go { who: 2 },
        Line::Free { most: 100, workers },
    ];
    driven_to(rt, alloc, bytes, 2, starves, &lines, &Open)
}

// Drives a schedule whose line of deliveries is cut off, and whose last line delivers the rest.
fn cut_off<R: Threads + Wait + Abort + Sync>(rt: &R, alloc: Global, workers: u32) -> Played {
    let lines: [Line<u32>; 4] = [
        Line::Go { who: 1 },
        Line::Go { who: 2 },
        Line::Free { most: 3, workers },
        Line::Settle { most: 100 },
    ];
    driven_to(rt, alloc, 1 << 19, 2, 0, &lines, &Open)
}

const QUIET: Played = Played::Ended {
    unsettled: false,
    quiet: true,
    skipped: 1,
};

const CUT_OFF: Played = Played::Ended {
    unsettled: true,
    quiet: true,
    skipped: 0,
};

#[test]
fn free_lines_end_by_their_causes(rt: HostRuntime) {
    for workers in [1u32, 2, 4, 8, 16] {
        let ends = [
            delivered(&rt, rt.alloc(), 1 << 19, 0, workers),
            delivered(&rt, rt.alloc(), 1000, 0, workers),
            delivered(&rt, rt.alloc(), 1 << 19, 2, workers),
            cut_off(&rt, rt.alloc(), workers),
        ];
        assert!(rt; ends == [QUIET, Played::Full, Played::OutOfMemory, CUT_OFF]);
    }
}

const LINES_OF_ONE_ROW: &[Line<u32>] = &[
    Line::Deliver { who: 1, k: 1 },
    Line::Go { who: 1 },
    Line::Drop { who: 2, k: 1 },
    Line::Drop { who: 2, k: 1 },
    Line::Again { mail: 1 },
    Line::Again { mail: 7 },
    Line::Tick { who: 1 },
    Line::Told { who: 1, order: 5 },
    Line::Deliver { who: 2, k: 2 },
    Line::Crash { who: 2 },
    Line::Tick { who: 2 },
    Line::Tick { who: 3 },
    Line::Settle { most: 0 },
];

// Both actors go, a storm delivers, loses and repeats some of their mail, and the rest is
// delivered.
const LINES_WITH_A_STORM: &[Line<u32>] = &[
    Line::Go { who: 1 },
    Line::Go { who: 2 },
    Line::Storm {
        number: 7,
        most: 20,
    },
    Line::Settle { most: 100 },
];

// Shows that no step of a storm counts as skipped.
#[test]
fn storms_are_driven(rt: HostRuntime) {
    let end = driven_to(&rt, rt.alloc(), 1 << 19, 2, 0, LINES_WITH_A_STORM, &Open);
    let wanted = Played::Ended {
        unsettled: false,
        quiet: true,
        skipped: 0,
    };
    assert!(rt; end == wanted);
}

// Shows that five lines are skipped: the first, the second loss, the repeat of a mail that was not
// sent, and the two last ticks. A note to the first actor is pending at the end.
#[test]
fn lines_of_one_row_are_made_or_skipped(rt: HostRuntime) {
    let some = driven_to(&rt, rt.alloc(), 1 << 19, 2, 0, LINES_OF_ONE_ROW, &Open);
    let wanted = Played::Ended {
        unsettled: true,
        quiet: false,
        skipped: 5,
    };
    assert!(rt; some == wanted);
}

#[test]
fn mail_to_nobody_is_passed_over(rt: HostRuntime) {
    let lines: [Line<u32>; 3] = [
        Line::Go { who: 1 },
        Line::Go { who: 2 },
        Line::Settle { most: 100 },
    ];
    let passed = driven_to(&rt, rt.alloc(), 1 << 19, 3, 0, &lines, &Open);
    let wanted = Played::Ended {
        unsettled: false,
        quiet: true,
        skipped: 0,
    };
    assert!(rt; passed == wanted);
}

// Returns how two deliveries are driven, and how many of the two waited in vain for the other.
fn met<R: Threads + Wait + Abort + Sync>(
    rt: &R,
    alloc: Global,
    workers: u32,
    turns: u32,
) -> (Played, u64) {
    let gate = Pair {
        turns,
        come: AtomicU64::new(0),
        late: AtomicU64::new(0),
    };
    let lines: [Line<u32>; 3] = [
        Line::Go { who: 1 },
        Line::Go { who: 2 },
        Line::Free { most: 2, workers },
    ];
    let end = driven_to(rt, alloc, 1 << 19, 2, 0, &lines, &gate);
    (end, gate.late.load(Ordering::SeqCst))
}

#[test]
fn threads_work_at_the_same_time(rt: HostRuntime) {
    let end = Played::Ended {
        unsettled: true,
        quiet: false,
        skipped: 0,
    };
    assert!(rt; met(&rt, rt.alloc(), 2, 1_000_000) == (end, 0));
    assert!(rt; met(&rt, rt.alloc(), 1, 1_000) == (end, 1));
}
