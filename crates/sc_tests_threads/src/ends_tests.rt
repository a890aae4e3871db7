//! Exchanges that are opened, driven and closed.
ghost use Rattle.std.specs.Prelude.{◌≡◌, [], List};
ghost use Rattle.sc_thread_ports.specs.exchange.Ports.{given, joined_ports};
ghost use Rattle.sc_thread_workers.specs.Crews.{AllOf, crew_numbers};
ghost use Rattle.sc_actor.specs.declared.actors.Seat.{Seat};
ghost use Rattle.sc_thread_drive.specs.CompanyRows.{HasOpened, StaysWhole};

use crate::notes::Note;
use crate::players::{Open, Player, go, seats};
use sc_actor::{Line, Played, Row, Seat, are_few};
use sc_thread_drive::{Company, close, drive, goers_are_spared, open};
use sc_thread_workers::{Way, gather};
use sc_world_replay::{Verdict, replay};
use std::alloc::Global;
use std::mem::forget;
use std::process::Abort;
use std::sync::Wait;
use std::thread::Threads;

// Returns the numbers of the rows' actors, as the digits of one number.
fn makers(rows: &[Row<Note, u32>]) -> u32 {
    let mut digits = 0u32;
    for row in rows {
        digits = digits.wrapping_mul(10).wrapping_add(row.who);
    }
    digits
}

// Returns the number with two more digits: the actor to whom this one sends, and how many notes it
// has left.
fn with_player(digits: u32, actor: &Player) -> u32 {
    let more = digits.wrapping_mul(10).wrapping_add(actor.other);
    more.wrapping_mul(10).wrapping_add(actor.left)
}

fn players(actors: &[Player]) -> u32 {
    let mut digits = 0u32;
    for actor in actors {
        digits = with_player(digits, actor);
    }
    digits
}

fn seated(seats: &[Seat<Player>]) -> u32 {
    let mut digits = 0u32;
    for seat in seats {
        digits = with_player(digits, &seat.actor);
    }
    digits
}

// Returns what is left at the end, where all gather before it.
fn ended<R: Wait + Abort>(rt: &R, alloc: Global, company: Company<Player>) -> (u32, u32)
    requires net { company.net.who ≡ 0 }
    requires exchange { AllOf company.net company.shells.items }
    requires all { given company.net ≡ crew_numbers company.shells.items }
    requires none { joined_ports company.net ≡ [] }
{
    let mut company = company;
    let _ = gather(rt, &mut company.net, &mut company.shells);
    let (journal, actors) = close(rt, alloc, company).expect(rt, "memory");
    let left = (makers(journal.as_slice()), players(actors.as_slice()));
    forget(journal);
    forget(actors);
    left
}

// Returns what is left after the actors at these places went.
fn left_after<R: Wait + Abort>(rt: &R, alloc: Global, places: &[usize]) -> (u32, u32) {
    let seats = seats(rt, alloc, 2, 7, 0);
    let mut company = open(alloc, seats, 2, 1 << 19).expect(rt, "memory");
    for place in places {
        go(rt, alloc, &company.net, &mut company.shells, *place);
    }
    ended(rt, alloc, company)
}

fn drive_all<R: Threads + Wait + Abort + Sync>(
    rt: &R,
    alloc: Global,
    way: Way,
    company: &mut Company<Player>,
    lines: &[Line<u32>],
)
    requires begins { (births : List (Seat Player)) × HasOpened births company.old }
    ensures kept { StaysWhole company.old company.new }
{
    assert!(rt; goers_are_spared(lines));
    match drive(rt, alloc, way, company, lines, &Open) {
        Played::OutOfMemory => panic!(rt; "memory"),
        Played::Full | Played::Ended { .. } => {}
    }
}

// Returns what a plain replay of the rows leaves of the actors, or `None` where the rows are not
// lawful.
fn replayed(
    rt: &impl Abort,
    alloc: Global,
    lines: &[Line<u32>],
    rows: &[Row<Note, u32>],
) -> Option<u32> {
    assert!(rt; are_few(rows));
    match replay(alloc, seats(rt, alloc, 2, 7, 0), lines, rows).expect(rt, "memory") {
        Verdict::BadRow { .. } => None,
        Verdict::Lawful(left) => {
            let digits = seated(&left.seats);
            forget(left);
            Some(digits)
        }
    }
}

// Returns what is left after a schedule was driven, and whether a plain replay leaves the same
// actors. Only the driver gathers before the end.
fn left_by<R: Threads + Wait + Abort + Sync>(
    rt: &R,
    alloc: Global,
    way: Way,
    lines: &[Line<u32>],
) -> (u32, u32, bool) {
    let seats = seats(rt, alloc, 2, 7, 0);
    let mut company = open(alloc, seats, 2, 1 << 19).expect(rt, "memory");
    drive_all(rt, alloc, way, &mut company, lines);
    let (journal, actors) = close(rt, alloc, company).expect(rt, "memory");
    let left = players(actors.as_slice());
    let again = replayed(rt, alloc, lines, journal.as_slice());
    let made = makers(journal.as_slice());
    forget(journal);
    forget(actors);
    (made, left, again == Some(left))
}

const TICK_AFTER_ALL: &[Line<u32>] = &[
    Line::Go { who: 2 },
    Line::Settle { most: 2 },
    Line::Tick { who: 2 },
];

#[test]
fn what_was_driven_is_given_back(rt: HostRuntime) {
    let left = left_by(&rt, rt.alloc(), Way::Runs, TICK_AFTER_ALL);
    assert!(rt; left == (2122, 1126, true));
}

// Returns what is left by this number of workers, without the order of their rows.
fn left_by_workers<R: Threads + Wait + Abort + Sync>(
    rt: &R,
    alloc: Global,
    way: Way,
    workers: u32,
) -> (u32, bool) {
    let lines: [Line<u32>; 4] = [
        Line::Go { who: 1 },
        Line::Go { who: 2 },
        Line::Free { most: 5, workers },
        Line::Settle { most: 100 },
    ];
    let (_, left, same) = left_by(rt, alloc, way, &lines);
    (left, same)
}

#[test]
fn free_lines_are_replayed_whatever_the_order_of_their_rows(rt: HostRuntime) {
    for (way, workers) in [
        (Way::Runs, 1),
        (Way::Runs, 16),
        (Way::Queue, 1),
        (Way::Queue, 16),
    ] {
        assert!(rt; left_by_workers(&rt, rt.alloc(), way, workers) == (1022, true));
    }
}

#[test]
fn all_are_given_back_in_order(rt: HostRuntime) {
    let none = left_after(&rt, rt.alloc(), &[]);
    let some = left_after(&rt, rt.alloc(), &[0, 1, 1, 0, 1]);
    assert!(rt; none == (0, 1427) && some == (21121, 1224));
}
