//! Journals of players, each of which sends one note at each input while it has notes left.

use crate::notes::Note;
use crate::players::Player;
use sc_actor::{Event, Journal, Line, Row, Seat, are_apart, are_few};
use sc_base::Sequence;
use sc_world_replay::{Replayed, Verdict, is_lawful, pending_of, replay};
use std::alloc::Global;
use std::mem::forget;
use std::process::Abort;

// Returns a player that has two notes left for another.
fn player(other: u32) -> Player {
    Player {
        other,
        left: 2,
        starves: 0,
    }
}

// Returns the actors 1 and 2, which send to each other, with two notes each.
fn pair(rt: &impl Abort, alloc: Global) -> Vec<Seat<Player>> {
    let one = Seat {
        who: 1,
        actor: player(2),
    };
    let two = Seat {
        who: 2,
        actor: player(1),
    };
    let mut seats = Vec::new(alloc);
    seats.push(one).expect(rt, "memory");
    seats.push(two).expect(rt, "memory");
    seats
}

// The event of a row, in brief.
#[derive(Clone, Copy)]
enum When {
    Deliver(u32),
    Tick,
    Go,
    Crash,
    Drop(u32),
    Again(u32),
}

// A row: its actor, its event, and the receiver of the note that it sends, or 0 for none.
type Act = (u32, When, u32);

fn event_of(when: When) -> Event<u32> {
    match when {
        When::Deliver(mail) => Event::Deliver(mail),
        When::Tick => Event::Tick,
        When::Go => Event::Go,
        When::Crash => Event::Crash,
        When::Drop(mail) => Event::Drop(mail),
        When::Again(mail) => Event::Again(mail),
    }
}

fn notes_to(rt: &impl Abort, alloc: Global, to: u32) -> Sequence<Note> {
    let mut notes = Sequence::new(alloc);
    if to > 0 {
        notes.push(Note { to, size: 0 }).expect(rt, "memory");
    }
    notes
}

fn row_of(rt: &impl Abort, alloc: Global, act: Act) -> Row<Note, u32> {
    let (who, when, to) = act;
    Row {
        who,
        event: event_of(when),
        sent: notes_to(rt, alloc, to),
    }
}

fn journal(rt: &impl Abort, alloc: Global, acts: &[Act]) -> Journal<Note, u32> {
    let mut rows = Sequence::new(alloc);
    for act in acts {
        rows.push(row_of(rt, alloc, *act)).expect(rt, "memory");
    }
    rows
}

// Returns whether the rows are lawful for these lines.
fn lawful(rt: &impl Abort, alloc: Global, lines: &[Line<u32>], acts: &[Act]) -> bool {
    let rows = journal(rt, alloc, acts);
    let seats = pair(rt, alloc);
    assert!(rt; are_apart(&seats) && are_few(rows.as_slice()));
    let is_lawful = is_lawful(alloc, seats, lines, rows.as_slice()).expect(rt, "memory");
    forget(rows);
    is_lawful
}

// Returns which row, from 1, is the first that is not lawful, or 0 where all are.
fn bad_row(rt: &impl Abort, alloc: Global, lines: &[Line<u32>], acts: &[Act]) -> usize {
    let rows = journal(rt, alloc, acts);
    let seats = pair(rt, alloc);
    assert!(rt; are_apart(&seats) && are_few(rows.as_slice()));
    let bad = match replay(alloc, seats, lines, rows.as_slice()).expect(rt, "memory") {
        Verdict::Lawful(left) => {
            forget(left);
            0
        }
        Verdict::BadRow { at } => at,
    };
    forget(rows);
    bad
}

// Returns how many prefixes of the rows are lawful, of all prefixes from the empty one to the
// whole.
fn lawful_parts(rt: &impl Abort, alloc: Global, lines: &[Line<u32>], acts: &[Act]) -> usize {
    let mut parts = 0usize;
    for n in 0..=acts.len() {
        if lawful(rt, alloc, lines, acts.get(..n).unwrap_or(acts)) {
            parts = parts.saturating_add(1);
        }
    }
    parts
}

// Lines, rows, the number of prefixes of these that are lawful, and, where it is asked for, which
// row is the first that is not lawful, or 0.
type Case = (&'static [Line<u32>], &'static [Act], usize, Option<usize>);

fn is_so(rt: &impl Abort, alloc: Global, case: Case) -> bool {
    let (lines, acts, parts, bad) = case;
    let is_named = match bad {
        Some(bad) => bad_row(rt, alloc, lines, acts) == bad,
        None => true,
    };
    is_named && lawful_parts(rt, alloc, lines, acts) == parts
}

fn are_so(rt: &impl Abort, alloc: Global, cases: &[Case]) {
    for case in cases {
        assert!(rt; is_so(rt, alloc, *case));
    }
}

// What rows leave.
#[derive(Clone, Copy)]
struct Left {
    skipped: u64,
    // Whether a line was cut off.
    unsettled: bool,
    // Whether no mail is pending.
    quiet: bool,
    // The numbers of notes that each actor has left.
    notes: (u32, u32),
}

fn is_left(left: &Replayed<Player>, wanted: Left) -> bool {
    match left.seats.as_slice() {
        [one, two] => {
            left.skipped == wanted.skipped
                && left.unsettled == wanted.unsettled
                && left.quiet == wanted.quiet
                && one.actor.left == wanted.notes.0
                && two.actor.left == wanted.notes.1
        }
        _ => false,
    }
}

fn is_verdict(verdict: &Verdict<Player>, wanted: Option<Left>) -> bool {
    match (verdict, wanted) {
        (Verdict::Lawful(left), Some(wanted)) => is_left(left, wanted),
        (Verdict::BadRow { .. }, None) => true,
        _ => false,
    }
}

// Returns whether the rows leave this, or, where nothing is wanted, are not lawful.
fn leave(
    rt: &impl Abort,
    alloc: Global,
    lines: &[Line<u32>],
    acts: &[Act],
    wanted: Option<Left>,
) -> bool {
    let rows = journal(rt, alloc, acts);
    let seats = pair(rt, alloc);
    assert!(rt; are_apart(&seats) && are_few(rows.as_slice()));
    let verdict = replay(alloc, seats, lines, rows.as_slice()).expect(rt, "memory");
    let is_so = is_verdict(&verdict, wanted);
    forget(verdict);
    forget(rows);
    is_so
}

// Lines, rows, how many of these are taken, and what they leave.
type Leaving = (&'static [Line<u32>], &'static [Act], usize, Option<Left>);

fn are_left(rt: &impl Abort, alloc: Global, cases: &[Leaving]) {
    for (lines, acts, many, left) in cases {
        let acts = acts.get(..*many).unwrap_or(acts);
        assert!(rt; leave(rt, alloc, lines, acts, *left));
    }
}

// Returns whether the mail that the rows leave pending has these numbers.
fn leave_pending(
    rt: &impl Abort,
    alloc: Global,
    acts: &[Act],
    whose: Option<u32>,
    wanted: &[u32],
) -> bool {
    let rows = journal(rt, alloc, acts);
    let seats = pair(rt, alloc);
    assert!(rt; are_few(rows.as_slice()));
    let found = pending_of(alloc, &seats, rows.as_slice(), whose).expect(rt, "memory");
    let is_so = found.as_slice() == wanted;
    forget(found);
    forget(seats);
    forget(rows);
    is_so
}

// Actor 1 goes, and all mail is delivered.
const SETTLED: [Act; 5] = [
    (1, When::Go, 2),
    (2, When::Deliver(1), 1),
    (1, When::Deliver(2), 2),
    (2, When::Deliver(3), 1),
    (1, When::Deliver(4), 0),
];

// Rows with a repeat, two losses, a tick and a crash.
const TROUBLED: [Act; 8] = [
    (1, When::Go, 2),
    (0, When::Again(1), 0),
    (0, When::Drop(1), 0),
    (1, When::Tick, 2),
    (0, When::Drop(1), 0),
    (2, When::Deliver(2), 1),
    (2, When::Crash, 0),
    (1, When::Deliver(3), 0),
];

const GO_AND_SETTLE: &[Line<u32>] = &[Line::Go { who: 1 }, Line::Settle { most: 10 }];

const GO_AND_FREE: &[Line<u32>] = &[
    Line::Go { who: 1 },
    Line::Free {
        most: 10,
        workers: 1,
    },
];

const GO_AND_TWO: &[Line<u32>] = &[Line::Go { who: 1 }, Line::Settle { most: 2 }];

const OTHER_GOES: &[Line<u32>] = &[Line::Go { who: 2 }, Line::Settle { most: 10 }];

const LAWFUL: &[Case] = &[
    (GO_AND_SETTLE, &SETTLED, 6, Some(0)),
    (GO_AND_FREE, &SETTLED, 6, None),
    (GO_AND_TWO, &SETTLED, 4, None),
    (OTHER_GOES, &SETTLED, 1, None),
];

#[test]
fn the_tables_rows_are_lawful(rt: HostRuntime) {
    are_so(&rt, rt.alloc(), LAWFUL);
}

// Rows that are changed: the second row left out, the first one twice, and the second one by
// another actor, to another receiver, without its note, and at another event.
const LEFT_OUT: [Act; 2] = [(1, When::Go, 2), (1, When::Deliver(2), 2)];

const TWICE: [Act; 2] = [(1, When::Go, 2), (1, When::Go, 2)];

const BY_ANOTHER: [Act; 2] = [(1, When::Go, 2), (1, When::Deliver(1), 1)];

const TO_ANOTHER: [Act; 2] = [(1, When::Go, 2), (2, When::Deliver(1), 2)];

const WITHOUT_NOTE: [Act; 2] = [(1, When::Go, 2), (2, When::Deliver(1), 0)];

const AT_ANOTHER: [Act; 2] = [(1, When::Go, 2), (2, When::Tick, 1)];

// Rows with one note too many.
const ONE_MORE: [Act; 5] = [
    (1, When::Go, 2),
    (2, When::Deliver(1), 1),
    (1, When::Deliver(2), 2),
    (2, When::Deliver(3), 1),
    (1, When::Deliver(4), 2),
];

const CHANGED: &[Case] = &[
    (GO_AND_SETTLE, &LEFT_OUT, 2, Some(2)),
    (GO_AND_SETTLE, &TWICE, 2, Some(2)),
    (GO_AND_SETTLE, &BY_ANOTHER, 2, Some(2)),
    (GO_AND_SETTLE, &TO_ANOTHER, 2, Some(2)),
    (GO_AND_SETTLE, &WITHOUT_NOTE, 2, Some(2)),
    (GO_AND_SETTLE, &AT_ANOTHER, 2, Some(2)),
    (GO_AND_SETTLE, &ONE_MORE, 5, Some(5)),
];

#[test]
fn changed_rows_are_not_lawful(rt: HostRuntime) {
    are_so(&rt, rt.alloc(), CHANGED);
}

const BOTH_AND_FREE: &[Line<u32>] = &[
    Line::Go { who: 1 },
    Line::Go { who: 2 },
    Line::Free {
        most: 2,
        workers: 2,
    },
];

const BOTH_AND_TWO: &[Line<u32>] = &[
    Line::Go { who: 1 },
    Line::Go { who: 2 },
    Line::Settle { most: 2 },
];

const SECOND_FIRST: [Act; 4] = [
    (1, When::Go, 2),
    (2, When::Go, 1),
    (1, When::Deliver(2), 2),
    (2, When::Deliver(1), 1),
];

// Rows in which an actor gets a later mail before its first.
const LATER_MAIL: [Act; 4] = [
    (1, When::Go, 2),
    (2, When::Go, 1),
    (1, When::Deliver(2), 2),
    (2, When::Deliver(3), 1),
];

const ORDERS: &[Case] = &[
    (BOTH_AND_TWO, &SECOND_FIRST, 3, None),
    (BOTH_AND_FREE, &LATER_MAIL, 4, None),
];

const SECOND_FIRST_LEFT: &[Leaving] = &[(
    BOTH_AND_FREE,
    &SECOND_FIRST,
    4,
    Some(Left {
        skipped: 0,
        unsettled: true,
        quiet: false,
        notes: (0, 0),
    }),
)];

#[test]
fn free_lines_leave_the_order_of_actors_open(rt: HostRuntime) {
    are_left(&rt, rt.alloc(), SECOND_FIRST_LEFT);
    are_so(&rt, rt.alloc(), ORDERS);
}

const SKIPPED: &[Line<u32>] = &[
    Line::Go { who: 1 },
    Line::Go { who: 1 },
    Line::Deliver { who: 2, k: 2 },
    Line::Again { mail: 1 },
    Line::Drop { who: 2, k: 1 },
    Line::Tick { who: 1 },
    Line::Drop { who: 2, k: 1 },
    Line::Deliver { who: 2, k: 2 },
    Line::Deliver { who: 2, k: 1 },
    Line::Crash { who: 2 },
    Line::Told { who: 2, order: 7 },
    Line::Again { mail: 1 },
    Line::Deliver { who: 2, k: 1 },
    Line::Settle { most: 5 },
];

const SKIPPED_LEFT: &[Leaving] = &[(
    SKIPPED,
    &TROUBLED,
    8,
    Some(Left {
        skipped: 6,
        unsettled: false,
        quiet: true,
        notes: (0, 1),
    }),
)];

#[test]
fn lines_are_skipped_where_they_make_no_row(rt: HostRuntime) {
    are_so(&rt, rt.alloc(), &[(SKIPPED, &TROUBLED, 9, None)]);
    are_left(&rt, rt.alloc(), SKIPPED_LEFT);
}

const TWO_SETTLES: &[Line<u32>] = &[
    Line::Deliver { who: 2, k: 1 },
    Line::Go { who: 1 },
    Line::Settle { most: 2 },
    Line::Settle { most: 9 },
];

// `SETTLED` without its first row.
const HEADLESS: [Act; 4] = [
    (2, When::Deliver(1), 1),
    (1, When::Deliver(2), 2),
    (2, When::Deliver(3), 1),
    (1, When::Deliver(4), 0),
];

const PARTS_LEFT: &[Leaving] = &[
    (
        TWO_SETTLES,
        &SETTLED,
        0,
        Some(Left {
            skipped: 1,
            unsettled: false,
            quiet: true,
            notes: (2, 2),
        }),
    ),
    (
        TWO_SETTLES,
        &SETTLED,
        2,
        Some(Left {
            skipped: 1,
            unsettled: false,
            quiet: false,
            notes: (1, 1),
        }),
    ),
    (
        TWO_SETTLES,
        &SETTLED,
        3,
        Some(Left {
            skipped: 1,
            unsettled: true,
            quiet: false,
            notes: (0, 1),
        }),
    ),
    (
        TWO_SETTLES,
        &SETTLED,
        5,
        Some(Left {
            skipped: 1,
            unsettled: true,
            quiet: true,
            notes: (0, 0),
        }),
    ),
    (TWO_SETTLES, &HEADLESS, 4, None),
];

#[test]
fn a_replay_returns_what_rows_leave(rt: HostRuntime) {
    are_left(&rt, rt.alloc(), PARTS_LEFT);
}

// The pending mail of all actors, or of one, after this number of rows of `TROUBLED`.
const PENDING: &[(usize, Option<u32>, &[u32])] = &[
    (0, None, &[]),
    (1, None, &[1]),
    (2, None, &[1, 1]),
    (3, None, &[1]),
    (4, None, &[1, 2]),
    (5, None, &[2]),
    (6, None, &[3]),
    (7, None, &[3]),
    (8, None, &[]),
    (4, Some(1), &[]),
    (4, Some(2), &[1, 2]),
];

#[test]
fn pending_mail_is_looked_up(rt: HostRuntime) {
    for (many, whose, wanted) in PENDING {
        let acts = TROUBLED.as_slice().get(..*many).unwrap_or(&[]);
        assert!(rt; leave_pending(&rt, rt.alloc(), acts, *whose, wanted));
    }
}
