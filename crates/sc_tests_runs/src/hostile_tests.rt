//! Hostile use: a write error at each call of the sink, an input that ends after each of its lines,
//! a read error behind some bytes, and a journal that the next row would fill.
ghost use Rattle.std.specs.Prelude.{◌≤◌, ◌^◌};

use crate::gates::Open;
use crate::replay_tests::scenario_of;
use crate::run_tests::{Case, FIRST, FIRST_REPORT, check, check_all};
use crate::thread_tests::add;
use sc_actor::{Journal, Played};
use sc_mail::Mail;
use sc_run::{Left, full_text, play_whole};
use sc_thread_workers::Way;
use sc_words::OrderLine;
use std::alloc::Global;
use std::mem::forget;
use std::process::Abort;
use std::sync::Wait;
use std::thread::Threads;

const FULL_AFTER_TWO: &[u8] = b"journal full after 2 rows\n";

// Returns the first lines of a text, as many as `count` says.
fn first_lines(text: &[u8], count: u64) -> &[u8] {
    let mut bytes = 0usize;
    let mut lines = 0u64;
    for byte in text {
        if lines >= count {
            break;
        }
        bytes = bytes.saturating_add(1);
        if *byte == b'\n' {
            lines = lines.saturating_add(1);
        }
    }
    text.get(..bytes).unwrap_or(text)
}

// Each line of the report is one call, and it has nine.
#[test]
fn a_failing_sink_holds_the_lines_before(rt: HostRuntime) {
    for call in 1..10u64 {
        let lines = first_lines(FIRST_REPORT, call.saturating_sub(1));
        check(&rt, rt.alloc(), ("run", FIRST, 0, call), (5, true, lines));
    }
    check(
        &rt,
        rt.alloc(),
        ("run", FIRST, 0, 10),
        (0, true, FIRST_REPORT),
    );
}

// A write error overrides the status of the text, whichever that is.
const SINK_FAILS: &[Case] = &[
    (("make 0 7", FIRST, 0, 1), (5, false, b"")),
    (("run", b"", 0, 1), (5, false, b"")),
    (("run", FIRST, 1, 1), (5, false, b"")),
    (("run", FIRST, 0, 1), (5, true, b"")),
    (("make 1 7", b"", 0, 2), (5, true, b"scatter report 1\n")),
];

#[test]
fn a_failing_sink_overrides_each_status(rt: HostRuntime) {
    check_all(&rt, rt.alloc(), SINK_FAILS);
}

const NO_CLIENT: &[u8] =
    b"scatter report 1\nring 0 group 0.1 members 1\nrows 0\nmail 0\ndelivered 0\nskipped 0\n\
        quiet yes\n";

const NOT_STARTED: &[u8] =
    b"scatter report 1\nunsent 1 1 put\nunsent 1 2 get\nring 0 group 0.1 members 1\nrows 0\n\
        mail 0\ndelivered 0\nskipped 0\nquiet yes\n";

const NOTHING_DELIVERED: &[u8] =
    b"scatter report 1\nunanswered 1 1 put\nunsent 1 2 get\nring 0 group 0.1 members 1\nrows 1\n\
        mail 1\ndelivered 0\nskipped 0\nquiet no\n";

// Returns what comes of the first lines of a put and a get.
const TRUNCATED: &[(u64, (u8, bool, &[u8]))] = &[
    (0, (3, false, b"line 1: missing header\n")),
    (1, (3, false, b"line 2: missing part\n")),
    (2, (3, false, b"line 3: missing part\n")),
    (3, (0, true, NO_CLIENT)),
    (4, (3, false, b"line 5: unended client\n")),
    (5, (3, false, b"line 6: unended client\n")),
    (6, (3, false, b"line 7: unended client\n")),
    (7, (0, true, NOT_STARTED)),
    (8, (0, true, NOTHING_DELIVERED)),
];

#[test]
fn inputs_that_end_early_are_refused_or_run_as_far(rt: HostRuntime) {
    for (count, expected) in TRUNCATED {
        let input = first_lines(FIRST, *count);
        check(&rt, rt.alloc(), ("run", input, 0, 0), *expected);
    }
}

// The put and the get behind enough lines of comment that a read takes three calls, the last of
// which finds the end.
fn long_input(rt: &impl Abort, alloc: Global) -> Vec<u8> {
    let mut text = Vec::new(alloc);
    add(rt, &mut text, b"scatter 1\n");
    for i in 0..1200u32 {
        let _ = i;
        add(rt, &mut text, b"# x\n");
    }
    let head = first_lines(FIRST, 1).len();
    add(rt, &mut text, FIRST.get(head..).unwrap_or(b""));
    text
}

// The call of the source that fails, and what comes of it.
const SOURCE_FAILS: &[(u64, (u8, bool, &[u8]))] = &[
    (1, (4, false, b"read fault\n")),
    (2, (4, false, b"read fault\n")),
    (3, (4, false, b"read fault\n")),
    (4, (0, true, FIRST_REPORT)),
];

#[test]
fn a_source_that_fails_after_bytes_were_taken_leaves_no_journal(rt: HostRuntime) {
    let input = long_input(&rt, rt.alloc());
    for (call, expected) in SOURCE_FAILS {
        check(&rt, rt.alloc(), ("run", &input, *call, 0), *expected);
    }
    check(
        &rt,
        rt.alloc(),
        ("run", FIRST, 2, 0),
        (4, false, b"read fault\n"),
    );
}

// Plays the put and the get within a limit, and returns what is left.
fn left_within<R: Abort + Threads + Wait + Sync>(rt: &R, alloc: Global, limit: u64) -> Left
    requires { limit ≤ 2 ^ 30 }
{
    let scenario = scenario_of(rt, alloc, FIRST);
    let left = play_whole(rt, alloc, Way::Runs, &scenario, limit, &Open).expect(rt, "memory");
    forget(scenario);
    left
}

// Returns how a play of the put and the get within a limit ends, and the number of rows it leaves.
fn played_within<R: Abort + Threads + Wait + Sync>(
    rt: &R,
    alloc: Global,
    limit: u64,
) -> (Played, usize)
    requires { limit ≤ 2 ^ 30 }
{
    let Left {
        played,
        journal,
        parties,
    } = left_within(rt, alloc, limit);
    let rows = journal.len();
    forget(journal);
    forget(parties);
    (played, rows)
}

const WHOLE: Played = Played::Ended {
    unsettled: false,
    quiet: true,
    skipped: 0,
};

// The nine rows count 322, 322, 320, 320, 321, 321, 320, 321 and 64 bytes.
#[test]
fn a_journal_ends_where_the_next_row_would_pass_its_limit(rt: HostRuntime) {
    let whole = played_within(&rt, rt.alloc(), 2631);
    let eight = played_within(&rt, rt.alloc(), 2630);
    let none = played_within(&rt, rt.alloc(), 321);
    assert!(rt; whole == (WHOLE, 9));
    assert!(rt; eight == (Played::Full, 8) && none == (Played::Full, 0));
}

// Returns whether the text about a journal is the line that it is full after two rows.
fn is_full_after_two(rt: &impl Abort, alloc: Global, journal: Journal<Mail, OrderLine>) -> bool {
    let text = full_text(alloc, journal).expect(rt, "memory");
    match text.lines.as_slice() {
        [line] => line.bytes() == FULL_AFTER_TWO,
        _ => false,
    }
}

#[test]
fn full_after_two(rt: HostRuntime) {
    let Left {
        played,
        journal,
        parties,
    } = left_within(&rt, rt.alloc(), 700);
    forget(parties);
    assert!(rt; played == Played::Full && journal.len() == 2);
    assert!(rt; is_full_after_two(&rt, rt.alloc(), journal));
}
