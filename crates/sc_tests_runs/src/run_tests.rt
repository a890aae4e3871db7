use crate::gates::Open;
use crate::replay_tests::named;
use sc_actor::{Gate, Parcel, Row};
use sc_mail::Mail;
use sc_run::{Done, run};
use sc_texts::{MemSink, MemSource};
use sc_words::OrderLine;
use std::alloc::Global;
use std::mem::forget;
use std::process::Abort;
use std::sync::Wait;
use std::thread::Threads;

/// The arguments, the input, and the call of the source and that of the sink that fail (0: none).
pub type Given = (&'static str, &'static [u8], u64, u64);

/// What must come: the status, whether there is a journal, and the output.
pub type Expected = (u8, bool, &'static [u8]);

/// What a run is given, and what must come of it.
pub type Case = (Given, Expected);

/// A put and a get of one client at one node.
pub const FIRST: &[u8] =
    b"scatter 1\nnodes 1\ngroup 0 1\nclient 1\nput a x\nget a\nend\ngo 1\nsettle 100\n";

/// The report on it.
pub const FIRST_REPORT: &[u8] =
    b"scatter report 1\nreply 1 1 put none\nreply 1 2 get value x\nring 0 group 0.1 members 1\n\
        rows 9\nmail 8\ndelivered 8\nskipped 0\nquiet yes\n";

/// The text about arguments outside the grammar.
pub const USAGE: &[u8] = b"usage: scatter run | scatter make N S | scatter journal | scatter audit \
        | scatter scan LO LEN R MOST | scatter pool | scatter explain\n";

/// A run that is cut off with mail pending.
pub const CUT_SHORT: &[u8] =
    b"scatter 1\nnodes 1\ngroup 0 1\nclient 1\nput a x\nget a\nend\ngo 1\nsettle 1\n";

// One delivery by a pool is all that the line allows.
const FREE_ONCE: &[u8] =
    b"scatter 1\nnodes 1\ngroup 0 1\nclient 1\nput a x\nget a\nend\ngo 1\nfree 1 4\n";

/// The report on the run that is cut off.
pub const CUT_SHORT_REPORT: &[u8] =
    b"scatter report 1\nunanswered 1 1 put\nunsent 1 2 get\nring 0 group 0.1 members 1\nrows 2\n\
        mail 2\ndelivered 1\nskipped 0\nquiet no\n";

/// The same put and get with other blanks, carriage returns and a comment.
const LOOSE: &[u8] = b"scatter 1\r\n# x\r\n\tnodes\t1\r\n\tgroup\t0\t1\r\n\tclient\t1\r\n\
        \tput\ta\tx\r\n\tget\ta\r\n\tend\r\n\tgo\t1\r\n\tsettle\t100\r\n";

const CONDITIONAL: &[u8] =
    b"scatter 2\nnodes 1\ngroup 0 1\nclient 1\nadd a x\nadd a y\ncas a x z\ncas a x w\n\
        cas b x w\nget a\nend\ngo 1\nsettle 100\n";

const CONDITIONAL_REPORT: &[u8] =
    b"scatter report 2\nreply 1 1 add none\nreply 1 2 add value x\nreply 1 3 cas value x\n\
        reply 1 4 cas value z\nreply 1 5 cas none\nreply 1 6 get value z\n\
        ring 0 group 0.1 members 1\nrows 25\nmail 24\ndelivered 24\nskipped 0\nquiet yes\n";

const LONGEST: &[u8] = b"scatter 1\nnodes 1\ngroup 0 1\nclient 1\n\
        put kkkkkkkkkkkkkkkkkkkkkkkkkkkkkkkkkkkkkkkkkkkkkkkkkkkkkkkkkkkkkkkk \
        vvvvvvvvvvvvvvvvvvvvvvvvvvvvvvvvvvvvvvvvvvvvvvvvvvvvvvvvvvvvvvvv\
        vvvvvvvvvvvvvvvvvvvvvvvvvvvvvvvvvvvvvvvvvvvvvvvvvvvvvvvvvvvvvvvv\
        vvvvvvvvvvvvvvvvvvvvvvvvvvvvvvvvvvvvvvvvvvvvvvvvvvvvvvvvvvvvvvvv\
        vvvvvvvvvvvvvvvvvvvvvvvvvvvvvvvvvvvvvvvvvvvvvvvvvvvvvvvvvvvvvvvv\n\
        get kkkkkkkkkkkkkkkkkkkkkkkkkkkkkkkkkkkkkkkkkkkkkkkkkkkkkkkkkkkkkkkk\nend\n\
        go 1\nsettle 100\n";

const LONGEST_REPORT: &[u8] = b"scatter report 1\nreply 1 1 put none\nreply 1 2 get value \
        vvvvvvvvvvvvvvvvvvvvvvvvvvvvvvvvvvvvvvvvvvvvvvvvvvvvvvvvvvvvvvvv\
        vvvvvvvvvvvvvvvvvvvvvvvvvvvvvvvvvvvvvvvvvvvvvvvvvvvvvvvvvvvvvvvv\
        vvvvvvvvvvvvvvvvvvvvvvvvvvvvvvvvvvvvvvvvvvvvvvvvvvvvvvvvvvvvvvvv\
        vvvvvvvvvvvvvvvvvvvvvvvvvvvvvvvvvvvvvvvvvvvvvvvvvvvvvvvvvvvvvvvv\n\
        ring 0 group 0.1 members 1\n\
        rows 9\nmail 8\ndelivered 8\nskipped 0\nquiet yes\n";

const UNENDED: &[u8] = b"scatter 1\nnodes 1\ngroup 0 1\nclient 1\nput a x\n";

const CAS_IN_VERSION_ONE: &[u8] =
    b"scatter 1\nnodes 1\ngroup 0 1\nclient 1\ncas a x z\nget a\nend\ngo 1\nsettle 100\n";

const VERSION_THREE: &[u8] =
    b"scatter 3\nnodes 1\ngroup 0 1\nclient 1\nput a x\nget a\nend\ngo 1\nsettle 100\n";

const MAKE_ONE_REPORT: &[u8] = b"scatter report 1\nanswered 16 of 16\n\
        ring 0 group 0.1 members 1 2 3\nring 1342177280 group 0.2 members 4 5 6\n\
        ring 1744830464 group 0.3 members 7 8 9\nrows 210\nmail 194\ndelivered 194\nskipped 0\n\
        quiet yes\n";

const MAKE_TWENTY_REPORT: &[u8] = b"scatter report 1\nanswered 320 of 320\n\
        ring 0 group 0.1 members 1 2 3\nring 1342177280 group 0.2 members 4 5 6\n\
        ring 1744830464 group 0.3 members 7 8 9\nrows 3280\nmail 3264\ndelivered 3264\n\
        skipped 0\nquiet yes\n";

const MAKE_TWO_HUNDRED_REPORT: &[u8] = b"scatter report 1\nanswered 3200 of 3200\n\
        ring 0 group 0.1 members 1 2 3\nring 1342177280 group 0.2 members 4 5 6\n\
        ring 1744830464 group 0.3 members 7 8 9\nrows 32080\nmail 32064\ndelivered 32064\n\
        skipped 0\nquiet yes\n";

// Returns the words of a text, or none where it is empty.
fn words_of(rt: &impl Abort, alloc: Global, text: &str) -> Vec<String> {
    let mut words = Vec::new(alloc);
    if text.is_empty() {
        return words;
    }
    for word in text.split(' ') {
        let word = String::from_str(alloc, word).expect(rt, "memory");
        words.push(word).expect(rt, "memory");
    }
    words
}

// Returns how a run of these arguments ends on an input, with a read error at this call of the
// source (0: none).
fn ended<G: Gate, R: Abort + Threads + Wait + Sync>(
    rt: &R,
    alloc: Global,
    text: &str,
    input: (&[u8], u64),
    output: &mut MemSink,
    gate: &G,
) -> Done {
    let words = words_of(rt, alloc, text);
    let mut source = MemSource::new(alloc, input.0, &[input.1]).expect(rt, "memory");
    let done = run(rt, alloc, &words, &mut source, output, gate);
    forget(words);
    forget(source);
    done
}

/// What must come of a run.
#[derive(Clone, Copy)]
pub enum Wanted<'a> {
    /// The status, whether there is a journal, and the output.
    Exactly(u8, bool, &'a [u8]),
    /// It ends settled, its report begins with this, and its journal is lawful.
    Lawful(&'a [u8]),
    /// Its rows count these numbers of bytes.
    Counts(&'a [u64]),
}

fn has_lawful(rt: &impl Abort, alloc: Global, input: &[u8], done: &Done) -> bool {
    match &done.journal {
        Some(journal) => named(rt, alloc, input, journal) == 0,
        None => false,
    }
}

fn counts(done: &Done, bytes: &[u64]) -> bool {
    match &done.journal {
        Some(journal) => all_count(journal.as_slice(), bytes),
        None => false,
    }
}

// Returns whether that came of a run on an input, with this output.
fn is_wanted(
    rt: &impl Abort,
    alloc: Global,
    input: &[u8],
    (done, held): (&Done, &[u8]),
    wanted: Wanted<'_>,
) -> bool {
    match wanted {
        Wanted::Exactly(status, has_journal, text) => {
            done.status == status && done.journal.is_some() == has_journal && held == text
        }
        Wanted::Lawful(begin) => {
            done.status == 0 && held.starts_with(begin) && has_lawful(rt, alloc, input, done)
        }
        Wanted::Counts(bytes) => counts(done, bytes),
    }
}

/// Returns whether that comes of a run that is given this, through a gate.
pub fn comes<G: Gate, R: Abort + Threads + Wait + Sync>(
    rt: &R,
    alloc: Global,
    given: (&str, &[u8], u64, u64),
    wanted: Wanted<'_>,
    gate: &G,
) -> bool {
    let (words, input, source_fails, sink_fails) = given;
    let mut output = MemSink::new(alloc, 10_000, &[sink_fails]).expect(rt, "memory");
    let done = ended(rt, alloc, words, (input, source_fails), &mut output, gate);
    let comes = is_wanted(rt, alloc, input, (&done, output.held()), wanted);
    forget(done);
    forget(output);
    comes
}

/// Checks that a run that is given this ends with what must come.
pub fn check<R: Abort + Threads + Wait + Sync>(
    rt: &R,
    alloc: Global,
    given: (&str, &[u8], u64, u64),
    expected: (u8, bool, &[u8]),
) {
    let (status, has_journal, text) = expected;
    let wanted = Wanted::Exactly(status, has_journal, text);
    assert!(rt; comes(rt, alloc, given, wanted, &Open));
}

/// Checks that runs that are given these end with what must come.
pub fn check_all<R: Abort + Threads + Wait + Sync>(rt: &R, alloc: Global, cases: &[Case]) {
    for (given, expected) in cases {
        check(rt, alloc, *given, *expected);
    }
}

const CASES: &[Case] = &[
    (("run", FIRST, 0, 0), (0, true, FIRST_REPORT)),
    (("pool", FIRST, 0, 0), (0, true, FIRST_REPORT)),
    (("run", CUT_SHORT, 0, 0), (6, true, CUT_SHORT_REPORT)),
    (("pool", FREE_ONCE, 0, 0), (6, true, CUT_SHORT_REPORT)),
    (("pool", FIRST, 1, 0), (4, false, b"read fault\n")),
    (("run", FIRST, 0, 2), (5, true, b"scatter report 1\n")),
    (("run", FIRST, 1, 0), (4, false, b"read fault\n")),
    (("make 0 7", FIRST, 0, 0), (2, false, USAGE)),
    (("run", b"", 0, 0), (3, false, b"line 1: missing header\n")),
    (("run", LOOSE, 0, 0), (0, true, FIRST_REPORT)),
    (("run", CONDITIONAL, 0, 0), (0, true, CONDITIONAL_REPORT)),
    (("run", LONGEST, 0, 0), (0, true, LONGEST_REPORT)),
    (
        ("run", UNENDED, 0, 0),
        (3, false, b"line 6: unended client\n"),
    ),
    (
        ("run", CAS_IN_VERSION_ONE, 0, 0),
        (3, false, b"line 5: unknown word\n"),
    ),
    (
        ("run", VERSION_THREE, 0, 0),
        (3, false, b"line 1: missing header\n"),
    ),
    (("", FIRST, 0, 0), (2, false, USAGE)),
    (("make 1001 7", FIRST, 0, 0), (2, false, USAGE)),
    (("run run", FIRST, 0, 0), (2, false, USAGE)),
    (("pool 4", FIRST, 0, 0), (2, false, USAGE)),
    (("make 1 -7", FIRST, 0, 0), (2, false, USAGE)),
    (("make 1", FIRST, 0, 0), (2, false, USAGE)),
];

#[test]
fn each_status_comes_with_its_text(rt: HostRuntime) {
    check_all(&rt, rt.alloc(), CASES);
}

// The source would fail at its first call.
const MADE: &[Case] = &[
    (("make 1 7", b"", 1, 0), (0, true, MAKE_ONE_REPORT)),
    (("make 20 7", b"", 1, 0), (0, true, MAKE_TWENTY_REPORT)),
    (
        ("make 200 7", b"", 1, 0),
        (0, true, MAKE_TWO_HUNDRED_REPORT),
    ),
];

#[test]
fn made_scenarios_run_without_an_input(rt: HostRuntime) {
    check_all(&rt, rt.alloc(), MADE);
}

// Returns what a row counts: 64, and for each mail 256 and its weight.
fn row_bytes(row: &Row<Mail, OrderLine>) -> u64 {
    let mut total = 64u64;
    for mail in row.sent.as_slice() {
        total = total.saturating_add(256).saturating_add(mail.weight());
    }
    total
}

// Returns whether the rows count these numbers, one after another, and are no more and no fewer.
fn all_count(rows: &[Row<Mail, OrderLine>], bytes: &[u64]) -> bool {
    for (row, count) in rows.iter().zip(bytes.iter()) {
        if row_bytes(row) != *count {
            return false;
        }
    }
    rows.len() == bytes.len()
}

const FIRST_COUNTS: &[u64] = &[322, 322, 320, 320, 321, 321, 320, 321, 64];

#[test]
fn rows_count_what_their_mails_weigh(rt: HostRuntime) {
    let wanted = Wanted::Counts(FIRST_COUNTS);
    assert!(rt; comes(&rt, rt.alloc(), ("run", FIRST, 0, 0), wanted, &Open));
}

const ONE_CRASHED: &[u8] =
    b"scatter 1\nnodes 3\ngroup 0 1 2 3\nclient 1\nput a x\nend\ncrash 3\ngo 1\nsettle 100\n";

const ONE_CRASHED_REPORT: &[u8] =
    b"scatter report 1\nreply 1 1 put none\nring 0 group 0.1 members 1 2 3\nrows 9\nmail 9\n\
        delivered 7\nskipped 0\nquiet yes\n";

const MAJORITY_CRASHED: &[u8] =
    b"scatter 1\nnodes 3\ngroup 0 1 2 3\nclient 1\nput a x\nend\ncrash 2\ncrash 3\ngo 1\n\
        settle 100\n";

const MAJORITY_CRASHED_REPORT: &[u8] =
    b"scatter report 1\nunanswered 1 1 put\nring 0 group 0.1 members 1 2 3\nrows 6\nmail 5\n\
        delivered 3\nskipped 0\nquiet yes\n";

/// The mail that asks a node to accept a put comes three times.
pub const ACCEPT_THRICE: &[u8] =
    b"scatter 1\nnodes 1\ngroup 0 1\nclient 1\nput a x\nend\ngo 1\ndeliver n1 1\nagain 2\n\
        again 2\nsettle 100\n";

const ACCEPT_THRICE_REPORT: &[u8] =
    b"scatter report 1\nreply 1 1 put none\nring 0 group 0.1 members 1\nrows 11\nmail 6\n\
        delivered 8\nskipped 0\nquiet yes\n";

/// A second node is elected while the first still sends.
pub const TWO_LEADERS: &[u8] =
    b"scatter 1\nnodes 3\ngroup 0 1 2 3\nclient 1\nput a x\nend\ngo 1\ndeliver n1 1\ntick n2\n\
        deliver n3 2\ndeliver n2 2\nsettle 100\n";

const TWO_LEADERS_REPORT: &[u8] =
    b"scatter report 1\nreply 1 1 put none\nring 0 group 0.1 members 1 2 3\nrows 35\nmail 33\n\
        delivered 33\nskipped 0\nquiet yes\n";

const SKIPPED_DELIVERY: &[u8] = b"scatter 1\nnodes 1\ngroup 0 1\ndeliver n1 3\n";

const SKIPPED_DELIVERY_REPORT: &[u8] =
    b"scatter report 1\nring 0 group 0.1 members 1\nrows 0\nmail 0\ndelivered 0\nskipped 1\n\
        quiet yes\n";

const PUT_PUT_DEL_GET: &[u8] =
    b"scatter 1\nnodes 1\ngroup 0 1\nclient 1\nput a x\nput a y\ndel a\nget a\nend\ngo 1\n\
        settle 100\n";

const PUT_PUT_DEL_GET_REPORT: &[u8] =
    b"scatter report 1\nreply 1 1 put none\nreply 1 2 put value x\nreply 1 3 del value y\n\
        reply 1 4 get none\nring 0 group 0.1 members 1\nrows 17\nmail 16\ndelivered 16\n\
        skipped 0\nquiet yes\n";

const FOUR_UNANSWERED: &[u8] =
    b"scatter 1\nnodes 1\ngroup 0 1\nclient 1\nput a x\nend\nclient 2\nput b y\nend\ngo 1\ngo 2\n\
        settle 2\n";

const FOUR_UNANSWERED_REPORT: &[u8] =
    b"scatter report 1\nunanswered 1 1 put\nunanswered 2 1 put\nring 0 group 0.1 members 1\n\
        rows 4\nmail 4\ndelivered 2\nskipped 0\nquiet no\n";

// Five requests come to a leader and nothing else: four are offered at the four open slots, and the
// fifth waits.
const FIFTH_WAITS: &[u8] =
    b"scatter 1\nnodes 1\ngroup 0 1\nclient 1\nput a x\nend\nclient 2\nput b x\nend\nclient 3\n\
        put c x\nend\nclient 4\nput d x\nend\nclient 5\nput e x\nend\ngo 1\ngo 2\ngo 3\ngo 4\n\
        go 5\ndeliver n1 1\ndeliver n1 1\ndeliver n1 1\ndeliver n1 1\ndeliver n1 1\n";

const FIFTH_WAITS_REPORT: &[u8] =
    b"scatter report 1\nunanswered 1 1 put\nunanswered 2 1 put\nunanswered 3 1 put\n\
        unanswered 4 1 put\nunanswered 5 1 put\nring 0 group 0.1 members 1\nrows 10\nmail 9\n\
        delivered 5\nskipped 0\nquiet no\n";

// A node joins, the leader leaves, and the other serves a request.
const LEADER_LEAVES: &[u8] =
    b"scatter 1\nnodes 2\ngroup 0 1\nclient 1\nput a x\nend\norder 1 join 2 0.1\nsettle 100\n\
        order 1 leave 1 0.1\nsettle 100\ngo 1\nsettle 100\n";

const LEADER_LEAVES_REPORT: &[u8] =
    b"scatter report 1\nreply 1 1 put none\norder 1 done\norder 2 done\n\
        ring 0 group 0.1 members 2\nrows 19\nmail 19\ndelivered 16\nskipped 0\nquiet yes\n";

const JOIN_LEAVE_REFUSALS: &[u8] =
    b"scatter 1\nnodes 2\ngroup 0 1\norder 2 join 2 0.1\norder 1 join 1 0.1\n\
        order 1 leave 2 0.1\norder 1 leave 1 0.1\n";

const JOIN_LEAVE_REFUSALS_REPORT: &[u8] =
    b"scatter report 1\norder 1 refused 1 not-leader\norder 2 refused 9 is-member\n\
        order 3 refused 6 not-member\norder 4 refused 7 last-member\nring 0 group 0.1 members 1\n\
        rows 4\nmail 4\ndelivered 0\nskipped 0\nquiet yes\n";

/// An input whose run keeps a journal, its status and its report.
pub type TableRow = (&'static [u8], u8, &'static [u8]);

/// Checks the rows of a table, where workers take runs of shells and where they are a pool.
pub fn check_rows<R: Abort + Threads + Wait + Sync>(rt: &R, alloc: Global, rows: &[TableRow]) {
    for (input, status, report) in rows {
        for word in ["run", "pool"] {
            check(rt, alloc, (word, *input, 0, 0), (*status, true, *report));
        }
    }
}

const ROWS: &[TableRow] = &[
    (ONE_CRASHED, 0, ONE_CRASHED_REPORT),
    (MAJORITY_CRASHED, 0, MAJORITY_CRASHED_REPORT),
    (ACCEPT_THRICE, 0, ACCEPT_THRICE_REPORT),
    (TWO_LEADERS, 0, TWO_LEADERS_REPORT),
    (SKIPPED_DELIVERY, 0, SKIPPED_DELIVERY_REPORT),
    (PUT_PUT_DEL_GET, 0, PUT_PUT_DEL_GET_REPORT),
    (FOUR_UNANSWERED, 6, FOUR_UNANSWERED_REPORT),
    (FIFTH_WAITS, 0, FIFTH_WAITS_REPORT),
    (LEADER_LEAVES, 0, LEADER_LEAVES_REPORT),
    (JOIN_LEAVE_REFUSALS, 0, JOIN_LEAVE_REFUSALS_REPORT),
];

#[test]
fn rows_of_one_group(rt: HostRuntime) {
    check_rows(&rt, rt.alloc(), ROWS);
}

// The line of deliveries is cut off at its limit, and the last line brings the rest.
const FREE_CUT_SHORT: &[u8] =
    b"scatter 1\nnodes 1\ngroup 0 1\nclient 1\nput a x\nget a\nend\ngo 1\nfree 1 4\nsettle 100\n";

#[test]
fn later_lines_run_after_one_that_is_cut_off(rt: HostRuntime) {
    check_rows(&rt, rt.alloc(), &[(FREE_CUT_SHORT, 6, FIRST_REPORT)]);
}
