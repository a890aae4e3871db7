//! Journals that are stored, audited and explained: worked files, of which another program printed
//! the first, and what its rows decided.

use crate::run_tests::{Case, Expected, FIRST, FIRST_REPORT, USAGE, check, check_all};
use crate::thread_tests::add;
use std::alloc::Global;
use std::mem::forget;
use std::process::Abort;
use std::sync::Wait;
use std::thread::Threads;

// The journal of a put and a get of one client at one node.
const STORED: &[u8] = b"scatter 1\n\
        nodes 1\n\
        group 0 1\n\
        client 1\n\
        put a x\n\
        get a\n\
        end\n\
        go 1\n\
        settle 100\n\
        journal\n\
        {\"event\":\"Go\",\"sent\":[{\"body\":{\"Request\":{\"client\":1,\"group\":\"0.1\",\
        \"op\":{\"Put\":{\"key\":\"a\",\"value\":\"x\"}},\"seq\":1}},\"from\":33,\"to\":1}],\
        \"who\":33}\n\
        {\"event\":{\"Deliver\":1},\"sent\":[{\"body\":{\"Accept\":{\"ballot\":[1,1],\"comma\
        nd\":{\"Call\":{\"client\":1,\"op\":{\"Put\":{\"key\":\"a\",\"value\":\"x\"}},\"seq\
        \":1}},\"group\":\"0.1\",\"slot\":1}},\"from\":1,\"to\":1}],\"who\":1}\n\
        {\"event\":{\"Deliver\":2},\"sent\":[{\"body\":{\"Accepted\":{\"ballot\":[1,1],\"gro\
        up\":\"0.1\",\"slot\":1}},\"from\":1,\"to\":1}],\"who\":1}\n\
        {\"event\":{\"Deliver\":3},\"sent\":[{\"body\":{\"Answer\":{\"answer\":{\"Value\":{\
        \"old\":null}},\"group\":\"0.1\",\"seq\":1}},\"from\":1,\"to\":33}],\"who\":1}\n\
        {\"event\":{\"Deliver\":4},\"sent\":[{\"body\":{\"Request\":{\"client\":1,\"group\":\
        \"0.1\",\"op\":{\"Get\":{\"key\":\"a\"}},\"seq\":2}},\"from\":33,\"to\":1}],\"who\":\
        33}\n\
        {\"event\":{\"Deliver\":5},\"sent\":[{\"body\":{\"Accept\":{\"ballot\":[1,1],\"comma\
        nd\":{\"Call\":{\"client\":1,\"op\":{\"Get\":{\"key\":\"a\"}},\"seq\":2}},\"group\":\
        \"0.1\",\"slot\":2}},\"from\":1,\"to\":1}],\"who\":1}\n\
        {\"event\":{\"Deliver\":6},\"sent\":[{\"body\":{\"Accepted\":{\"ballot\":[1,1],\"gro\
        up\":\"0.1\",\"slot\":2}},\"from\":1,\"to\":1}],\"who\":1}\n\
        {\"event\":{\"Deliver\":7},\"sent\":[{\"body\":{\"Answer\":{\"answer\":{\"Value\":{\
        \"old\":\"x\"}},\"group\":\"0.1\",\"seq\":2}},\"from\":1,\"to\":33}],\"who\":1}\n\
        {\"event\":{\"Deliver\":8},\"sent\":[],\"who\":33}\n";

// What its rows decided, as another program prints it.
const EXPLAINED: &[u8] = b"{\"birth\":{\"group\":\"0.1\",\"members\":[1]},\"row\":0}\n\
        {\"record\":{\"arc\":[0,4294967296],\"gone\":null,\"lock\":\"Free\",\"members\":[1],\"nam\
        e\":\"0.1\",\"pred\":\"0.1\",\"succ\":\"0.1\"},\"row\":0}\n\
        {\"group\":{\"arc\":[0,4294967296],\"name\":\"0.1\",\"pairs\":0,\"pred\":\"0.1\",\"succ\"\
        :\"0.1\"},\"row\":0}\n\
        {\"ring\":[[\"0.1\",[0,4294967296]]],\"row\":0}\n\
        {\"entry\":{\"command\":{\"Call\":{\"client\":1,\"op\":{\"Put\":{\"key\":\"a\",\"value\":\
        \"x\"}},\"seq\":1}},\"effect\":{\"Done\":{\"old\":null}},\"group\":\"0.1\",\"slot\":1},\"\
        row\":3}\n\
        {\"history\":{\"client\":1,\"op\":{\"Put\":{\"key\":\"a\",\"value\":\"x\"}},\"reply\":{\"\
        old\":null},\"seq\":1},\"row\":3}\n\
        {\"group\":{\"arc\":[0,4294967296],\"name\":\"0.1\",\"pairs\":1,\"pred\":\"0.1\",\"succ\"\
        :\"0.1\"},\"row\":3}\n\
        {\"entry\":{\"command\":{\"Call\":{\"client\":1,\"op\":{\"Get\":{\"key\":\"a\"}},\"seq\":\
        2}},\"effect\":{\"Done\":{\"old\":\"x\"}},\"group\":\"0.1\",\"slot\":2},\"row\":7}\n\
        {\"history\":{\"client\":1,\"op\":{\"Get\":{\"key\":\"a\"}},\"reply\":{\"old\":\"x\"},\"s\
        eq\":2},\"row\":7}\n";

// A part of a text, and what stands in its first place instead.
type Damage = (&'static [u8], &'static [u8]);

// The last row delivers a mail that is not pending.
const OTHER_MAIL: Damage = (b"{\"Deliver\":8}", b"{\"Deliver\":7}");

// The last row is gone.
const WITHOUT_LAST: Damage = (b"{\"event\":{\"Deliver\":8},\"sent\":[],\"who\":33}\n", b"");

// One row has a blank.
const SECOND_SPELLING: Damage = (b"\"event\":\"Go\"", b"\"event\": \"Go\"");

// One row sent another mail.
const OTHER_SENT: Damage = (
    b"\"seq\":1}},\"group\":\"0.1\",\"slot\":1",
    b"\"seq\":1}},\"group\":\"0.1\",\"slot\":2",
);

// The last row lacks its end.
const CUT_SHORT_ROW: Damage = (b"\"sent\":[],\"who\":33}", b"\"sent\":[],\"who\":33");

// The scenario is none.
const NO_SCENARIO: Damage = (b"scatter 1", b"scatter 3");

// A scenario whose last line has no line feed.
const LINE_WITHOUT_FEED: &[u8] =
    b"scatter 1\nnodes 1\ngroup 0 1\nclient 1\nput a x\nget a\nend\ngo 1\nsettle 100";

// What is printed, and that it is lawful.
const STORED_ONES: &[Case] = &[
    (("journal", FIRST, 0, 0), (0, true, STORED)),
    (("journal", LINE_WITHOUT_FEED, 0, 0), (0, true, STORED)),
    (("run", LINE_WITHOUT_FEED, 0, 0), (0, true, FIRST_REPORT)),
    (("audit", STORED, 0, 0), (0, true, b"lawful rows 9\n")),
    (("explain", STORED, 0, 0), (0, true, EXPLAINED)),
];

// What comes of the stored journal, damaged.
const DAMAGED: &[(&str, Damage, Expected)] = &[
    ("audit", OTHER_MAIL, (9, true, b"unlawful row 9\n")),
    ("audit", WITHOUT_LAST, (0, true, b"lawful rows 8\n")),
    ("audit", OTHER_SENT, (9, true, b"unlawful row 2\n")),
    ("explain", OTHER_SENT, (9, true, b"unlawful row 2\n")),
    ("explain", WITHOUT_LAST, (0, true, EXPLAINED)),
    ("explain", CUT_SHORT_ROW, (3, false, b"line 19: bad row\n")),
    ("audit", SECOND_SPELLING, (3, false, b"line 11: bad row\n")),
    ("audit", CUT_SHORT_ROW, (3, false, b"line 19: bad row\n")),
    (
        "audit",
        NO_SCENARIO,
        (3, false, b"line 1: missing header\n"),
    ),
    (
        "journal",
        NO_SCENARIO,
        (3, false, b"line 1: missing header\n"),
    ),
];

const NO_JOURNALS: &[Case] = &[
    (
        ("audit", FIRST, 0, 0),
        (3, false, b"line 10: missing journal\n"),
    ),
    (
        ("audit", b"", 0, 0),
        (3, false, b"line 1: missing journal\n"),
    ),
    (
        ("explain", FIRST, 0, 0),
        (3, false, b"line 10: missing journal\n"),
    ),
];

// Read errors, write errors, and arguments outside the grammar.
const FAULTS: &[Case] = &[
    (("audit", STORED, 1, 0), (4, false, b"read fault\n")),
    (("audit", STORED, 0, 1), (5, true, b"")),
    (("journal", FIRST, 1, 0), (4, false, b"read fault\n")),
    (("journal", FIRST, 0, 2), (5, true, b"scatter 1\n")),
    (("explain", STORED, 1, 0), (4, false, b"read fault\n")),
    (("explain", STORED, 0, 1), (5, true, b"")),
    (("audit x", STORED, 0, 0), (2, false, USAGE)),
    (("explain x", STORED, 0, 0), (2, false, USAGE)),
    (("explain -x", STORED, 0, 0), (2, false, USAGE)),
    (("journal journal", FIRST, 0, 0), (2, false, USAGE)),
    (("journal -x", FIRST, 0, 0), (2, false, USAGE)),
];

// Returns the place where a part of a text begins, which the text has.
fn place_of(rt: &impl Abort, text: &[u8], part: &[u8]) -> usize {
    for i in 0..text.len() {
        if text.get(i..).unwrap_or(b"").starts_with(part) {
            return i;
        }
    }
    panic!(rt; "no such part");
}

// Returns a text with that damage.
fn damaged(rt: &impl Abort, alloc: Global, text: &[u8], (old, new): Damage) -> Vec<u8> {
    let at = place_of(rt, text, old);
    let mut damaged = Vec::new(alloc);
    add(rt, &mut damaged, text.get(..at).unwrap_or(b""));
    add(rt, &mut damaged, new);
    let behind = at.saturating_add(old.len());
    add(rt, &mut damaged, text.get(behind..).unwrap_or(b""));
    damaged
}

fn check_damaged<R: Abort + Threads + Wait + Sync>(rt: &R, alloc: Global, text: &[u8]) {
    for (words, damage, expected) in DAMAGED {
        let input = damaged(rt, alloc, text, *damage);
        check(rt, alloc, (*words, &input, 0, 0), *expected);
        forget(input);
    }
}

#[test]
fn has_journals_stored_and_audited(rt: HostRuntime) {
    check_all(&rt, rt.alloc(), STORED_ONES);
    check_damaged(&rt, rt.alloc(), STORED);
    check_all(&rt, rt.alloc(), NO_JOURNALS);
    check_all(&rt, rt.alloc(), FAULTS);
}
