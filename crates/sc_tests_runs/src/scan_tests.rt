//! Scans: worked rows, and scans after each row of a merge, of a boundary that moves and of a member
//! that is handed over, beside a plain list into which their histories are put from the beginning.
ghost use Rattle.std.specs.Prelude.{◌≡◌, ◌≤◌, length, take};
ghost use Rattle.sc_meaning.specs.entries.Worlds.{CoverThroughout};
ghost use Rattle.sc_scenario.specs.scenario.Valid.{IsValid};
ghost use Rattle.sc_meaning.specs.sound.GroupsOf.{entries_at};
ghost use Rattle.sc_meaning.specs.sound.Players.{as_nodes};
ghost use Rattle.sc_meaning.specs.sound.Soundness.{IsSoundThroughout};

use crate::replay_tests::{played, scenario_of};
use crate::run_tests::{CUT_SHORT, Case, FIRST, USAGE, check_all};
use sc_actor::{Journal, Row};
use sc_base::{Dup, Key, Op, RingArc, Value};
use sc_mail::Mail;
use sc_scenario::Scenario;
use sc_words::{Base, Entry, OrderLine};
use sc_world_entries::{Shown, entries_of, scan};
use sc_world_groups::world_of;
use std::alloc::Global;
use std::mem::forget;
use std::process::Abort;
use std::sync::Wait;
use std::thread::Threads;

// Three pairs of one group.
const THREE: &[u8] = b"scatter 1\nnodes 1\ngroup 0 1\nclient 1\nput a x\nput m y\nput z w\nend\n\
        go 1\nsettle 100\n";

// What must come of arguments and an input: the text of a scan, or why there is none.
const WORKED: &[Case] = &[
    (
        ("scan 0 4294967296 100 10", FIRST, 0, 0),
        (
            0,
            true,
            b"scatter scan 1\nrows 9\npart 0 4294967296 group 0.1 slot 2\npair a x\npairs 1\n",
        ),
    ),
    (
        ("scan 1627389953 4294967296 4 10", FIRST, 0, 0),
        (
            0,
            true,
            b"scatter scan 1\nrows 4\npart 1627389953 2667577343 group 0.1 slot 1\n\
                part 0 1627389953 group 0.1 slot 1\npair a x\npairs 1\n",
        ),
    ),
    (
        ("scan 1627389953 4294967296 2 10", FIRST, 0, 0),
        (
            0,
            true,
            b"scatter scan 1\nrows 2\npart 1627389953 2667577343 group 0.1 slot 0\n\
                part 0 1627389953 group 0.1 slot 0\npairs 0\n",
        ),
    ),
    (
        ("scan 1828716544 4294967296 4294967295 2", THREE, 0, 0),
        (
            0,
            true,
            b"scatter scan 1\nrows 13\npart 1828716544 2466250752 group 0.1 slot 3\npair m y\n\
                pair z w\npage\npart 0 1828716544 group 0.1 slot 3\npair a x\npairs 3\n",
        ),
    ),
    (
        ("scan 0 4294967296 4294967295 3", THREE, 0, 0),
        (
            0,
            true,
            b"scatter scan 1\nrows 13\npart 0 4294967296 group 0.1 slot 3\npair a x\n\
                pair m y\npair z w\npairs 3\n",
        ),
    ),
    (
        ("scan 0 4294967296 100 10", CUT_SHORT, 0, 0),
        (
            6,
            true,
            b"scatter scan 1\nrows 2\npart 0 4294967296 group 0.1 slot 0\npairs 0\n",
        ),
    ),
];

// Arguments that spell no scan, bad inputs, read errors and write errors.
const REFUSED: &[Case] = &[
    (("scan 0 0 1 1", FIRST, 0, 0), (2, false, USAGE)),
    (("scan 4294967296 1 1 1", FIRST, 0, 0), (2, false, USAGE)),
    (("scan 0 4294967297 1 1", FIRST, 0, 0), (2, false, USAGE)),
    (("scan 0 1 4294967296 1", FIRST, 0, 0), (2, false, USAGE)),
    (("scan 0 1 1 0", FIRST, 0, 0), (2, false, USAGE)),
    (("scan 0 1 1 1000001", FIRST, 0, 0), (2, false, USAGE)),
    (("scan 0 1 1", FIRST, 0, 0), (2, false, USAGE)),
    (("scan 0 1 1 -1", FIRST, 0, 0), (2, false, USAGE)),
    (("run 0 1 1 1", FIRST, 0, 0), (2, false, USAGE)),
    (
        ("scan 0 1 1 1", b"", 0, 0),
        (3, false, b"line 1: missing header\n"),
    ),
    (("scan 0 1 1 1", FIRST, 1, 0), (4, false, b"read fault\n")),
    (
        ("scan 0 1 1 1", FIRST, 0, 2),
        (5, true, b"scatter scan 1\n"),
    ),
];

// A merge, a boundary that moves and a member that is handed over, each with a pair at both groups.
const MOVES: &[&[u8]] = &[
    b"scatter 1\nnodes 2\ngroup 0 1\ngroup 1744830464 2\nclient 1\nput a x\nput z y\nend\ngo 1\n\
        settle 100\norder 1 merge 0.1\nsettle 100\n",
    b"scatter 1\nnodes 2\ngroup 0 1\ngroup 1744830464 2\nclient 1\nput a x\nput z y\nend\ngo 1\n\
        settle 100\norder 1 repart 0.1 1610612736\nsettle 100\n",
    b"scatter 1\nnodes 3\ngroup 0 1 3\ngroup 1744830464 2\nclient 1\nput a x\nput z y\nend\n\
        go 1\nsettle 100\norder 1 migrate 0.1 3\nsettle 100\n",
];

// Returns the place of a key in a list, if the list has it.
fn place_of(pairs: &[(Key, Value)], key: &Key) -> Option<usize> {
    pairs.iter().position(|pair| pair.0 == *key)
}

fn set(rt: &impl Abort, alloc: Global, pairs: &mut Vec<(Key, Value)>, key: &Key, value: &Value) {
    let pair = (
        key.dup(alloc).expect(rt, "memory"),
        value.dup(alloc).expect(rt, "memory"),
    );
    pairs.push(pair).expect(rt, "memory");
}

fn take_out(pairs: &mut Vec<(Key, Value)>, key: &Key) {
    if let Some(at) = place_of(pairs, key) {
        if at < pairs.len() {
            forget(pairs.swap_remove(at));
        }
    }
}

fn has(pairs: &[(Key, Value)], key: &Key, value: &Value) -> bool {
    pairs.iter().any(|pair| pair.0 == *key && pair.1 == *value)
}

// Carries out an operation on a plain list.
fn carry_out(rt: &impl Abort, alloc: Global, pairs: &mut Vec<(Key, Value)>, op: &Op) {
    match op {
        Op::Get { .. } => {}
        Op::Put { key, value } => {
            take_out(pairs, key);
            set(rt, alloc, pairs, key, value);
        }
        Op::Del { key } => take_out(pairs, key),
        Op::Add { key, value } => {
            if place_of(pairs, key).is_none() {
                set(rt, alloc, pairs, key, value);
            }
        }
        Op::Cas { key, expect, value } => {
            if has(pairs, key, expect) {
                take_out(pairs, key);
                set(rt, alloc, pairs, key, value);
            }
        }
    }
}

// Returns the map after a history, as a plain list.
fn folded(rt: &impl Abort, alloc: Global, history: &[Entry]) -> Vec<(Key, Value)> {
    let mut pairs = Vec::new(alloc);
    for entry in history {
        carry_out(rt, alloc, &mut pairs, &entry.op);
    }
    pairs
}

// Returns whether a scan shows each of these pairs once, and no other.
fn shows(scan: &[Shown], pairs: &[(Key, Value)]) -> bool {
    let mut count = 0usize;
    for shown in scan {
        for pair in shown.pairs.as_slice() {
            if !has(pairs, &pair.0, &pair.1) {
                return false;
            }
            count = count.saturating_add(1);
        }
    }
    count == pairs.len()
}

// Returns whether the scan of the whole circle after some rows is the map after their history.
fn is_map(rt: &impl Abort, alloc: Global, bases: &[Base], rows: &[Row<Mail, OrderLine>]) -> bool
    requires { CoverThroughout bases.now (entries_at as_nodes bases.now rows.now) }
{
    let whole = RingArc::try_new(7, 1 << 32).expect(rt, "an arc");
    let scan = scan(alloc, bases, rows, &whole).expect(rt, "memory");
    let entries = entries_of(alloc, bases, rows).expect(rt, "memory");
    let world = world_of(alloc, bases, &entries).expect(rt, "memory");
    let pairs = folded(rt, alloc, world.history());
    let is_so = shows(&scan, &pairs);
    forget(pairs);
    forget(world);
    forget(entries);
    forget(scan);
    is_so
}

fn first_rows(rows: &[Row<Mail, OrderLine>], count: usize) -> &[Row<Mail, OrderLine>]
    requires { count ≤ length rows.now }
    ensures { result.now ≡ take count rows.now }
{
    &rows[..count]
}

// Returns whether the scan after this number of rows is the map, in a journal of which each prefix
// is sound.
fn prefix_is_map(
    rt: &impl Abort,
    alloc: Global,
    scenario: &Scenario,
    journal: &Journal<Mail, OrderLine>,
    count: usize,
) -> bool
    requires within { count ≤ length journal.now }
    requires sound { IsSoundThroughout as_nodes scenario.now journal.now }
{
    let bases = scenario.groups.as_slice();
    let first = first_rows(journal.as_slice(), count);
    is_map(rt, alloc, bases, first)
}

// Returns whether the scan is the map after each row of a run.
fn are_maps<R: Abort + Threads + Wait + Sync>(rt: &R, alloc: Global, input: &[u8]) -> bool {
    let scenario = scenario_of(rt, alloc, input);
    let journal = played(rt, alloc, &scenario);
    let mut are = prefix_is_map(rt, alloc, &scenario, &journal, journal.len());
    for count in 0..journal.len() {
        if !prefix_is_map(rt, alloc, &scenario, &journal, count) {
            are = false;
        }
    }
    forget(journal);
    forget(scenario);
    are
}

#[test]
fn scans_are_printed_as_worked(rt: HostRuntime) {
    check_all(&rt, rt.alloc(), WORKED);
}

#[test]
fn words_that_spell_no_scan_and_errors_are_reported(rt: HostRuntime) {
    check_all(&rt, rt.alloc(), REFUSED);
}

#[test]
fn scans_after_each_row_of_a_move_are_the_maps_after_their_histories(rt: HostRuntime) {
    for input in MOVES {
        assert!(rt; are_maps(&rt, rt.alloc(), input));
    }
}
