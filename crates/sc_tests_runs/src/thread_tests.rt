//! Lines of many deliveries, which several workers make.

use crate::gates::Open;
use crate::run_tests::{Wanted, comes};
use sc_actor::Gate;
use std::alloc::Global;
use std::mem::forget;
use std::process::Abort;
use std::sync::Wait;
use std::sync::atomic::{AtomicU64, Ordering};
use std::thread;
use std::thread::Threads;

/// A text around a line of deliveries, and how the report begins with any number of workers.
pub type Case = (&'static [u8], &'static [u8], &'static [u8]);

const EIGHT_CLIENTS: &[u8] =
    b"scatter 1\nnodes 3\ngroup 0 1 2 3\nclient 1\nput a x\nget a\nend\nclient 2\nput b x\n\
        get b\nend\nclient 3\nput c x\nget c\nend\nclient 4\nput d x\nget d\nend\nclient 5\n\
        put e x\nget e\nend\nclient 6\nput f x\nget f\nend\nclient 7\nput g x\nget g\nend\n\
        client 8\nput h x\nget h\nend\ngo 1\ngo 2\ngo 3\ngo 4\ngo 5\ngo 6\ngo 7\ngo 8\n";

const EIGHT_REPLIES: &[u8] =
    b"scatter report 1\nreply 1 1 put none\nreply 1 2 get value x\nreply 2 1 put none\n\
        reply 2 2 get value x\nreply 3 1 put none\nreply 3 2 get value x\nreply 4 1 put none\n\
        reply 4 2 get value x\nreply 5 1 put none\nreply 5 2 get value x\nreply 6 1 put none\n\
        reply 6 2 get value x\nreply 7 1 put none\nreply 7 2 get value x\nreply 8 1 put none\n\
        reply 8 2 get value x\nring ";

// A client of each of four groups.
const FOUR_GROUPS: &[u8] =
    b"scatter 1\nnodes 4\ngroup 0 1 2\ngroup 1073741824 3\ngroup 1610612736 4 1\n\
        group 1879048192 2\nclient 1\nput ! v\nget !\nend\nclient 2\nput A v\nget A\nend\n\
        client 3\nput a v\nget a\nend\nclient 4\nput q v\nget q\nend\ngo 1\ngo 2\ngo 3\ngo 4\n";

const FOUR_REPLIES: &[u8] =
    b"scatter report 1\nreply 1 1 put none\nreply 1 2 get value v\nreply 2 1 put none\n\
        reply 2 2 get value v\nreply 3 1 put none\nreply 3 2 get value v\nreply 4 1 put none\n\
        reply 4 2 get value v\nring 0 group 0.1 members 1 2\nring 1073741824 group 0.2 members 3\n\
        ring 1610612736 group 0.3 members 1 4\nring 1879048192 group 0.4 members 2\n";

/// Adds a part to a text.
pub fn add(rt: &impl Abort, text: &mut Vec<u8>, part: &[u8]) {
    text.extend_from_slice(part).expect(rt, "memory");
}

// Returns the text with a line of deliveries by this number of workers.
fn input_of(rt: &impl Abort, alloc: Global, case: Case, workers: &[u8]) -> Vec<u8> {
    let (before, after, _) = case;
    let mut text = Vec::new(alloc);
    add(rt, &mut text, before);
    add(rt, &mut text, b"free 1000 ");
    add(rt, &mut text, workers);
    add(rt, &mut text, b"\n");
    add(rt, &mut text, after);
    text
}

const WORKERS: &[&[u8]] = &[b"1", b"2", b"4", b"8", b"16"];

// Returns whether a case has its replies with this number of workers, after this subcommand.
fn runs_with<R: Abort + Threads + Wait + Sync>(
    rt: &R,
    alloc: Global,
    case: Case,
    word: &str,
    workers: &[u8],
) -> bool {
    let input = input_of(rt, alloc, case, workers);
    let given = (word, input.as_slice(), 0, 0);
    let runs_so = comes(rt, alloc, given, Wanted::Lawful(case.2), &Open);
    forget(input);
    runs_so
}

/// Checks that the replies of each case are the same with any number of workers, and with a pool of
/// them.
pub fn check_same<R: Abort + Threads + Wait + Sync>(rt: &R, alloc: Global, cases: &[Case]) {
    for case in cases {
        for workers in WORKERS {
            assert!(rt; runs_with(rt, alloc, *case, "run", workers));
            assert!(rt; runs_with(rt, alloc, *case, "pool", workers));
        }
    }
}

const CASES: &[Case] = &[
    (EIGHT_CLIENTS, b"", EIGHT_REPLIES),
    (FOUR_GROUPS, b"", FOUR_REPLIES),
];

#[test]
fn replies_do_not_depend_on_the_number_of_workers(rt: HostRuntime) {
    check_same(&rt, rt.alloc(), CASES);
}

// A gate that holds node 1 and node 2, each in its first pass of the line of deliveries until the
// other has come to its own, or until a number of turns of waiting is over. Node 1 passes once
// before the line.
#[derive(Drop)]
struct Pair {
    turns: u32,
    first: AtomicU64,
    second: AtomicU64,
    late: AtomicU64,
}

impl Pair {
    // Waits until the other node has passed this number of times.
    fn hold(&self, other: &AtomicU64, times: u64) {
        for i in 0..self.turns {
            let _ = i;
            if other.load(Ordering::SeqCst) >= times {
                return;
            }
            thread::yield_now();
        }
        self.late.fetch_add(1, Ordering::SeqCst);
    }
}

impl Gate for Pair {
    fn pass(&self, who: u32) {
        if who == 1 && self.first.fetch_add(1, Ordering::SeqCst) == 1 {
            self.hold(&self.second, 1);
        }
        if who == 2 && self.second.fetch_add(1, Ordering::SeqCst) == 0 {
            self.hold(&self.first, 2);
        }
    }
}

const GATE_AT_FOUR: &[u8] =
    b"scatter 1\nnodes 2\ngroup 0 1 2\nclient 1\nput a x\nend\ngo 1\ndeliver n1 1\nfree 100 4\n";

const GATE_AT_ONE: &[u8] =
    b"scatter 1\nnodes 2\ngroup 0 1 2\nclient 1\nput a x\nend\ngo 1\ndeliver n1 1\nfree 100 1\n";

const GATE_REPORT: &[u8] =
    b"scatter report 1\nreply 1 1 put none\nring 0 group 0.1 members 1 2\nrows 8\nmail 7\n\
        delivered 7\nskipped 0\nquiet yes\n";

const TWO_GROUPS: &[u8] =
    b"scatter 1\nnodes 2\ngroup 0 1\ngroup 1828716544 2\nclient 1\nput a x\nend\nclient 2\nput z y\n\
        end\ngo 2\ndeliver n1 1\ndeliver c2 1\ngo 1\nfree 100 4\n";

const TWO_GROUPS_BY_TWO: &[u8] =
    b"scatter 1\nnodes 2\ngroup 0 1\ngroup 1828716544 2\nclient 1\nput a x\nend\nclient 2\nput z y\n\
        end\ngo 2\ndeliver n1 1\ndeliver c2 1\ngo 1\nfree 100 2\n";

const TWO_GROUPS_REPORT: &[u8] =
    b"scatter report 1\nreply 1 1 put none\nreply 2 1 put none\nring 0 group 0.1 members 1\n\
        ring 1828716544 group 0.2 members 2\nrows 12\nmail 10\ndelivered 10\nskipped 0\nquiet yes\n";

// The subcommand, the text and its report.
type Passage = (&'static str, &'static [u8], &'static [u8]);

// Returns whether a run through a gate ends with this report, and both nodes came.
fn is_passed<R: Abort + Threads + Wait + Sync>(
    rt: &R,
    alloc: Global,
    case: Passage,
    gate: &Pair,
) -> bool {
    let (word, input, report) = case;
    let wanted = Wanted::Exactly(0, true, report);
    let is_so = comes(rt, alloc, (word, input, 0, 0), wanted, gate);
    let came = gate.first.load(Ordering::SeqCst) >= 2 && gate.second.load(Ordering::SeqCst) >= 1;
    is_so && came
}

// Returns the number of waits that ended late in such a run, or none where the run ended otherwise.
fn lateness<R: Abort + Threads + Wait + Sync>(
    rt: &R,
    alloc: Global,
    case: Passage,
    turns: u32,
) -> Option<u64> {
    let gate = Pair {
        turns,
        first: AtomicU64::new(0),
        second: AtomicU64::new(0),
        late: AtomicU64::new(0),
    };
    if is_passed(rt, alloc, case, &gate) {
        Some(gate.late.load(Ordering::SeqCst))
    } else {
        None
    }
}

#[test]
fn nodes_of_one_group_work_at_the_same_time(rt: HostRuntime) {
    let four = lateness(
        &rt,
        rt.alloc(),
        ("run", GATE_AT_FOUR, GATE_REPORT),
        1_000_000,
    );
    let one = lateness(&rt, rt.alloc(), ("run", GATE_AT_ONE, GATE_REPORT), 1_000);
    assert!(rt; four == Some(0) && one == Some(1));
}

#[test]
fn nodes_of_two_groups_work_at_the_same_time(rt: HostRuntime) {
    let two = lateness(
        &rt,
        rt.alloc(),
        ("run", TWO_GROUPS, TWO_GROUPS_REPORT),
        1_000_000,
    );
    assert!(rt; two == Some(0));
}

// Of two workers one has both nodes, where each takes a run of neighbours.
#[test]
fn neighbours_of_a_pool_work_at_the_same_time(rt: HostRuntime) {
    let pool = lateness(
        &rt,
        rt.alloc(),
        ("pool", TWO_GROUPS_BY_TWO, TWO_GROUPS_REPORT),
        1_000_000,
    );
    let runs = lateness(
        &rt,
        rt.alloc(),
        ("run", TWO_GROUPS_BY_TWO, TWO_GROUPS_REPORT),
        1_000,
    );
    assert!(rt; pool == Some(0) && runs == Some(1));
}
