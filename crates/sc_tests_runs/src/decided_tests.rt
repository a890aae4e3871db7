//! A run in which two groups merge, and one in which a boundary moves. What their rows decide is
//! compared with a second implementation of the rules: the ring, which covers the circle, the
//! history, which is legal, and the effective record of each group. Stored scenarios show the other
//! changes of groups, by what `explain` says of them.
use crate::replay_tests::{Question, holds_of_run};
use sc_base::Draw;
use sc_meaning::Cut;
use sc_words::Base;
use sc_world::{World, decided_ring, effective, history};
use sc_world_checks::{covers, legal};
use std::alloc::Global;
use std::mem::forget;
use std::process::Abort;
use std::sync::Wait;
use std::thread::Threads;

const LOWER: Draw = Draw { node: 0, count: 1 };

const UPPER: Draw = Draw { node: 0, count: 2 };

// A position before that of the key a.
const BEFORE_A: u32 = 1_610_612_736;

/// A group of the decided ring: the beginning and the length of its cut, and of its effective
/// record the neighbours, the members, and the number of pairs.
pub struct ExpectedGroup {
    group: Draw,
    lo: u32,
    len: u64,
    succ: Draw,
    pred: Draw,
    members: &'static [u16],
    pairs: usize,
}

// A scenario, the groups of the ring that its run leaves, and the number of requests that took
// effect.
type Case = (&'static [u8], &'static [ExpectedGroup], usize);

// Of two groups one is left.
const MERGE: Case = (
    b"scatter 1\nnodes 2\ngroup 0 1\ngroup 2147483648 2\nclient 1\nput a x\nget a\nend\n\
        go 1\nsettle 100\norder 1 merge 0.1\nsettle 100\n",
    &[ExpectedGroup {
        group: LOWER,
        lo: 0,
        len: 4_294_967_296,
        succ: LOWER,
        pred: LOWER,
        members: &[1, 2],
        pairs: 1,
    }],
    2,
);

// A boundary has moved, and the group that gets the key has not heard of it yet.
const REPART: Case = (
    b"scatter 1\nnodes 2\ngroup 0 1\ngroup 2147483648 2\nclient 1\nput a x\nend\n\
        go 1\nsettle 100\norder 1 repart 0.1 1610612736\nsettle 7\n",
    &[
        ExpectedGroup {
            group: LOWER,
            lo: 0,
            len: 1_610_612_736,
            succ: UPPER,
            pred: UPPER,
            members: &[1],
            pairs: 0,
        },
        ExpectedGroup {
            group: UPPER,
            lo: BEFORE_A,
            len: 2_684_354_560,
            succ: LOWER,
            pred: LOWER,
            members: &[2],
            pairs: 1,
        },
    ],
    1,
);

fn is_cut(cut: &Cut, group: &ExpectedGroup) -> bool {
    cut.group == group.group && cut.arc.lo() == group.lo && cut.arc.len() == group.len
}

fn has_cut(ring: &[Cut], group: &ExpectedGroup) -> bool {
    ring.iter().any(|cut| is_cut(cut, group))
}

// Returns whether the cuts of a ring that covers are those of the groups.
fn is_ring(ring: &[Cut], expected: &[ExpectedGroup]) -> bool {
    let has_each = expected.iter().all(|group| has_cut(ring, group));
    has_each && ring.len() == expected.len() && covers(ring)
}

fn has_ring(rt: &impl Abort, alloc: Global, world: &World<'_>, expected: &[ExpectedGroup]) -> bool {
    let ring = decided_ring(alloc, world).expect(rt, "memory");
    is_ring(ring.as_slice(), expected)
}

// Returns whether a history is legal and has this number of entries.
fn has_history(rt: &impl Abort, alloc: Global, world: &World<'_>, count: usize) -> bool {
    let entries = history(alloc, world).expect(rt, "memory");
    let is_legal = legal(alloc, entries.as_slice()).expect(rt, "memory");
    let is_long = entries.len() == count;
    forget(entries);
    is_legal && is_long
}

fn is_record(base: &Base, group: &ExpectedGroup) -> bool {
    let core = &base.core;
    core.arc.lo() == group.lo
        && core.arc.len() == group.len
        && core.succ.group == group.succ
        && core.pred.group == group.pred
        && core.members.as_slice() == group.members
        && base.pairs.len() == group.pairs
}

fn has_record(rt: &impl Abort, alloc: Global, world: &World<'_>, group: &ExpectedGroup) -> bool {
    let base = effective(alloc, world, group.group).expect(rt, "memory");
    let is = match &base {
        Some(base) => is_record(base, group),
        None => false,
    };
    forget(base);
    is
}

fn has_records(
    rt: &impl Abort,
    alloc: Global,
    world: &World<'_>,
    expected: &[ExpectedGroup],
) -> bool {
    for group in expected {
        if !has_record(rt, alloc, world, group) {
            return false;
        }
    }
    true
}

/// Returns whether a world has these groups and this number of requests that took effect.
pub fn has_groups(
    rt: &impl Abort,
    alloc: Global,
    world: &World<'_>,
    expected: &[ExpectedGroup],
    count: usize,
) -> bool {
    has_ring(rt, alloc, world, expected)
        && has_records(rt, alloc, world, expected)
        && has_history(rt, alloc, world, count)
}

// Returns whether the rows of a run decide these groups and this number of requests.
fn leaves<R: Abort + Threads + Wait + Sync>(rt: &R, alloc: Global, case: &Case) -> bool {
    let (input, expected, count) = *case;
    holds_of_run(rt, alloc, input, Question::Groups(expected, count))
}

#[test]
fn two_groups_that_merge_leave_one(rt: HostRuntime) {
    assert!(rt; leaves(&rt, rt.alloc(), &MERGE));
}

#[test]
fn a_moved_boundary_counts_before_the_other_group_hears(rt: HostRuntime) {
    assert!(rt; leaves(&rt, rt.alloc(), &REPART));
}
