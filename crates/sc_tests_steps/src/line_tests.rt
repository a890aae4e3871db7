//! Each line of the group machine's table with its effect.
use crate::asks::{Ask, End, Was, applied, command};
use crate::starts::{B, BEFORE, D, GROUP, LAST, NEXT, OTHER, Start, TX, machine};
use sc_words::{Body, No, Past};
use std::alloc::Global;
use std::mem::forget;
use std::process::Abort;

fn was(rt: &impl Abort, alloc: Global, start: Start, ask: Ask) -> Was {
    let mut machine = machine(rt, alloc, start);
    let was = applied(rt, &mut machine, command(rt, alloc, ask));
    forget(machine);
    was
}

// How the group starts, a command for it, and the command's effect.
type Line = (Start, Ask, Was);

fn all_are(rt: &impl Abort, alloc: Global, lines: &[Line]) {
    for (start, ask, effect) in lines {
        assert!(rt; was(rt, alloc, *start, *ask) == *effect);
    }
}

// The position of the key `c`, in the middle of the arc.
const C: u32 = 0x6300_0000;

const REPART: Body = Body::Repart { at: C };

const SPLIT: Body = Body::Split { at: C, child: TX };

// A split at the start of the arc, which makes no child.
const SPLIT_AT_START: Body = Body::Split { at: B, child: TX };

const CALLS: &[Line] = &[
    (Start::Free, Ask::Noop, Was::Idle),
    (Start::Gone, Ask::Put(1, b"c"), Was::Gone),
    (Start::Begun(Body::Merge), Ask::Put(1, b"c"), Was::Nothing),
    (Start::Begun(SPLIT), Ask::Put(1, b"c"), Was::Nothing),
    (
        Start::Promised(Body::Merge),
        Ask::Put(1, b"c"),
        Was::Nothing,
    ),
    (Start::Watching, Ask::Put(1, b"c"), Was::Done),
    (Start::Free, Ask::Put(1, b"a"), Was::NotMine),
    (Start::Free, Ask::Put(1, b"d"), Was::NotMine),
    (Start::Noted, Ask::Put(2, b"c"), Was::Again),
    (Start::Noted, Ask::Put(1, b"c"), Was::Stale),
    (Start::Noted, Ask::Put(3, b"c"), Was::Done),
];

#[test]
fn backlog(rt: HostRuntime) {
    all_are(&rt, rt.alloc(), CALLS);
}

const MERGE: Ask = Ask::Begin(TX, Body::Merge);

const ORDERS: &[Line] = &[
    (Start::Born, Ask::Split(TX, C), Was::Nothing),
    (Start::Decided, Ask::Split(TX, C), Was::Nothing),
    (Start::Decided, MERGE, Was::Nothing),
    (Start::Watching, MERGE, Was::Nothing),
    (Start::Gone, Ask::Join(3), Was::Refused(1)),
    (Start::Gone, Ask::Leave(9), Was::Refused(1)),
    (Start::Gone, MERGE, Was::Refused(1)),
    (Start::Watching, Ask::Join(1), Was::Refused(2)),
    (Start::Promised(Body::Merge), Ask::Leave(9), Was::Refused(2)),
    (
        Start::Begun(Body::Merge),
        Ask::Split(OTHER, B),
        Was::Refused(2),
    ),
    (
        Start::Watching,
        Ask::Begin(OTHER, Body::Merge),
        Was::Refused(2),
    ),
];

#[test]
fn orders_by_name_and_lock(rt: HostRuntime) {
    all_are(&rt, rt.alloc(), ORDERS);
}

const JOINS_AND_LEAVES: &[Line] = &[
    (Start::Of(9), Ask::Join(10), Was::Refused(5)),
    (Start::Of(9), Ask::Join(9), Was::Refused(9)),
    (Start::Free, Ask::Join(2), Was::Refused(9)),
    (Start::Of(8), Ask::Join(9), Was::Changed),
    (Start::Free, Ask::Leave(3), Was::Refused(6)),
    (Start::Of(1), Ask::Leave(2), Was::Refused(6)),
    (Start::Of(1), Ask::Leave(1), Was::Refused(7)),
    (Start::Free, Ask::Leave(1), Was::Changed),
];

#[test]
fn joins_and_leaves(rt: HostRuntime) {
    all_are(&rt, rt.alloc(), JOINS_AND_LEAVES);
}

const SPLITS: &[Line] = &[
    (Start::Free, Ask::Split(TX, B), Was::Refused(4)),
    (Start::Free, Ask::Split(TX, D), Was::Refused(4)),
    (Start::Of(1), Ask::Split(TX, C), Was::Refused(7)),
    (Start::Busy(256), Ask::Split(TX, C), Was::Refused(8)),
    (Start::Busy(255), Ask::Split(TX, C), Was::Changed),
    (Start::Alone(1), Ask::Split(TX, C), Was::Refused(7)),
    (Start::Alone(2), Ask::Split(TX, C), Was::Changed),
];

#[test]
fn splits(rt: HostRuntime) {
    all_are(&rt, rt.alloc(), SPLITS);
}

// Commands that begin a migration, or move a boundary.
const LEAVES: Ask = Ask::Begin(TX, Body::Migrate { node: 1 });

const STRANGER_LEAVES: Ask = Ask::Begin(TX, Body::Migrate { node: 3 });

const MOVES: Ask = Ask::Begin(TX, REPART);

const MOVES_TO_START: Ask = Ask::Begin(TX, Body::Repart { at: B });

const MOVES_TO_END: Ask = Ask::Begin(TX, Body::Repart { at: D });

const MOVES_FAR: Ask = Ask::Begin(TX, Body::Repart { at: 0 });

const BEGINNINGS: &[Line] = &[
    (Start::Alone(1), LEAVES, Was::Refused(3)),
    (Start::Free, MOVES_TO_START, Was::Refused(4)),
    (Start::Free, MOVES_TO_END, Was::Refused(4)),
    (Start::Of(1), STRANGER_LEAVES, Was::Refused(6)),
    (Start::Of(1), LEAVES, Was::Refused(7)),
    (Start::Busy(256), LEAVES, Was::Refused(8)),
    (Start::Busy(256), MOVES, Was::Refused(8)),
    (Start::Busy(256), MERGE, Was::Refused(8)),
    (Start::Busy(255), MERGE, Was::Changed),
    (Start::Free, MOVES, Was::Changed),
    (Start::Free, MOVES_FAR, Was::Changed),
    (Start::Free, LEAVES, Was::Changed),
];

#[test]
fn transactions_begin(rt: HostRuntime) {
    all_are(&rt, rt.alloc(), BEGINNINGS);
}

// Offers of the group before this one, of two nodes.
const OFFERED: Ask = Ask::Prepared(BEFORE, 2, Body::Merge);

const OFFERED_FROM_AFAR: Ask = Ask::Prepared(0, 2, Body::Merge);

const COMES: Ask = Ask::Prepared(BEFORE, 2, Body::Migrate { node: 11 });

const GOES: Ask = Ask::Prepared(BEFORE, 2, Body::Migrate { node: 2 });

const MOVED_INSIDE: Ask = Ask::Prepared(BEFORE, 2, REPART);

const MOVED_TO_BEFORE: Ask = Ask::Prepared(BEFORE, 2, Body::Repart { at: BEFORE });

const MOVED_TO_START: Ask = Ask::Prepared(BEFORE, 2, Body::Repart { at: B });

const MOVED_TO_END: Ask = Ask::Prepared(BEFORE, 2, Body::Repart { at: D });

const VOTES: &[Line] = &[
    (Start::Voted, OFFERED, Was::Nothing),
    (Start::Gone, OFFERED, Was::IsGone),
    (Start::Watching, OFFERED, Was::Busy),
    (Start::Begun(SPLIT), OFFERED, Was::Busy),
    (Start::Free, OFFERED_FROM_AFAR, Was::Apart),
    (Start::Free, MOVED_TO_END, Was::Apart),
    (Start::Free, MOVED_TO_START, Was::Apart),
    (Start::Free, MOVED_INSIDE, Was::Yes),
    (Start::Free, MOVED_TO_BEFORE, Was::Yes),
    (Start::Of(8), OFFERED, Was::TooMany(10)),
    (Start::Of(7), OFFERED, Was::Yes),
    (Start::Of(9), COMES, Was::TooMany(10)),
    (Start::Of(9), GOES, Was::Yes),
    (Start::Of(8), COMES, Was::Yes),
];

#[test]
fn votes(rt: HostRuntime) {
    all_are(&rt, rt.alloc(), VOTES);
}

const WATCHED: Ask = Ask::Watched(LAST);

const VOTES_OF_A_WATCHER: &[Line] = &[
    (Start::Voted, WATCHED, Was::Nothing),
    (Start::Gone, WATCHED, Was::IsGone),
    (Start::Begun(Body::Merge), WATCHED, Was::Busy),
    (Start::Free, Ask::Watched(NEXT), Was::Apart),
    (Start::Free, WATCHED, Was::Yes),
];

#[test]
fn votes_of_a_watcher(rt: HostRuntime) {
    all_are(&rt, rt.alloc(), VOTES_OF_A_WATCHER);
}

const GIVEN_UP: &[Line] = &[
    (Start::Free, Ask::GiveUp, Was::Nothing),
    (Start::Promised(Body::Merge), Ask::GiveUp, Was::Nothing),
    (Start::Watching, Ask::GiveUp, Was::Nothing),
    (Start::Begun(REPART), Ask::GiveUp, Was::Abort),
    (Start::Begun(SPLIT), Ask::GiveUp, Was::Abort),
    (Start::Heard(Body::Merge), Ask::GiveUp, Was::Abort),
];

#[test]
fn coordinators_that_give_up(rt: HostRuntime) {
    all_are(&rt, rt.alloc(), GIVEN_UP);
}

// The vote of Yes of a group before another one, and of a group before this one.
const YES: Ask = Ask::Yes(TX, LAST);

const CLOSING: Ask = Ask::Yes(TX, GROUP);

const RECORDED: &[Line] = &[
    (Start::Free, YES, Was::Nothing),
    (
        Start::Begun(Body::Merge),
        Ask::Yes(OTHER, LAST),
        Was::Nothing,
    ),
    (Start::Promised(Body::Merge), YES, Was::Nothing),
    (Start::Begun(SPLIT), YES, Was::Nothing),
    (Start::Heard(Body::Merge), YES, Was::Nothing),
    (Start::Begun(Body::Merge), Ask::No, Was::Abort),
    (Start::Begun(REPART), Ask::No, Was::Abort),
    (Start::Begun(Body::Merge), YES, Was::Changed),
    (Start::Begun(Body::Merge), CLOSING, Was::Merged),
    (Start::Merging(8), CLOSING, Was::Nothing),
    (Start::Begun(REPART), YES, Was::Given),
    (Start::Begun(Body::Repart { at: D + 1 }), YES, Was::Taken),
    (Start::Begun(Body::Repart { at: 0 }), YES, Was::Nothing),
    (Start::Begun(Body::Migrate { node: 2 }), YES, Was::Migrated),
    (Start::Begun(Body::Migrate { node: 3 }), YES, Was::Nothing),
];

#[test]
fn votes_that_are_recorded(rt: HostRuntime) {
    all_are(&rt, rt.alloc(), RECORDED);
}

// The watcher's vote of Yes and of No, and that the transaction has ended at it.
const WATCH_YES: Ask = Ask::Watch(Past::Yes);

const WATCH_NO: Ask = Ask::Watch(Past::No(No::Gone));

const WATCH_ENDED: Ask = Ask::Watch(Past::Ended);

const WATCHES: &[Line] = &[
    (Start::Free, WATCH_YES, Was::Nothing),
    (Start::Watching, WATCH_YES, Was::Nothing),
    (Start::Begun(Body::Merge), WATCH_YES, Was::Nothing),
    (Start::Begun(REPART), WATCH_NO, Was::Nothing),
    (Start::Heard(Body::Merge), WATCH_NO, Was::Abort),
    (Start::Heard(Body::Merge), WATCH_ENDED, Was::Abort),
    (Start::Begun(SPLIT), WATCH_NO, Was::Abort),
    (Start::Heard(REPART), WATCH_YES, Was::Nothing),
    (
        Start::Heard(Body::Migrate { node: 2 }),
        WATCH_YES,
        Was::Nothing,
    ),
    (Start::Heard(Body::Merge), WATCH_YES, Was::Merged),
    (Start::Begun(SPLIT), WATCH_YES, Was::Divided),
    (Start::Begun(SPLIT_AT_START), WATCH_YES, Was::Nothing),
];

#[test]
fn watches_that_are_recorded(rt: HostRuntime) {
    all_are(&rt, rt.alloc(), WATCHES);
}

const MERGED: Ask = Ask::Finish(End::Merged);

const ABORTED: Ask = Ask::Finish(End::Abort);

const DIVIDED: Ask = Ask::Finish(End::Divided);

const OUTCOMES: &[Line] = &[
    (Start::Free, MERGED, Was::Nothing),
    (Start::Begun(Body::Merge), ABORTED, Was::Nothing),
    (Start::Promised(Body::Merge), DIVIDED, Was::Nothing),
    (Start::Promised(Body::Merge), ABORTED, Was::Abort),
    (Start::Promised(Body::Merge), MERGED, Was::Merged),
    (
        Start::Promised(REPART),
        Ask::Finish(End::Given(BEFORE + 1)),
        Was::Given,
    ),
    (
        Start::Promised(REPART),
        Ask::Finish(End::Given(BEFORE)),
        Was::Nothing,
    ),
    (
        Start::Promised(REPART),
        Ask::Finish(End::Taken(C)),
        Was::Taken,
    ),
    (
        Start::Promised(REPART),
        Ask::Finish(End::Taken(B)),
        Was::Nothing,
    ),
    (
        Start::Promised(Body::Merge),
        Ask::Finish(End::Migrated(11)),
        Was::Migrated,
    ),
    (Start::Watching, ABORTED, Was::Abort),
    (Start::Watching, DIVIDED, Was::Divided),
    (Start::Watching, MERGED, Was::Merged),
];

#[test]
fn outcomes(rt: HostRuntime) {
    all_are(&rt, rt.alloc(), OUTCOMES);
}

// Returns whether the command makes a child of the group that starts so.
fn makes(rt: &impl Abort, alloc: Global, start: Start, ask: Ask) -> bool {
    let machine = machine(rt, alloc, start);
    let command = command(rt, alloc, ask);
    let child = machine.child_by(&command).expect(rt, "memory");
    let is_made = child.is_some();
    forget(child);
    forget(command);
    forget(machine);
    is_made
}

const CHILDREN: &[(Start, Ask, bool)] = &[
    (Start::Alone(2), Ask::Split(TX, C), true),
    (Start::Alone(1), Ask::Split(TX, C), false),
    (Start::Free, Ask::Split(TX, C), false),
    (Start::Begun(SPLIT), WATCH_YES, true),
    (Start::Begun(SPLIT), WATCH_ENDED, false),
    (Start::Begun(SPLIT_AT_START), WATCH_YES, false),
    (Start::Heard(Body::Merge), WATCH_YES, false),
    (Start::Free, Ask::Noop, false),
];

#[test]
fn children(rt: HostRuntime) {
    for (start, ask, child) in CHILDREN {
        assert!(rt; makes(&rt, rt.alloc(), *start, *ask) == *child);
    }
}
