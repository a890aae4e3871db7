//! The groups on which the lines of the machine's table are tried.
use sc_base::{Draw, Members, Noted, Pairs, Reply, RingArc, SeenList, Sequence};
use sc_group::Machine;
use sc_words::{Base, Body, Core, Frozen, Heard, Link, Lock, Offer, Outcome, Past, Route, Watch};
use std::alloc::Global;
use std::process::Abort;

pub(crate) const GROUP: Draw = Draw { node: 0, count: 1 };

pub(crate) const NEXT: Draw = Draw { node: 0, count: 2 };

pub(crate) const LAST: Draw = Draw { node: 0, count: 3 };

pub(crate) const TX: Draw = Draw { node: 1, count: 7 };

pub(crate) const OTHER: Draw = Draw { node: 1, count: 8 };

// The position of the key `b`, where the group's arc starts, and that of `d`, where it ends.
pub(crate) const B: u32 = 0x6200_0000;

pub(crate) const D: u32 = 0x6400_0000;

// How a group starts, on the arc from `b` to `d`: free, of two nodes, before the group `NEXT`, and
// without a memory of `TX`, except for what its variant says.
#[derive(Clone, Copy)]
pub(crate) enum Start {
    Free,
    // With this number of nodes; and alone on its ring with this number of nodes.
    Of(u16),
    Alone(u16),
    // With this number of transactions begun.
    Busy(u32),
    // The coordinator of `TX`: of a merge, with this number of nodes; of any transaction; after a
    // Yes.
    Merging(u16),
    Begun(Body),
    Heard(Body),
    // The participant that promised `TX`; and the watcher of `TX`.
    Promised(Body),
    Watching,
    // What it remembers of `TX`; and a put of client 1 with the number 2.
    Gone,
    Born,
    Decided,
    Voted,
    Noted,
}

fn members_of(start: Start) -> u16 {
    match start {
        Start::Of(count) => count,
        Start::Alone(count) => count,
        Start::Merging(count) => count,
        _ => 2,
    }
}

fn succ_of(start: Start) -> Draw {
    match start {
        Start::Alone(_) => GROUP,
        _ => NEXT,
    }
}

fn begun_of(start: Start) -> u32 {
    match start {
        Start::Busy(count) => count,
        _ => 0,
    }
}

// Returns the nodes from `first` to `last`, or `first` alone where that is no set of members.
pub(crate) fn nodes(first: u16, last: u16) -> Members {
    let mut members = Members::one(first);
    for node in first.saturating_add(1)..=last {
        let _ = members.add(node);
    }
    members
}

fn arc(rt: &impl Abort, lo: u32) -> RingArc {
    RingArc::try_new(lo, 0x0200_0000).expect(rt, "an arc")
}

fn link(group: Draw, members: Members) -> Link {
    Link { group, members }
}

// Returns the record of the group after this one, of the nodes 11 and 12, when it was frozen.
pub(crate) fn frozen(rt: &impl Abort, alloc: Global, succ: Draw) -> Frozen {
    let members = nodes(11, 12);
    Frozen {
        arc: arc(rt, D),
        members,
        succ: link(succ, members),
        pairs: Pairs::new(alloc),
        clients: SeenList::new(alloc),
    }
}

// Returns the offer of the group before this one, whose arc starts at `lo` and which has `members`
// members.
pub(crate) fn offer(rt: &impl Abort, lo: u32, members: u16, body: Body) -> Offer {
    Offer {
        coord: LAST,
        part: GROUP,
        arc: arc(rt, lo),
        members: nodes(11, members.saturating_add(10)),
        body,
        by: 11,
    }
}

// The position where the arc of the group before this one starts.
pub(crate) const BEFORE: u32 = 0x6000_0000;

pub(crate) fn watch(old: Draw) -> Watch {
    Watch {
        coord: old,
        members: Members::one(11),
        part: GROUP,
        old,
        next: link(OTHER, Members::one(12)),
        by: 11,
    }
}

fn coordinating(body: Body, heard: Option<Heard>) -> Lock {
    Lock::Coordinating {
        tx: TX,
        body,
        order: 1,
        heard,
    }
}

fn lock_of(rt: &impl Abort, alloc: Global, start: Start) -> Lock {
    match start {
        Start::Merging(_) => coordinating(Body::Merge, None),
        Start::Begun(body) => coordinating(body, None),
        Start::Heard(body) => coordinating(
            body,
            Some(Heard {
                frozen: frozen(rt, alloc, LAST),
                by: 11,
            }),
        ),
        Start::Promised(body) => Lock::Promised {
            tx: TX,
            offer: offer(rt, BEFORE, 2, body),
        },
        Start::Watching => Lock::Watching {
            tx: TX,
            watch: watch(LAST),
        },
        _ => Lock::Free,
    }
}

// Returns the list of the item, if there is one, and else the empty list.
fn one<T: Drop>(rt: &impl Abort, alloc: Global, item: Option<T>) -> Sequence<T> {
    let mut list = Sequence::new(alloc);
    if let Some(item) = item {
        list.push(item).expect(rt, "memory");
    }
    list
}

fn born_of(start: Start) -> Option<Draw> {
    match start {
        Start::Born => Some(TX),
        _ => None,
    }
}

fn decided_of(start: Start) -> Option<(Draw, Outcome)> {
    match start {
        Start::Decided => Some((TX, Outcome::Abort)),
        _ => None,
    }
}

fn voted_of(start: Start) -> Option<(Draw, Past)> {
    match start {
        Start::Voted => Some((TX, Past::Yes)),
        _ => None,
    }
}

fn gone_of(start: Start, members: Members) -> Option<Route> {
    match start {
        Start::Gone => Some(Route {
            group: LAST,
            lo: 0,
            members,
        }),
        _ => None,
    }
}

fn core(rt: &impl Abort, alloc: Global, start: Start) -> Core {
    let members = nodes(1, members_of(start));
    Core {
        id: GROUP,
        first: 1,
        arc: arc(rt, B),
        members,
        succ: link(succ_of(start), members),
        pred: link(LAST, members),
        lock: lock_of(rt, alloc, start),
        begun: begun_of(start),
        decided: one(rt, alloc, decided_of(start)),
        voted: one(rt, alloc, voted_of(start)),
        born: one(rt, alloc, born_of(start)),
        gone: gone_of(start, members),
    }
}

// Returns what the group knows of its clients.
fn clients(rt: &impl Abort, alloc: Global, start: Start) -> SeenList {
    let mut clients = SeenList::new(alloc);
    if let Start::Noted = start {
        let noted = Noted {
            seq: 2,
            reply: Reply { old: None },
        };
        clients.push(1, noted).expect(rt, "memory");
    }
    clients
}

pub(crate) fn machine(rt: &impl Abort, alloc: Global, start: Start) -> Machine {
    let base = Base {
        core: core(rt, alloc, start),
        pairs: Pairs::new(alloc),
        clients: clients(rt, alloc, start),
    };
    Machine::born(alloc, base).expect(rt, "memory")
}
