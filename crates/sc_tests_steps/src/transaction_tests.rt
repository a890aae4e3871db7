use crate::asks::{Was, applied};
use sc_base::{Boxed, Draw, Dup, Key, Members, Op, Pairs, RingArc, SeenList, Sequence, Value};
use sc_group::Machine;
use sc_words::{Base, Body, Command, Core, Link, Lock, Offer, Outcome, Past, Vote, Watch};
use std::alloc::Global;
use std::mem::forget;
use std::process::Abort;

const FIRST: Draw = Draw { node: 0, count: 1 };

const SECOND: Draw = Draw { node: 0, count: 2 };

const THIRD: Draw = Draw { node: 0, count: 3 };

const TX: Draw = Draw { node: 1, count: 7 };

const LATER: Draw = Draw { node: 1, count: 8 };

const OTHER: Draw = Draw { node: 1, count: 9 };

// The position of the key `b`.
const B: u32 = 0x6200_0000;

fn link(group: Draw, node: u16) -> Link {
    Link {
        group,
        members: Members::one(node),
    }
}

// Returns one of three groups on a ring.
fn core(alloc: Global, id: Draw, node: u16, arc: RingArc, around: (Link, Link)) -> Core {
    Core {
        id,
        first: node,
        arc,
        members: Members::one(node),
        succ: around.0,
        pred: around.1,
        lock: Lock::Free,
        begun: 0,
        decided: Sequence::new(alloc),
        voted: Sequence::new(alloc),
        born: Sequence::new(alloc),
        gone: None,
    }
}

fn arc_of(rt: &impl Abort, lo: u32, len: u64) -> RingArc {
    RingArc::try_new(lo, len).expect(rt, "an arc")
}

fn machine_of(rt: &impl Abort, alloc: Global, core: Core) -> Machine {
    let base = Base {
        core,
        pairs: Pairs::new(alloc),
        clients: SeenList::new(alloc),
    };
    Machine::born(alloc, base).expect(rt, "memory")
}

// Returns the first group, of node 1, which holds the positions before that of `b`.
fn first_group(rt: &impl Abort, alloc: Global) -> Machine {
    let around = (link(SECOND, 2), link(THIRD, 3));
    machine_of(
        rt,
        alloc,
        core(alloc, FIRST, 1, arc_of(rt, 0, B as u64), around),
    )
}

// Returns the second group, of node 2, which holds the positions from that of `b` to that of `d`.
fn second_group(rt: &impl Abort, alloc: Global) -> Machine {
    let around = (link(THIRD, 3), link(FIRST, 1));
    machine_of(
        rt,
        alloc,
        core(alloc, SECOND, 2, arc_of(rt, B, 0x0200_0000), around),
    )
}

fn put(rt: &impl Abort, alloc: Global, client: u16, key: &[u8]) -> Command {
    let op = Op::Put {
        key: Key::try_new(alloc, key).expect(rt, "a key"),
        value: Value::try_new(alloc, b"x").expect(rt, "a value"),
    };
    Command::Call { client, seq: 1, op }
}

// A command in brief: a put of a client, or a step of a transaction. `Yes` is the second group's
// vote, and `Divided` an outcome that fits no transaction here.
#[derive(Clone, Copy)]
enum Ask {
    Put(u16, &'static [u8]),
    Begin(Draw, Body),
    Prepared(Draw, Body),
    Yes,
    GiveUp,
    Watched(Draw, Draw),
    WatchedYes,
    Divided,
}

// A command, and its effect.
type Step = (Ask, Was);

fn offer(rt: &impl Abort, body: Body) -> Offer {
    Offer {
        coord: FIRST,
        part: SECOND,
        arc: arc_of(rt, 0, B as u64),
        members: Members::one(1),
        body,
        by: 1,
    }
}

fn vote_of_second(rt: &impl Abort, alloc: Global) -> Vote {
    let second = second_group(rt, alloc);
    let frozen = second.frozen().expect(rt, "memory");
    forget(second);
    Vote::Yes(boxed(rt, alloc, frozen))
}

fn watch(old: Draw) -> Watch {
    Watch {
        coord: old,
        members: Members::one(3),
        part: FIRST,
        old,
        next: link(SECOND, 2),
        by: 3,
    }
}

fn boxed<T: Drop>(rt: &impl Abort, alloc: Global, value: T) -> Boxed<T> {
    Boxed::new(alloc, value).expect(rt, "memory")
}

fn command_of(rt: &impl Abort, alloc: Global, ask: Ask) -> Command {
    match ask {
        Ask::Put(client, key) => put(rt, alloc, client, key),
        Ask::Begin(tx, body) => Command::Begin { tx, body, order: 1 },
        Ask::Prepared(tx, body) => Command::Prepared {
            tx,
            offer: boxed(rt, alloc, offer(rt, body)),
        },
        Ask::Yes => Command::RecordVote {
            tx: TX,
            vote: vote_of_second(rt, alloc),
            by: 2,
        },
        Ask::GiveUp => Command::GiveUp { tx: TX },
        Ask::Watched(tx, old) => Command::Watched {
            tx,
            watch: boxed(rt, alloc, watch(old)),
        },
        Ask::WatchedYes => Command::RecordWatch {
            tx: TX,
            vote: Past::Yes,
            by: 3,
        },
        Ask::Divided => Command::Finish {
            tx: TX,
            outcome: Outcome::Divided,
        },
    }
}

// Carries out these commands, one after the other, and checks the effect of each.
fn take(rt: &impl Abort, alloc: Global, machine: &mut Machine, steps: &[Step]) {
    for (ask, effect) in steps {
        let was = applied(rt, machine, command_of(rt, alloc, *ask));
        assert!(rt; was == *effect);
    }
}

fn take_by_first(rt: &impl Abort, alloc: Global, steps: &[Step]) {
    let mut first = first_group(rt, alloc);
    take(rt, alloc, &mut first, steps);
    forget(first);
}

const GIVEN_UP: &[Step] = &[
    (Ask::Begin(TX, Body::Merge), Was::Changed),
    (Ask::GiveUp, Was::Abort),
    (Ask::Yes, Was::Nothing),
];

#[test]
fn give_up_then_yes(rt: HostRuntime) {
    take_by_first(&rt, rt.alloc(), GIVEN_UP);
}

const WATCHING: &[Step] = &[
    (Ask::Watched(LATER, SECOND), Was::Apart),
    (Ask::Watched(TX, THIRD), Was::Yes),
    (Ask::Put(1, b"a"), Was::Done),
    (Ask::Begin(OTHER, Body::Merge), Was::Refused(2)),
    (Ask::Prepared(OTHER, Body::Merge), Was::Busy),
];

#[test]
fn watching_machine(rt: HostRuntime) {
    take_by_first(&rt, rt.alloc(), WATCHING);
}

const MOVED: Body = Body::Repart { at: 0x6170_0000 };

// The commands by which the first group gives away what it holds from `az` on.
const GIVING: &[Step] = &[
    (Ask::Put(1, b"a"), Was::Done),
    (Ask::Put(2, b"az"), Was::Done),
    (Ask::Begin(TX, MOVED), Was::Changed),
    (Ask::Yes, Was::Given),
];

// The commands after the boundary has moved.
const GIVEN: &[Step] = &[
    (Ask::Put(1, b"a"), Was::Again),
    (Ask::Put(2, b"az"), Was::NotMine),
];

#[test]
fn a_boundary_moves_with_its_pairs(rt: HostRuntime) {
    let mut first = first_group(&rt, rt.alloc());
    take(&rt, rt.alloc(), &mut first, GIVING);
    take(&rt, rt.alloc(), &mut first, GIVEN);
    forget(first);
}

// Returns what a group has decided, if it has decided one transaction.
fn decided(rt: &impl Abort, alloc: Global, machine: &Machine) -> Outcome {
    match machine.core().decided.as_slice() {
        [entry] => entry.1.dup(alloc).expect(rt, "memory"),
        _ => panic!(rt; "not one outcome"),
    }
}

// Returns the command by which the second group ends the transaction with the gift of the first.
fn gift(rt: &impl Abort, alloc: Global) -> Command {
    let mut first = first_group(rt, alloc);
    take(rt, alloc, &mut first, GIVING);
    let outcome = decided(rt, alloc, &first);
    forget(first);
    Command::Finish { tx: TX, outcome }
}

const BEFORE_GIFT: &[Step] = &[
    (Ask::Prepared(TX, MOVED), Was::Yes),
    (Ask::Put(3, b"c"), Was::Nothing),
    (Ask::Divided, Was::Nothing),
];

const AFTER_GIFT: &[Step] = &[
    (Ask::Put(2, b"az"), Was::Again),
    (Ask::Prepared(TX, MOVED), Was::Nothing),
];

#[test]
fn a_gift_comes_with_its_clients(rt: HostRuntime) {
    let mut second = second_group(&rt, rt.alloc());
    take(&rt, rt.alloc(), &mut second, BEFORE_GIFT);
    let was = applied(&rt, &mut second, gift(&rt, rt.alloc()));
    take(&rt, rt.alloc(), &mut second, AFTER_GIFT);
    forget(second);
    assert!(rt; was == Was::Given);
}

const MERGING: &[Step] = &[
    (Ask::Begin(TX, Body::Merge), Was::Changed),
    (Ask::Yes, Was::Changed),
    (Ask::Yes, Was::Nothing),
    (Ask::WatchedYes, Was::Merged),
    (Ask::Put(3, b"c"), Was::Done),
];

#[test]
fn a_merge_waits_for_its_watcher(rt: HostRuntime) {
    take_by_first(&rt, rt.alloc(), MERGING);
}
