use crate::groups::{GROUP, group};
use crate::values::{call, pair, reply, seen};
use sc_base::{Boxed, Dup, Members, Pairs, RingArc, SeenList, Sequence};
use sc_words::{
    Base, Body, Command, DecidedList, Frozen, Gift, Heard, Link, Lock, Outcome, Vote, base_weight,
    command_weight,
};
use std::alloc::Global;
use std::mem::forget;
use std::process::Abort;

// Returns one pair, which counts 34 bytes, and one entry of a client table, which counts 33.
fn kept(rt: &impl Abort, alloc: Global) -> (Pairs, SeenList) {
    let clients = seen(rt, alloc, 1, 1, reply(rt, alloc, b"y"));
    (pair(rt, alloc, b"x"), clients)
}

fn one_position(rt: &impl Abort) -> RingArc {
    RingArc::try_new(0, 1).expect(rt, "one position")
}

fn boxed<T: Drop>(rt: &impl Abort, alloc: Global, value: T) -> Boxed<T> {
    Boxed::new(alloc, value).expect(rt, "memory")
}

fn frozen(rt: &impl Abort, alloc: Global) -> Frozen {
    let members = Members::one(1);
    let (pairs, clients) = kept(rt, alloc);
    Frozen {
        arc: one_position(rt),
        members,
        succ: Link {
            group: GROUP,
            members,
        },
        pairs,
        clients,
    }
}

fn gift(rt: &impl Abort, alloc: Global) -> Outcome {
    let (pairs, clients) = kept(rt, alloc);
    let gift = Gift { pairs, clients };
    Outcome::Moved {
        at: 7,
        gift: Some(boxed(rt, alloc, gift)),
    }
}

// Returns the counted bytes of a copy of a command.
fn weight_of(rt: &impl Abort, alloc: Global, command: Command) -> u64 {
    let copy = command.dup(alloc).expect(rt, "memory");
    let weight = command_weight(&copy);
    forget(copy);
    forget(command);
    weight
}

// Shows the counted bytes of a call, a vote, an outcome, and a command that has only numbers.
#[test]
fn calls_count_their_texts_and_votes_and_outcomes_what_they_carry(rt: HostRuntime) {
    let weights = [
        weight_of(&rt, rt.alloc(), call(&rt, rt.alloc())),
        weight_of(
            &rt,
            rt.alloc(),
            Command::RecordVote {
                tx: GROUP,
                vote: Vote::Yes(boxed(&rt, rt.alloc(), frozen(&rt, rt.alloc()))),
                by: 1,
            },
        ),
        weight_of(
            &rt,
            rt.alloc(),
            Command::Finish {
                tx: GROUP,
                outcome: gift(&rt, rt.alloc()),
            },
        ),
        weight_of(&rt, rt.alloc(), Command::GiveUp { tx: GROUP }),
    ];
    assert!(rt; weights == [8, 67, 67, 0]);
}

// Returns a group of one node alone on a ring, whose lock has heard of a participant's record, and
// which has decided one moved boundary with a gift.
fn base(rt: &impl Abort, alloc: Global) -> Base {
    let lock = Lock::Coordinating {
        tx: GROUP,
        body: Body::Merge,
        order: 1,
        heard: Some(Heard {
            frozen: frozen(rt, alloc),
            by: 2,
        }),
    };
    let mut decided: DecidedList = Sequence::new(alloc);
    decided.push((GROUP, gift(rt, alloc))).expect(rt, "memory");
    let core = group(alloc, 1, one_position(rt), GROUP, lock, decided);
    let (pairs, clients) = kept(rt, alloc);
    Base {
        core,
        pairs,
        clients,
    }
}

// Returns the counted bytes of a copy of a group's record.
fn weight_of_base(rt: &impl Abort, alloc: Global, base: Base) -> u64 {
    let copy = base.dup(alloc).expect(rt, "memory");
    let weight = base_weight(&copy);
    forget(copy);
    forget(base);
    weight
}

#[test]
fn a_base_counts_its_gifts_and_what_it_heard(rt: HostRuntime) {
    let weight = weight_of_base(&rt, rt.alloc(), base(&rt, rt.alloc()));
    assert!(rt; weight == 201);
}
