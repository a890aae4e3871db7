//! Commands for a group and their effects, in brief.
use crate::starts::{BEFORE, LAST, TX, frozen, offer, watch};
use sc_base::{Boxed, Draw, Key, Members, Op, Pairs, SeenList, Value};
use sc_group::Machine;
use sc_words::{Body, Command, Effect, Gift, No, Outcome, Past, Route, Vote};
use std::alloc::Global;
use std::mem::forget;
use std::process::Abort;

// A command for the group, in brief.
#[derive(Clone, Copy)]
pub(crate) enum Ask {
    Noop,
    Put(u32, &'static [u8]),
    Join(u16),
    Leave(u16),
    Split(Draw, u32),
    Begin(Draw, Body),
    // An offer of a group whose arc starts at this position, with this number of members.
    Prepared(u32, u16, Body),
    Watched(Draw),
    // The vote of Yes on a transaction, of a group with this successor; and the vote of No.
    Yes(Draw, Draw),
    No,
    GiveUp,
    Finish(End),
    Watch(Past),
}

// How a transaction ended.
#[derive(Clone, Copy)]
pub(crate) enum End {
    Abort,
    Merged,
    Given(u32),
    Taken(u32),
    Migrated(u16),
    Divided,
}

fn put(rt: &impl Abort, alloc: Global, seq: u32, key: &[u8]) -> Command {
    let op = Op::Put {
        key: Key::try_new(alloc, key).expect(rt, "a key"),
        value: Value::try_new(alloc, b"x").expect(rt, "a value"),
    };
    Command::Call { client: 1, seq, op }
}

// Returns a gift without pairs or clients.
fn gift(alloc: Global) -> Gift {
    Gift {
        pairs: Pairs::new(alloc),
        clients: SeenList::new(alloc),
    }
}

fn outcome(rt: &impl Abort, alloc: Global, end: End) -> Outcome {
    match end {
        End::Abort => Outcome::Abort,
        End::Merged => Outcome::Merged {
            into: Route {
                group: LAST,
                lo: BEFORE,
                members: Members::one(11),
            },
        },
        End::Given(at) => Outcome::Moved {
            at,
            gift: Some(boxed(rt, alloc, gift(alloc))),
        },
        End::Taken(at) => Outcome::Moved { at, gift: None },
        End::Migrated(node) => Outcome::Migrated { node },
        End::Divided => Outcome::Divided,
    }
}

fn order(ask: Ask) -> Command {
    let order = 1;
    match ask {
        Ask::Join(node) => Command::Join { node, order },
        Ask::Leave(node) => Command::Leave { node, order },
        Ask::Split(child, at) => Command::Split { at, child, order },
        Ask::Begin(tx, body) => Command::Begin { tx, body, order },
        _ => Command::Noop,
    }
}

fn boxed<T: Drop>(rt: &impl Abort, alloc: Global, value: T) -> Boxed<T> {
    Boxed::new(alloc, value).expect(rt, "memory")
}

pub(crate) fn command(rt: &impl Abort, alloc: Global, ask: Ask) -> Command {
    match ask {
        Ask::Put(seq, key) => put(rt, alloc, seq, key),
        Ask::Prepared(lo, members, body) => Command::Prepared {
            tx: TX,
            offer: boxed(rt, alloc, offer(rt, lo, members, body)),
        },
        Ask::Watched(old) => Command::Watched {
            tx: TX,
            watch: boxed(rt, alloc, watch(old)),
        },
        Ask::Yes(tx, succ) => Command::RecordVote {
            tx,
            vote: Vote::Yes(boxed(rt, alloc, frozen(rt, alloc, succ))),
            by: 11,
        },
        Ask::No => Command::RecordVote {
            tx: TX,
            vote: Vote::No(No::Apart),
            by: 11,
        },
        Ask::GiveUp => Command::GiveUp { tx: TX },
        Ask::Finish(end) => Command::Finish {
            tx: TX,
            outcome: outcome(rt, alloc, end),
        },
        Ask::Watch(vote) => Command::RecordWatch {
            tx: TX,
            vote,
            by: 11,
        },
        _ => order(ask),
    }
}

// The effect of a command, in brief.
#[derive(Clone, Copy, PartialEq)]
pub(crate) enum Was {
    // The request was executed: with `Done` the key had no value before, with `Found` it had one.
    Done,
    Found,
    Again,
    Stale,
    NotMine,
    Gone,
    Nothing,
    Idle,
    Changed,
    Yes,
    Busy,
    IsGone,
    Apart,
    TooMany(u8),
    Ended,
    Abort,
    Merged,
    Given,
    Taken,
    Migrated,
    Divided,
    Refused(u8),
}

fn voted(vote: &Past) -> Was {
    match vote {
        Past::Yes => Was::Yes,
        Past::No(No::Busy { .. }) => Was::Busy,
        Past::No(No::Gone) => Was::IsGone,
        Past::No(No::Apart) => Was::Apart,
        Past::No(No::TooMany { n }) => Was::TooMany(*n),
        Past::Ended => Was::Ended,
    }
}

fn decided(outcome: &Outcome) -> Was {
    match outcome {
        Outcome::Abort => Was::Abort,
        Outcome::Merged { .. } => Was::Merged,
        Outcome::Moved { gift: Some(_), .. } => Was::Given,
        Outcome::Moved { gift: None, .. } => Was::Taken,
        Outcome::Migrated { .. } => Was::Migrated,
        Outcome::Divided => Was::Divided,
    }
}

fn brief(effect: &Effect) -> Was {
    match effect {
        Effect::Done(reply) => if reply.old.is_some() {
            Was::Found
        } else {
            Was::Done
        },
        Effect::Again(_) => Was::Again,
        Effect::Stale { .. } => Was::Stale,
        Effect::NotMine { .. } => Was::NotMine,
        Effect::Gone { .. } => Was::Gone,
        Effect::NoEffect { .. } => Was::Nothing,
        Effect::Idle => Was::Idle,
        Effect::Changed => Was::Changed,
        Effect::Voted(vote) => voted(vote),
        Effect::Decided(outcome) => decided(outcome),
        Effect::Refused(why) => Was::Refused(why.code()),
    }
}

// Returns the effect of a command, in brief.
pub(crate) fn applied(rt: &impl Abort, machine: &mut Machine, command: Command) -> Was {
    let effect = machine.apply(&command).expect(rt, "memory");
    let was = brief(&effect);
    forget(effect);
    forget(command);
    was
}
