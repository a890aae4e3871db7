use sc_base::Ballot;
use sc_paxos::{AcceptAnswer, Acceptor, PrepareAnswer};
use sc_words::Report;
use std::mem::forget;
use std::process::Abort;

fn ballot(round: u32, node: u16) -> Ballot {
    Ballot { round, node }
}

/// Returns the acceptor's answer to a value at a slot that it has not forgotten.
fn answer(
    rt: &impl Abort,
    acceptor: &mut Acceptor<u32>,
    ballot: Ballot,
    slot: u32,
    value: u32,
) -> AcceptAnswer {
    assert!(rt; slot > acceptor.floor());
    acceptor.reserve().expect(rt, "memory");
    acceptor.on_accept(ballot, slot, value)
}

/// Returns the promise that the acceptor, which has forgotten nothing, reports where it ignores a
/// ballot.
fn answered_ballot(
    rt: &impl Abort,
    acceptor: &mut Acceptor<u32>,
    ballot: Ballot,
) -> Option<Ballot> {
    assert!(rt; acceptor.floor() == 0);
    let answer = acceptor.on_prepare(ballot, 1).expect(rt, "memory");
    let answered = match &answer {
        PrepareAnswer::Promise { reports: _ } => None,
        PrepareAnswer::Ignored { promised } => Some(*promised),
    };
    forget(answer);
    answered
}

#[test]
fn a_promise_binds(rt: HostRuntime) {
    let promised = ballot(2, 2);
    let mut acceptor: Acceptor<u32> = Acceptor::born(rt.alloc(), promised);
    let answered = answered_ballot(&rt, &mut acceptor, promised);
    let lower = answer(&rt, &mut acceptor, ballot(1, 9), 1, 10);
    let same = answer(&rt, &mut acceptor, promised, 1, 10);
    let kept = acceptor.promised();
    forget(acceptor);
    assert!(rt; answered == Some(promised) && kept == promised);
    assert!(rt; lower == AcceptAnswer::Ignored { promised } && same == AcceptAnswer::Accepted);
}

/// Values to accept, each with its slot and a round of node 1.
type Rows<'a> = &'a [(u32, u32, u32)];

fn accept(rt: &impl Abort, acceptor: &mut Acceptor<u32>, rows: Rows) {
    for (slot, round, value) in rows {
        let found = answer(rt, acceptor, ballot(*round, 1), *slot, *value);
        assert!(rt; found == AcceptAnswer::Accepted);
    }
}

fn report(slot: u32, round: u32, value: u32) -> Report<u32> {
    Report {
        slot,
        ballot: ballot(round, 1),
        value,
    }
}

fn is_promise(answer: &PrepareAnswer<u32>, wanted: &[Report<u32>]) -> bool {
    match answer {
        PrepareAnswer::Promise { reports } => reports.as_slice() == wanted,
        PrepareAnswer::Ignored { promised: _ } => false,
    }
}

#[test]
fn what_was_accepted_last_is_reported_by_slot(rt: HostRuntime) {
    let mut acceptor: Acceptor<u32> = Acceptor::born(rt.alloc(), ballot(1, 1));
    let given = [(3, 1, 30), (1, 1, 10), (2, 1, 20), (2, 2, 21), (5, 2, 50)];
    accept(&rt, &mut acceptor, &given);
    acceptor.cut(1);
    assert!(rt; acceptor.floor() == 1);
    let promise = acceptor.on_prepare(ballot(3, 1), 2).expect(&rt, "memory");
    let wanted = [report(2, 2, 21), report(3, 1, 30), report(5, 2, 50)];
    let is_promise = is_promise(&promise, &wanted);
    let promised = acceptor.promised();
    forget(promise);
    forget(acceptor);
    assert!(rt; is_promise && promised == ballot(3, 1));
}
