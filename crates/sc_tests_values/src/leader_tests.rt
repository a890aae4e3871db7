use crate::groups::nodes_to;
use sc_base::Ballot;
use sc_paxos::{Counted, Leader, Must};
use sc_words::Report;
use std::alloc::Global;
use std::mem::forget;
use std::process::Abort;

const FIRST: Ballot = Ballot { round: 1, node: 1 };

const THIRD: Ballot = Ballot { round: 3, node: 2 };

/// Returns a leader of the first ballot with a value in flight at slot 1.
fn offering(rt: &impl Abort, alloc: Global) -> Leader<u32> {
    let mut leader = Leader::first(alloc, FIRST);
    leader.offer(1, 70).expect(rt, "memory");
    leader
}

/// Returns whether a vote in the first ballot at slot 1 is counted so.
fn counts(leader: &mut Leader<u32>, node: u16, wanted: &Counted<u32>) -> bool {
    let counted = leader.on_accepted(node, FIRST, 1, &nodes_to(3));
    let is_wanted = counted == *wanted;
    forget(counted);
    is_wanted
}

#[test]
fn only_members_count_and_once(rt: HostRuntime) {
    let mut leader = offering(&rt, rt.alloc());
    let one = Counted::NotYet { count: 1 };
    let count = [
        counts(&mut leader, 1, &one),
        counts(&mut leader, 1, &one),
        counts(&mut leader, 4, &one),
    ];
    let flight = leader.flight(1).copied();
    let voted = [leader.voted(1, 1), leader.voted(1, 4)];
    forget(one);
    forget(leader);
    assert!(rt; count == [true, true, true] && flight == Some(70) && voted == [true, false]);
}

#[test]
fn a_majority_takes_the_value_out(rt: HostRuntime) {
    let mut leader = offering(&rt, rt.alloc());
    let count = [
        counts(&mut leader, 1, &Counted::NotYet { count: 1 }),
        counts(&mut leader, 2, &Counted::Chosen(70)),
        counts(&mut leader, 3, &Counted::NotYet { count: 0 }),
    ];
    let landed = leader.land(1);
    forget(leader);
    assert!(rt; count == [true, true, true] && landed == None);
}

/// A report: its slot, the round and the node of its ballot, and its value.
pub type Told = (u32, u32, u16, u32);

/// Returns the reports of these rows.
pub fn reports(rt: &impl Abort, alloc: Global, rows: &[Told]) -> Vec<Report<u32>> {
    let mut reports = Vec::new(alloc);
    for (slot, round, node, value) in rows {
        let report = Report {
            slot: *slot,
            ballot: Ballot {
                round: *round,
                node: *node,
            },
            value: *value,
        };
        reports.push(report).expect(rt, "memory");
    }
    reports
}

/// Returns whether the promise of a node counts in the third ballot.
fn promise(
    rt: &impl Abort,
    alloc: Global,
    leader: &mut Leader<u32>,
    node: u16,
    rows: &[Told],
) -> bool {
    let reports = reports(rt, alloc, rows);
    leader.on_promise(node, THIRD, reports).expect(rt, "memory")
}

/// Returns a leader of the third ballot that nodes 1 and 2 have promised.
fn promised(rt: &impl Abort, alloc: Global) -> Leader<u32> {
    let mut leader = Leader::elect(alloc, THIRD, 1);
    let rows = [(1, 1, 1, 10), (3, 1, 1, 30)];
    let first = promise(rt, alloc, &mut leader, 1, &rows);
    let second = promise(rt, alloc, &mut leader, 2, &[(1, 2, 1, 11)]);
    assert!(rt; first && second);
    leader
}

#[test]
fn a_majority_of_promises_settles_a_leader(rt: HostRuntime) {
    let new: Leader<u32> = Leader::elect(rt.alloc(), THIRD, 1);
    let early = new.settled(THIRD, &nodes_to(3));
    forget(new);
    let leader = promised(&rt, rt.alloc());
    let settled = leader.settled(THIRD, &nodes_to(3));
    let ballot = leader.ballot();
    let other = leader.settled(Ballot { round: 3, node: 3 }, &nodes_to(3));
    forget(leader);
    assert!(rt; !early && settled && ballot == THIRD && !other);
}

/// Returns whether this is what the leader must do at a slot.
fn must(rt: &impl Abort, leader: &Leader<u32>, slot: u32, wanted: &Must<u32>) -> bool {
    let must = leader.must(slot).expect(rt, "memory");
    let is_wanted = must == *wanted;
    forget(must);
    is_wanted
}

#[test]
fn a_promise_counts_once_and_an_elected_leader_obeys_its_reports(rt: HostRuntime) {
    let mut leader = promised(&rt, rt.alloc());
    let again = promise(&rt, rt.alloc(), &mut leader, 1, &[]);
    let musts = [
        must(&rt, &leader, 1, &Must::Value(11)),
        must(&rt, &leader, 2, &Must::Gap),
        must(&rt, &leader, 4, &Must::Free),
    ];
    forget(leader);
    assert!(rt; !again && musts == [true, true, true]);
}
