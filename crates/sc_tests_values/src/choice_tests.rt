use crate::leader_tests::{Told, reports};
use crate::values::is_copied;
use sc_base::Ballot;
use sc_paxos::pick;
use sc_words::{Report, acceptors_never_fall, choice_is_first_highest};
use std::alloc::Global;
use std::mem::forget;
use std::process::Abort;

fn picked(rt: &impl Abort, alloc: Global, slot: u32, rows: &[Told]) -> Option<u32> {
    let reports = reports(rt, alloc, rows);
    let picked = pick(alloc, slot, &reports).expect(rt, "memory");
    forget(reports);
    picked
}

#[test]
fn the_highest_ballot_of_the_slot_is_picked(rt: HostRuntime) {
    let rows = [(3, 1, 1, 10), (3, 2, 2, 20), (4, 5, 1, 30)];
    let picked = [
        picked(&rt, rt.alloc(), 3, &rows),
        picked(&rt, rt.alloc(), 5, &rows),
    ];
    assert!(rt; picked == [Some(20), None]);
}

#[test]
fn the_node_breaks_a_tie_of_rounds_and_the_first_of_equals_stands(rt: HostRuntime) {
    let rows = [(1, 2, 9, 10), (1, 3, 1, 20), (1, 3, 2, 30), (1, 3, 2, 40)];
    assert!(rt; picked(&rt, rt.alloc(), 1, &rows) == Some(30));
}

#[test]
fn reports_are_copied(rt: HostRuntime) {
    let report: Report<u32> = Report {
        slot: 3,
        ballot: Ballot { round: 2, node: 7 },
        value: 40,
    };
    assert!(rt; is_copied(&rt, rt.alloc(), report));
    choice_is_first_highest::<u32>();
    acceptors_never_fall::<u32>();
}
