use sc_paxos::{Glog, Learnt};
use std::mem::forget;
use std::process::Abort;

/// Returns the log's answer to a value at a slot below the last.
fn learnt(rt: &impl Abort, log: &mut Glog<u32>, slot: u32, value: u32) -> Learnt {
    assert!(rt; slot < u32::MAX);
    log.learn(slot, value).expect(rt, "memory")
}

/// Gives the log values at these slots, one after another, and checks its answers.
fn check(rt: &impl Abort, log: &mut Glog<u32>, rows: &[(u32, u32, Learnt)]) {
    for (slot, value, answer) in rows {
        assert!(rt; learnt(rt, log, *slot, *value) == *answer);
    }
}

fn are_held(log: &Glog<u32>, rows: &[(u32, Option<u32>)]) -> bool {
    for (slot, entry) in rows {
        if log.entry(*slot).copied() != *entry {
            return false;
        }
    }
    true
}

const LEARNT: &[(u32, u32, Learnt)] = &[
    (2, 20, Learnt::Ahead { next: 1 }),
    (1, 10, Learnt::Learnt),
    (1, 11, Learnt::Known),
    (2, 20, Learnt::Learnt),
    (3, 30, Learnt::Learnt),
];

// What the log holds of these values behind the first slot.
const HELD: &[(u32, Option<u32>)] = &[
    (0, None),
    (1, None),
    (2, Some(20)),
    (3, Some(30)),
    (4, None),
];

#[test]
fn entries_are_learnt_in_order_and_dropped_from_the_first_on(rt: HostRuntime) {
    let mut log: Glog<u32> = Glog::born(rt.alloc());
    let first = log.next();
    check(&rt, &mut log, LEARNT);
    assert!(rt; log.next() == 4);
    log.cut(1);
    let after = log.next();
    let are_held = are_held(&log, HELD);
    forget(log);
    assert!(rt; first == 1 && after == 4 && are_held);
}

#[test]
fn a_log_is_installed_after_a_slot(rt: HostRuntime) {
    let mut log: Glog<u32> = Glog::born(rt.alloc());
    check(&rt, &mut log, &[(1, 10, Learnt::Learnt)]);
    assert!(rt; log.next() == 2);
    log.install(64);
    let after = log.next();
    let is_gone = are_held(&log, &[(1, None)]);
    check(&rt, &mut log, &[(65, 650, Learnt::Learnt)]);
    let is_held = are_held(&log, &[(65, Some(650))]);
    forget(log);
    assert!(rt; after == 65 && is_gone && is_held);
}
