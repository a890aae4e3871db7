use sc_base::{Dup, MemberError, Members};
use std::process::Abort;

/// Returns the set of these nodes, added one after another.
fn set_of(rt: &impl Abort, first: u16, rest: &[u16]) -> Members {
    let mut members = Members::one(first);
    for node in rest {
        members.add(*node).expect(rt, "a node more");
    }
    members
}

/// Returns whether the set has exactly these nodes.
pub fn is_set(members: &Members, nodes: &[u16]) -> bool {
    members.as_slice() == nodes
}

#[test]
fn nodes_are_added_in_any_order_and_removed(rt: HostRuntime) {
    let mut members = set_of(&rt, 5, &[2, 9, 7]);
    let are_added = is_set(&members, &[2, 5, 7, 9]);
    let answers = [members.add(5), members.remove(3), members.remove(5)];
    let is_removed = is_set(&members, &[2, 7, 9]);
    let wanted = [Err(MemberError::Present), Err(MemberError::Absent), Ok(())];
    assert!(rt; are_added && answers == wanted && is_removed);
    assert!(rt; members.dup(rt.alloc()) == Ok(members));
}

#[test]
fn the_last_node_stays_and_a_tenth_is_refused(rt: HostRuntime) {
    let mut nine = set_of(&rt, 1, &[2, 3, 4, 5, 6, 7, 8, 9]);
    let answers = [Members::one(4).remove(4), nine.add(10)];
    assert!(rt; answers == [Err(MemberError::Last), Err(MemberError::Full)]);
}

/// Returns whether the member after each node is the one beside it.
fn are_next(members: &Members, cases: &[(u16, u16)]) -> bool {
    for (node, next) in cases {
        if members.after(*node) != *next {
            return false;
        }
    }
    true
}

#[test]
fn the_next_member_goes_round(rt: HostRuntime) {
    let members = set_of(&rt, 2, &[5, 9]);
    let are_next = are_next(&members, &[(0, 2), (2, 5), (4, 5), (5, 9), (9, 2), (32, 2)]);
    let (least, count) = (members.least(), members.len());
    let (has, has_not) = (members.has(9), !members.has(8));
    assert!(rt; are_next && least == 2 && count == 3 && has && has_not);
}

#[test]
fn half_is_no_majority_and_strangers_do_not_count(rt: HostRuntime) {
    let four = set_of(&rt, 1, &[2, 3, 4]);
    let are = [
        four.is_majority(&[1, 2]),
        four.is_majority(&[1, 1, 2, 8, 9]),
        four.is_majority(&[4, 1, 2]),
    ];
    assert!(rt; are == [false, false, true]);
}
