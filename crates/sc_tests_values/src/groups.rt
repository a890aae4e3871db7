//! Groups, as the tests of orders and splits need them.
use sc_base::{Draw, Members, RingArc, Sequence};
use sc_words::{Core, DecidedList, Link, Lock};
use std::alloc::Global;

/// The group that gets the order.
pub const GROUP: Draw = Draw { node: 0, count: 1 };

/// The name of another group, or of a transaction.
pub const OTHER: Draw = Draw { node: 0, count: 2 };

/// The name of the child of a split, or of a transaction.
pub const CHILD: Draw = Draw { node: 1, count: 1 };

/// Returns the name of the group 0.1, 0.2 and so on.
pub fn numbered(count: u32) -> Draw {
    Draw { node: 0, count }
}

/// Returns the nodes from 1 to `last`, or node 1 alone where that is no set of members.
pub fn nodes_to(last: u16) -> Members {
    let mut members = Members::one(1);
    for node in 2..=last {
        let _ = members.add(node);
    }
    members
}

/// Returns a link to a group with the members from 1 to `last`.
fn link(group: Draw, last: u16) -> Link {
    Link {
        group,
        members: nodes_to(last),
    }
}

/// Returns a group with the members from 1 to `last` on an arc, with the same neighbour on both
/// sides.
pub fn group(
    alloc: Global,
    last: u16,
    arc: RingArc,
    neighbour: Draw,
    lock: Lock,
    decided: DecidedList,
) -> Core {
    Core {
        id: GROUP,
        first: 1,
        arc,
        members: nodes_to(last),
        succ: link(neighbour, last),
        pred: link(neighbour, last),
        lock,
        begun: 7,
        decided,
        voted: Sequence::new(alloc),
        born: Sequence::new(alloc),
        gone: None,
    }
}
