//! A group for which no rows accept a command is known without a walk through the rows, and as by
//! a walk through none.
use crate::ring_tests::parent;
use sc_base::Same;
use sc_words::Base;
use sc_world_logs::{Known, known_of, unheard_of};
use std::mem::forget;

// Returns whether a group is known to be as it was created, with nothing in its log.
fn is_as_created(known: &Known, base: &Base) -> bool {
    let core = known.state.core();
    known.base.is_same(base)
        && known.log.is_empty()
        && known.children.is_empty()
        && known.members.is_empty()
        && core.id == base.core.id
        && core.members == base.core.members
}

#[test]
fn a_group_of_which_nothing_was_heard_is_as_it_was_created(rt: HostRuntime) {
    let alloc = rt.alloc();
    let base = parent(&rt, alloc);
    let unheard = unheard_of(alloc, parent(&rt, alloc)).expect(&rt, "memory");
    let walked = known_of(alloc, parent(&rt, alloc), &[]).expect(&rt, "memory");
    let are_as_created = is_as_created(&unheard, &base) && is_as_created(&walked, &base);
    forget(walked);
    forget(unheard);
    forget(base);
    assert!(rt; are_as_created);
}
