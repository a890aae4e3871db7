use crate::groups::{CHILD, GROUP, OTHER, group};
use crate::member_tests::is_set;
use sc_base::{Draw, RingArc, Sequence, same_draw};
use sc_group_parts::{can_split, plan_split, splits_keep_the_whole};
use sc_words::{Core, Lock, Outcome};
use std::alloc::Global;
use std::mem::forget;
use std::process::Abort;

/// Returns a group on the whole ring with the members 1 to 5, which has decided one transaction.
fn whole(rt: &impl Abort, alloc: Global, neighbour: Draw) -> Core {
    let arc = RingArc::try_new(0, 1 << 32).expect(rt, "an arc");
    let mut decided = Sequence::new(alloc);
    decided.push((OTHER, Outcome::Abort)).expect(rt, "memory");
    group(alloc, 5, arc, neighbour, Lock::Free, decided)
}

/// Returns the group's record and its child's after a split, of a group with this neighbour.
fn halves(rt: &impl Abort, alloc: Global, neighbour: Draw, at: u32) -> (Core, Core) {
    let core = whole(rt, alloc, neighbour);
    assert!(rt; can_split(&core, at));
    let halves = plan_split(alloc, &core, at, CHILD).expect(rt, "memory");
    forget(core);
    halves
}

fn is_arc(arc: &RingArc, lo: u32, length: u64) -> bool {
    arc.lo() == lo && arc.len() == length
}

fn has_neighbours(core: &Core, pred: (Draw, &[u16]), succ: (Draw, &[u16])) -> bool {
    same_draw(core.pred.group, pred.0)
        && is_set(&core.pred.members, pred.1)
        && same_draw(core.succ.group, succ.0)
        && is_set(&core.succ.members, succ.1)
}

/// Returns whether the group keeps what it has begun and decided and the positions before the
/// boundary, records its child as born, and has it as the neighbour on both sides.
fn is_left(left: &Core) -> bool {
    is_arc(&left.arc, 0, 1828716544)
        && is_set(&left.members, &[1, 2, 3])
        && left.born.len() == 1
        && same_draw(*left.born.at(0), CHILD)
        && left.begun == 7
        && left.decided.len() == 1
        && has_neighbours(left, (CHILD, &[4, 5]), (CHILD, &[4, 5]))
}

/// Returns whether the child is new and has the other positions, with the group as the neighbour on
/// both sides.
fn is_right(child: &Core) -> bool {
    is_arc(&child.arc, 1828716544, 2466250752)
        && is_set(&child.members, &[4, 5])
        && child.begun == 0
        && child.decided.len() == 0
        && child.born.len() == 0
        && same_draw(child.id, CHILD)
        && child.first == 4
        && has_neighbours(child, (GROUP, &[1, 2, 3]), (GROUP, &[1, 2, 3]))
}

#[test]
fn split_plan(rt: HostRuntime) {
    let (left, child) = halves(&rt, rt.alloc(), GROUP, 1828716544);
    let are_so = is_left(&left) && is_right(&child);
    forget(left);
    forget(child);
    assert!(rt; are_so);
}

#[test]
fn a_group_with_neighbours_keeps_the_outer_ones(rt: HostRuntime) {
    let (left, child) = halves(&rt, rt.alloc(), OTHER, 1);
    let outer = (OTHER, [1, 2, 3, 4, 5].as_slice());
    let are_so = has_neighbours(&left, outer, (CHILD, &[4, 5]))
        && has_neighbours(&child, (GROUP, &[1, 2, 3]), outer);
    forget(left);
    forget(child);
    assert!(rt; are_so);
}

/// Returns whether a group of the nodes from 1 to `last` on the positions from 100 to 199 can be
/// split at `at`.
fn can_be_split(rt: &impl Abort, alloc: Global, last: u16, at: u32) -> bool {
    let arc = RingArc::try_new(100, 100).expect(rt, "an arc");
    let core = group(alloc, last, arc, GROUP, Lock::Free, Sequence::new(alloc));
    let can = can_split(&core, at);
    forget(core);
    can
}

#[test]
fn a_group_is_split_inside_its_arc_only(rt: HostRuntime) {
    let cases: [(u16, u32, bool); 6] = [
        (5, 99, false),
        (5, 100, false),
        (5, 101, true),
        (5, 199, true),
        (5, 200, false),
        (1, 101, false),
    ];
    for (last, at, can) in &cases {
        assert!(rt; can_be_split(&rt, rt.alloc(), *last, *at) == *can);
    }
    splits_keep_the_whole();
}
