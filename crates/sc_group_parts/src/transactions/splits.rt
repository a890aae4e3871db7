//! The plan of a split.
ghost use Rattle.std.specs.Prelude.{◌≡◌, ◌↔◌, IsTrue, ◌≤◌, ◌<◌, IfOk, All, length, [], ◌∷◌, ◌++◌, None, if◌then◌else◌};
ghost use Rattle.sc_words.specs.declared.commands.cores.Lock.TheVariants.{Free};
ghost use Rattle.sc_base.specs.Roster.{IsRoster, least_of};
ghost use Rattle.sc_group_table.specs.machine.Plans.{can_split};
ghost use Rattle.sc_group_table.specs.machine.Splits.{CanSplit, staying, left_members, right_members, left_core, right_core, splits_at_once, left_pred, right_succ};

use crate::transactions::checks::locked_in;
use sc_base::{Draw, Dup, Members, OutOfMemory, RingArc, Sequence};
use sc_words::{Core, Link, Lock};
use std::alloc::Global;

/// Returns whether a group with this record can be split at `at`: its arc holds `at` after its
/// start, and it has at least two members.
pub fn can_split(core: &Core, at: u32) -> bool
    ensures can { IsTrue result ↔ CanSplit core.now at }
    ensures same { result ≡ can_split core.now at }
{
    at != core.arc.lo() && core.arc.holds(at) && core.members.len() >= 2
}

/// Returns the records of the group after a split at `at`, and of its child: the group keeps its
/// name, the arc before `at` and its first `n - n/2` members of `n`, and the child has the rest.
/// The child is the group's successor; where the split is made without a transaction, also its
/// predecessor. The caller has asked `can_split` whether the group can be split there. Pairs and
/// client table are not in the record, and are no part of the plan.
pub fn plan_split(
    alloc: Global,
    core: &Core,
    at: u32,
    child: Draw,
) -> Result<(Core, Core), OutOfMemory>
    requires { CanSplit core.now at }
    ensures { IfOk result
        (λ parts. parts ≡ (left_core core.now at child, right_core core.now at child)) }
{
    let Ok((before, from)) = core.arc.cut(at) else {
        unreachable!();
    };
    let (staying, leaving) = halves(&core.members);
    let to_left = Link {
        group: core.id,
        members: staying,
    };
    let to_right = Link {
        group: child,
        members: leaving,
    };
    let left = left_part(alloc, core, before, &to_left, &to_right)?;
    let right = right_part(alloc, core, from, &to_left, &to_right);
    Ok((left, right))
}

/// Returns the first `n - n/2` of `n` members, and the others.
fn halves(members: &Members) -> (Members, Members)
    requires { 2 ≤ length members.now }
    ensures { result ≡ (left_members members.now, right_members members.now) }
{
    let nodes = members.as_slice();
    let count = nodes.len() - nodes.len() / 2;
    (set_of(&nodes[..count]), set_of(&nodes[count..]))
}

/// Returns the set of these nodes, which are one to nine in ascending order.
fn set_of(nodes: &[u16]) -> Members
    requires { IsRoster nodes.now }
    ensures { result ≡ nodes.now }
{
    let mut members = Members::one(nodes[0]);
    for node in &nodes[1..] {
        put_last(&mut members, *node);
    }
    members
}

/// Adds a node that is greater than all members.
fn put_last(members: &mut Members, node: u16)
    requires above { All (λ member. member < node) members.old }
    requires room { length members.old < 9 }
    ensures { members.new ≡ members.old ++ node ∷ [] }
{
    match members.add(node) {
        Ok(()) => {}
        Err(_) => unreachable!(),
    }
}

/// Returns whether the split is made without a transaction: the group is in none, and is its own
/// successor. In the transaction of a split it has a watcher.
fn splits_at_once(core: &Core) -> bool
    ensures { result ≡ splits_at_once core.now }
{
    match locked_in(&core.lock) {
        None => core.is_alone(),
        Some(_) => false,
    }
}

/// Returns the record of the group that keeps this arc, has the members of `own`, and is followed
/// by `child`.
fn left_part(
    alloc: Global,
    core: &Core,
    arc: RingArc,
    own: &Link,
    child: &Link,
) -> Result<Core, OutOfMemory>
    ensures { IfOk result
        (λ left.
        left
        ≡ record core.now {
          arc = arc;
          members = own.now.members;
          succ = child.now;
          pred = if splits_at_once core.now then child.now else core.now.pred;
          born = core.now.born ++ child.now.group ∷ [];
        }) }
{
    let pred = if splits_at_once(core) {
        *child
    } else {
        core.pred
    };
    let mut left = core.dup(alloc)?;
    left.born.push(child.group)?;
    left.arc = arc;
    left.members = own.members;
    left.succ = *child;
    left.pred = pred;
    Ok(left)
}

/// Returns the record of the child with this arc, whose predecessor is `parent`.
fn right_part(alloc: Global, core: &Core, arc: RingArc, parent: &Link, child: &Link) -> Core
    ensures { result
        ≡ record {
          id = child.now.group;
          first = least_of child.now.members;
          arc = arc;
          members = child.now.members;
          succ = if splits_at_once core.now then parent.now else core.now.succ;
          pred = parent.now;
          lock = Free;
          begun = 0;
          decided = [];
          voted = [];
          born = [];
          gone = None;
        } }
{
    let succ = if splits_at_once(core) {
        *parent
    } else {
        core.succ
    };
    Core {
        id: child.group,
        first: child.members.least(),
        arc,
        members: child.members,
        succ,
        pred: *parent,
        lock: Lock::Free,
        begun: 0,
        decided: Sequence::new(alloc),
        voted: Sequence::new(alloc),
        born: Sequence::new(alloc),
        gone: None,
    }
}
