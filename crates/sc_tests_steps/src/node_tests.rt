//! A node of one group steps as its replica does.
ghost use Rattle.std.specs.Prelude.{◌≡◌, true, IfSome};
ghost use Rattle.sc_node_table.specs.Node.{may_come};
ghost use Rattle.sc_node.specs.GivenInputs.{may_take};

use crate::samples::{accept, accepted, copy, get, group, request};
use sc_actor::Input;
use sc_base::{Draws, Op, Same, Sequence};
use sc_mail::{Mail, MailBody};
use sc_node::{NodeCore, are_in_order, step_replica};
use sc_node_replica::{Replica, ReplicaInput};
use sc_words::OrderLine;
use std::alloc::Global;
use std::mem::forget;
use std::process::Abort;

// An input: a mail for the group, or a tick.
#[derive(Clone, Copy)]
enum Step {
    Request(u32),
    Accept(u32),
    Accepted(u32),
    Tick,
}

const STEPS: [Step; 6] = [
    Step::Request(1),
    Step::Tick,
    Step::Accept(1),
    Step::Accepted(1),
    Step::Request(1),
    Step::Tick,
];

fn mail(from: u32, body: MailBody) -> Mail
    requires { may_come from body ≡ true }
    ensures { may_come result.from result.body ≡ true }
{
    Mail { from, to: 1, body }
}

// Returns the mail of a step, or `None` at a tick.
fn mail_of(rt: &impl Abort, alloc: Global, step: Step, op: &Op) -> Option<Mail>
    ensures { IfSome result (λ mail. may_come mail.from mail.body ≡ true) }
{
    match step {
        Step::Request(seq) => Some(mail(33, request(seq, copy(rt, alloc, op)))),
        Step::Accept(slot) => Some(mail(1, accept(slot, copy(rt, alloc, op)))),
        Step::Accepted(slot) => Some(mail(1, accepted(slot))),
        Step::Tick => None,
    }
}

fn input_of(rt: &impl Abort, alloc: Global, step: Step, op: &Op) -> Input<Mail, OrderLine> {
    match mail_of(rt, alloc, step, op) {
        Some(mail) => Input::Got(mail),
        None => Input::Tick,
    }
}

fn replica_input_of(rt: &impl Abort, alloc: Global, step: Step, op: &Op) -> ReplicaInput
    ensures { may_take result ≡ true }
{
    match mail_of(rt, alloc, step, op) {
        Some(mail) => ReplicaInput::Got(mail),
        None => ReplicaInput::Tick,
    }
}

fn node_sends(
    rt: &impl Abort,
    alloc: Global,
    node: &mut NodeCore,
    step: Step,
    op: &Op,
) -> Sequence<Mail> {
    let input = input_of(rt, alloc, step, op);
    let sent = node.step(alloc, &input).expect(rt, "memory");
    forget(input);
    sent
}

fn replica_sends(
    rt: &impl Abort,
    alloc: Global,
    replica: &mut Replica,
    step: Step,
    op: &Op,
) -> Sequence<Mail> {
    let mut sent = Sequence::new(alloc);
    let input = replica_input_of(rt, alloc, step, op);
    let mut draws = Draws::start(1);
    let made = step_replica(replica, &input, false, &mut draws, &mut sent).expect(rt, "memory");
    forget(input);
    forget(made);
    sent
}

// Returns how many mails both send at a step, or 99 where the two differ.
fn alike(
    rt: &impl Abort,
    alloc: Global,
    node: &mut NodeCore,
    replica: &mut Replica,
    step: Step,
    op: &Op,
) -> usize {
    let wanted = replica_sends(rt, alloc, replica, step, op);
    let sent = node_sends(rt, alloc, node, step, op);
    let count = if sent.is_same(&wanted) {
        sent.len()
    } else {
        99
    };
    forget(wanted);
    forget(sent);
    count
}

// Returns whether both send one mail at each step.
fn all_alike(
    rt: &impl Abort,
    alloc: Global,
    node: &mut NodeCore,
    replica: &mut Replica,
    op: &Op,
) -> bool {
    for step in &STEPS {
        if alike(rt, alloc, node, replica, *step, op) != 1 {
            return false;
        }
    }
    true
}

fn born_node(rt: &impl Abort, alloc: Global) -> NodeCore {
    let mut groups = Sequence::new(alloc);
    groups.push(group(rt, alloc, 1)).expect(rt, "memory");
    assert!(rt; are_in_order(groups.as_slice()));
    let node = NodeCore::born(alloc, 1, &groups, false).expect(rt, "memory");
    forget(groups);
    node
}

// Shows that a node of one group sends what its replica sends. Each step sends one mail: a request
// is proposed, a tick proposes it again, the accept is answered, and the client is answered once
// the slot is executed. The repeated request gets a slot of its own.
#[test]
fn a_node_of_one_group_sends_what_its_replica_sends(rt: HostRuntime) {
    let mut node = born_node(&rt, rt.alloc());
    let mut replica = Replica::born(rt.alloc(), 1, group(&rt, rt.alloc(), 1)).expect(&rt, "memory");
    let op = get(&rt, rt.alloc());
    let are_alike = all_alike(&rt, rt.alloc(), &mut node, &mut replica, &op);
    forget(op);
    forget(node);
    forget(replica);
    assert!(rt; are_alike);
}
