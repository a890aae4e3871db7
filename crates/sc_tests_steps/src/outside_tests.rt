//! A node and a client in a program of one's own: a group is born, and a client puts a value.
use sc_actor::Input;
use sc_base::{Draw, Key, Members, Op, RingArc, Sequence, Value};
use sc_client::ClientCore;
use sc_group::GroupBirth;
use sc_mail::Mail;
use sc_node::{NodeCore, are_in_order};
use sc_words::{Link, OrderLine};
use std::alloc::Global;
use std::mem::forget;
use std::process::Abort;

// Returns the birth of the one group, of node 1, on the whole ring.
fn birth(rt: &impl Abort) -> GroupBirth {
    let group = Draw { node: 0, count: 1 };
    let members = Members::one(1);
    let succ = Link { group, members };
    let pred = succ;
    GroupBirth {
        group,
        arc: RingArc::try_new(0, 0x1_0000_0000).expect(rt, "the whole ring"),
        members,
        succ,
        pred,
    }
}

fn node(rt: &impl Abort, alloc: Global, birth: &GroupBirth) -> NodeCore {
    let mut groups = Sequence::new(alloc);
    groups.push(birth.base(alloc)).expect(rt, "memory");
    assert!(rt; are_in_order(groups.as_slice()));
    let node = NodeCore::born(alloc, 1, &groups, false).expect(rt, "memory");
    forget(groups);
    node
}

fn client(rt: &impl Abort, alloc: Global, birth: &GroupBirth) -> ClientCore {
    let mut requests = Sequence::new(alloc);
    let put = Op::Put {
        key: Key::try_new(alloc, b"a").expect(rt, "a key"),
        value: Value::try_new(alloc, b"x").expect(rt, "a value"),
    };
    requests.push(put).expect(rt, "memory");
    assert!(rt; requests.len() == 1);
    ClientCore::born(alloc, 1, requests, birth.route()).expect(rt, "memory")
}

// Returns the one mail that is sent, as an input.
fn only(rt: &impl Abort, mails: Sequence<Mail>) -> Input<Mail, OrderLine> {
    let mut all = mails.into_vec();
    let first = all.pop().expect(rt, "a mail");
    assert!(rt; all.is_empty());
    forget(all);
    Input::Got(first)
}

// Hands a mail to the node, and returns the one mail that the node sends then.
fn handed_on(
    rt: &impl Abort,
    alloc: Global,
    node: &mut NodeCore,
    mail: Input<Mail, OrderLine>,
) -> Input<Mail, OrderLine> {
    let sent = node.step(alloc, &mail).expect(rt, "memory");
    forget(mail);
    only(rt, sent)
}

// Returns whether the client's request is answered. Between the request and its answer are the
// group's own accept and its vote.
fn is_answered(
    rt: &impl Abort,
    alloc: Global,
    node: &mut NodeCore,
    client: &mut ClientCore,
) -> bool {
    let request = only(rt, client.step(alloc, &Input::Go).expect(rt, "memory"));
    let accept = handed_on(rt, alloc, node, request);
    let accepted = handed_on(rt, alloc, node, accept);
    let answer = handed_on(rt, alloc, node, accepted);
    let left = client.step(alloc, &answer).expect(rt, "memory");
    let is_last = left.len() == 0;
    forget(answer);
    forget(left);
    is_last && client.replies().len() == 1
}

#[test]
fn a_group_is_born_and_answers_a_client(rt: HostRuntime) {
    let alloc = rt.alloc();
    let birth = birth(&rt);
    let mut node = node(&rt, alloc, &birth);
    let mut client = client(&rt, alloc, &birth);
    let is_answered = is_answered(&rt, alloc, &mut node, &mut client);
    forget(node);
    forget(client);
    assert!(rt; is_answered);
}
