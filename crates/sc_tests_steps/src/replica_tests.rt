//! A replica's answers about slots that it has forgotten, and a replica that is made from a state.
ghost use Rattle.std.specs.Prelude.{◌≡◌, length, true};
ghost use Rattle.sc_node_table.specs.Slots.{slots_ahead};
ghost use Rattle.sc_node_table.specs.Node.{may_come};

use crate::samples::{GROUP, accept, accepted, copy, get, group, request};
use sc_base::{Ballot, Members, Op, Sequence};
use sc_mail::{Mail, MailBody};
use sc_node::take_mail;
use sc_node_replica::Replica;
use sc_words::MemberSets;
use std::alloc::Global;
use std::mem::forget;
use std::process::Abort;

const SECOND: Ballot = Ballot { round: 2, node: 2 };

// What node 2 asks for, from a slot on.
#[derive(Clone, Copy)]
enum Wanted {
    Entries(u32),
    Promise(u32),
}

fn asking(wanted: Wanted) -> MailBody
    ensures { may_come 2 result ≡ true }
{
    match wanted {
        Wanted::Entries(from_slot) => MailBody::Ask {
            group: GROUP,
            from_slot,
        },
        Wanted::Promise(from_slot) => MailBody::Prepare {
            group: GROUP,
            ballot: SECOND,
            from_slot,
        },
    }
}

// A mail in brief: its kind, with its slot or the number of its reports.
#[derive(Clone, Copy, PartialEq)]
enum Brief {
    Install(u32),
    Learn(u32),
    Prepare(u32),
    Promise(usize),
    Other,
}

fn in_brief(body: &MailBody) -> Brief {
    match body {
        MailBody::Install { slot, .. } => Brief::Install(*slot),
        MailBody::Learn { slot, .. } => Brief::Learn(*slot),
        MailBody::Prepare { from_slot, .. } => Brief::Prepare(*from_slot),
        MailBody::Promise { reports, .. } => Brief::Promise(reports.len()),
        _ => Brief::Other,
    }
}

// The first mail in brief, the number of mails, and how many of them are, in order, the entries of
// the slots from 65 on.
type Sent = (Brief, usize, u32);

fn first_in(sent: &[Mail]) -> Brief {
    match sent {
        [mail, ..] => in_brief(&mail.body),
        [] => Brief::Other,
    }
}

fn is_entry(mail: &Mail, slot: u32) -> bool {
    in_brief(&mail.body) == Brief::Learn(slot)
}

fn entries_in(sent: &[Mail]) -> u32 {
    let mut entries = 0u32;
    for mail in sent {
        if is_entry(mail, entries.saturating_add(65)) {
            entries = entries.saturating_add(1);
        }
    }
    entries
}

fn told_in(sent: &[Mail]) -> Sent {
    (first_in(sent), sent.len(), entries_in(sent))
}

fn take(
    rt: &impl Abort,
    alloc: Global,
    replica: &mut Replica,
    from: u32,
    body: MailBody,
    out: &mut Sequence<Mail>,
)
    requires { may_come from body ≡ true }
{
    let mut made = Sequence::new(alloc);
    take_mail(replica, from, &body, out, &mut made).expect(rt, "memory");
    forget(made);
    forget(body);
}

// Sends a client's request, which the only member proposes, accepts, counts and executes.
fn execute_one(
    rt: &impl Abort,
    alloc: Global,
    replica: &mut Replica,
    slot: u32,
    op: &Op,
    out: &mut Sequence<Mail>,
) {
    take(
        rt,
        alloc,
        replica,
        33,
        request(slot, copy(rt, alloc, op)),
        out,
    );
    take(
        rt,
        alloc,
        replica,
        1,
        accept(slot, copy(rt, alloc, op)),
        out,
    );
    take(rt, alloc, replica, 1, accepted(slot), out);
}

fn execute_all(rt: &impl Abort, alloc: Global, replica: &mut Replica, out: &mut Sequence<Mail>) {
    let op = get(rt, alloc);
    for slot in 1..129 {
        execute_one(rt, alloc, replica, slot, &op, out);
    }
    forget(op);
}

// Returns what node 2 is sent.
fn told(rt: &impl Abort, alloc: Global, replica: &mut Replica, wanted: Wanted) -> Sent {
    let mut out = Sequence::new(alloc);
    take(rt, alloc, replica, 2, asking(wanted), &mut out);
    let told = told_in(out.as_slice());
    forget(out);
    told
}

// Returns what node 2 is sent by a replica of the only member after 128 executed requests.
fn told_after_128(rt: &impl Abort, alloc: Global, wanted: Wanted) -> Sent {
    let mut replica = Replica::born(alloc, 1, group(rt, alloc, 1)).expect(rt, "memory");
    let mut out = Sequence::new(alloc);
    execute_all(rt, alloc, &mut replica, &mut out);
    let told = told(rt, alloc, &mut replica, wanted);
    forget(out);
    forget(replica);
    told
}

#[test]
fn a_forgotten_slot_is_answered_by_the_state(rt: HostRuntime) {
    let entries = told_after_128(&rt, rt.alloc(), Wanted::Entries(64));
    let promise = told_after_128(&rt, rt.alloc(), Wanted::Promise(64));
    assert!(rt; entries == (Brief::Install(128), 1, 0));
    assert!(rt; promise == (Brief::Install(128), 1, 0));
}

#[test]
fn a_kept_slot_is_answered_by_32_entries(rt: HostRuntime) {
    let entries = told_after_128(&rt, rt.alloc(), Wanted::Entries(65));
    assert!(rt; entries == (Brief::Learn(65), 32, 32));
}

#[test]
fn a_kept_slot_is_promised_with_the_reports_that_are_kept(rt: HostRuntime) {
    let promise = told_after_128(&rt, rt.alloc(), Wanted::Promise(65));
    assert!(rt; promise == (Brief::Promise(64), 1, 0));
}

// Returns the members of the four open slots.
fn four(rt: &impl Abort, alloc: Global, members: Members) -> MemberSets
    ensures { length result ≡ slots_ahead }
{
    let sets = [members, members, members, members];
    Sequence::from_vec(Vec::from_slice(alloc, &sets).expect(rt, "memory"))
}

// Returns a replica of the only member, node 2, that is made from the state after slot 70, as node
// 1 sent it, and what it sends first.
fn installed(rt: &impl Abort, alloc: Global) -> (Replica, Sequence<Mail>) {
    let sets = four(rt, alloc, Members::one(2));
    let base = group(rt, alloc, 2);
    let installed = Replica::installed(alloc, 2, 1, GROUP, 70, &base, &sets).expect(rt, "memory");
    forget(base);
    forget(sets);
    installed
}

// Returns what that replica sends first, and what it then sends to node 2.
fn installed_tells(rt: &impl Abort, alloc: Global, wanted: Wanted) -> (Sent, Sent) {
    let (mut replica, sent) = installed(rt, alloc);
    let first = told_in(sent.as_slice());
    let then = told(rt, alloc, &mut replica, wanted);
    forget(sent);
    forget(replica);
    (first, then)
}

// Shows what a replica that is made from a state sends. The sender of the state is no member, so
// the replica looks for a leader, and is the only one that can lead.
#[test]
fn a_replica_is_made_of_a_state(rt: HostRuntime) {
    let (first, then) = installed_tells(&rt, rt.alloc(), Wanted::Entries(70));
    assert!(rt; first == (Brief::Prepare(71), 1, 0));
    assert!(rt; then == (Brief::Install(70), 1, 0));
}
