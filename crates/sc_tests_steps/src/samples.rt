//! Groups, operations and mails for the tests of replicas and of nodes.
ghost use Rattle.std.specs.Prelude.{◌≡◌, ◌≤◌, true};
ghost use Rattle.sc_node_table.specs.Node.{may_come};

use sc_base::{Ballot, Draw, Dup, Key, Members, Op, Pairs, RingArc, SeenList, Sequence};
use sc_mail::MailBody;
use sc_words::{Base, Command, Core, Link, Lock};
use std::alloc::Global;
use std::process::Abort;

pub(crate) const GROUP: Draw = Draw { node: 0, count: 1 };

pub(crate) const FIRST: Ballot = Ballot { round: 1, node: 1 };

fn link(members: &Members) -> Link {
    Link {
        group: GROUP,
        members: *members,
    }
}

// Returns a group of one node that holds the whole ring, whose first leader is node 1.
fn core(alloc: Global, arc: RingArc, members: &Members) -> Core {
    Core {
        id: GROUP,
        first: 1,
        arc,
        members: *members,
        succ: link(members),
        pred: link(members),
        lock: Lock::Free,
        begun: 0,
        decided: Sequence::new(alloc),
        voted: Sequence::new(alloc),
        born: Sequence::new(alloc),
        gone: None,
    }
}

pub(crate) fn group(rt: &impl Abort, alloc: Global, node: u16) -> Base
    requires least { 1 ≤ node }
    requires most { node ≤ 32 }
{
    let alloc = alloc;
    let arc = RingArc::try_new(0, 0x1_0000_0000).expect(rt, "the whole ring");
    Base {
        core: core(alloc, arc, &Members::one(node)),
        pairs: Pairs::new(alloc),
        clients: SeenList::new(alloc),
    }
}

pub(crate) fn get(rt: &impl Abort, alloc: Global) -> Op {
    Op::Get {
        key: Key::try_new(alloc, b"a").expect(rt, "a key"),
    }
}

pub(crate) fn copy(rt: &impl Abort, alloc: Global, op: &Op) -> Op {
    op.dup(alloc).expect(rt, "memory")
}

// Returns an operation as the request of client 1 with a number.
pub(crate) fn request(seq: u32, op: Op) -> MailBody
    ensures { may_come 33 result ≡ true }
{
    MailBody::Request {
        group: GROUP,
        client: 1,
        seq,
        op,
    }
}

pub(crate) fn accept(slot: u32, op: Op) -> MailBody
    ensures { may_come 1 result ≡ true }
{
    MailBody::Accept {
        group: GROUP,
        ballot: FIRST,
        slot,
        command: Command::Call {
            client: 1,
            seq: slot,
            op,
        },
    }
}

pub(crate) fn accepted(slot: u32) -> MailBody
    ensures { may_come 1 result ≡ true }
{
    MailBody::Accepted {
        group: GROUP,
        ballot: FIRST,
        slot,
    }
}
