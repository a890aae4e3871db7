use crate::groups::{nodes_to, numbered};
use crate::values::{get, put};
use sc_actor::{Actor, Input};
use sc_base::{Members, Reply, RingArc, Sequence};
use sc_client::ClientCore;
use sc_mail::{AnswerBody, Mail, MailBody};
use sc_words::{Link, OrderLine, Route};
use std::alloc::Global;
use std::mem::forget;
use std::process::Abort;

/// A node's answer to a client, in brief.
#[derive(Clone, Copy)]
enum Answered {
    Value,
    NotLeader(Option<u16>),
    /// The key is of the successor 0.2 with members 4 and 5, which begins at 2^30.
    NotMine,
    /// The group was taken over by 0.5 with the member 7.
    Gone,
    Stale,
}

/// An input of a client. An answer has its sender, its group and the number of the request.
#[derive(Clone, Copy)]
enum Given {
    Go,
    Tick,
    Answer(u32, u32, u32, Answered),
}

/// The receiver, the group and the number of the one request that is sent.
type Sent = Option<(u32, u32, u32)>;

/// Returns client 1 with the requests `put a x` and `get a`, which knows the group 0.1 from 0 on
/// with members 1, 2 and 3.
fn client(rt: &impl Abort, alloc: Global) -> ClientCore {
    let mut requests = Sequence::new(alloc);
    requests
        .push(put(rt, alloc, b"a", b"x"))
        .expect(rt, "memory");
    requests.push(get(rt, alloc, b"a")).expect(rt, "memory");
    assert!(rt; requests.len() == 2);
    let route = Route {
        group: numbered(1),
        lo: 0,
        members: nodes_to(3),
    };
    ClientCore::born(alloc, 1, requests, route).expect(rt, "memory")
}

fn answer(rt: &impl Abort, answered: Answered) -> AnswerBody {
    match answered {
        Answered::Value => AnswerBody::Value(Reply { old: None }),
        Answered::NotLeader(hint) => AnswerBody::NotLeader { hint },
        Answered::NotMine => {
            let mut members = Members::one(4);
            let _ = members.add(5);
            AnswerBody::NotMine {
                arc: RingArc::try_new(0, 1 << 30).expect(rt, "an arc"),
                succ: Link {
                    group: numbered(2),
                    members,
                },
            }
        }
        Answered::Gone => AnswerBody::Gone {
            into: Route {
                group: numbered(5),
                lo: 9,
                members: Members::one(7),
            },
        },
        Answered::Stale => AnswerBody::Stale { last: 7 },
    }
}

fn input(rt: &impl Abort, given: Given) -> Input<Mail, OrderLine> {
    match given {
        Given::Go => Input::Go,
        Given::Tick => Input::Tick,
        Given::Answer(from, count, seq, answered) => {
            let answer = answer(rt, answered);
            let group = numbered(count);
            let body = MailBody::Answer { group, seq, answer };
            Input::Got(Mail { from, to: 33, body })
        }
    }
}

/// Returns the receiver, the group and the number of the request that is the only mail.
fn only_request(mails: &[Mail]) -> Sent {
    match mails {
        [mail] => match &mail.body {
            MailBody::Request { group, seq, .. } => Some((mail.to, group.count, *seq)),
            _ => None,
        },
        _ => None,
    }
}

/// Returns what the actor sends at an input. Input and mail are not dropped: the process ends soon.
fn sent_at<A: Actor<Mail = Mail, Order = OrderLine>>(
    rt: &impl Abort,
    alloc: Global,
    actor: &mut A,
    given: Given,
) -> Sent {
    let input = input(rt, given);
    let mails = actor.step(alloc, &input).expect(rt, "memory");
    let sent = only_request(mails.as_slice());
    forget(mails);
    forget(input);
    sent
}

/// An input, and what a client must send at it.
type Row = (Given, Sent);

/// Gives an actor one input after another, and checks what it sends at each.
fn check_all<A: Actor<Mail = Mail, Order = OrderLine>>(
    rt: &impl Abort,
    alloc: Global,
    actor: &mut A,
    rows: &[Row],
) {
    for (given, sent) in rows {
        assert!(rt; sent_at(rt, alloc, actor, *given) == *sent);
    }
}

/// Gives a new client one input after another, and checks what it sends at each, which request
/// waits at the end, and how many replies it has.
fn check(rt: &impl Abort, alloc: Global, rows: &[Row], waiting: Option<u32>, replies: usize) {
    let mut client = client(rt, alloc);
    check_all(rt, alloc, &mut client, rows);
    let asked = client.requests().len();
    let left = (client.waiting(), client.replies().len());
    forget(client);
    assert!(rt; asked == 2 && left == (waiting, replies));
}

const HINTS: &[Row] = &[
    (Given::Go, Some((1, 1, 1))),
    (
        Given::Answer(1, 1, 1, Answered::NotLeader(Some(3))),
        Some((3, 1, 1)),
    ),
    (Given::Tick, Some((1, 1, 1))),
    (Given::Answer(1, 1, 1, Answered::NotMine), Some((4, 2, 1))),
    (Given::Answer(1, 1, 1, Answered::NotMine), None),
    (Given::Answer(4, 2, 1, Answered::Gone), Some((7, 5, 1))),
];

#[test]
fn client_hints_and_stale_not_mine(rt: HostRuntime) {
    check(&rt, rt.alloc(), HINTS, Some(1), 0);
}

const OF_OTHERS: &[Row] = &[
    (Given::Answer(1, 1, 1, Answered::Value), None),
    (Given::Tick, None),
    (Given::Go, Some((1, 1, 1))),
    (Given::Answer(2, 1, 1, Answered::NotLeader(Some(3))), None),
    (Given::Answer(1, 2, 1, Answered::NotLeader(None)), None),
    (Given::Answer(1, 1, 2, Answered::Value), None),
    (Given::Answer(2, 1, 1, Answered::NotMine), None),
    (Given::Answer(2, 1, 1, Answered::Gone), None),
    (Given::Answer(1, 1, 1, Answered::Stale), None),
    (
        Given::Answer(1, 1, 1, Answered::NotLeader(None)),
        Some((2, 1, 1)),
    ),
];

#[test]
fn answers_of_others_are_ignored(rt: HostRuntime) {
    check(&rt, rt.alloc(), OF_OTHERS, Some(1), 0);
}

const REPLIES: &[Row] = &[
    (Given::Go, Some((1, 1, 1))),
    (Given::Answer(2, 9, 1, Answered::Value), Some((1, 1, 2))),
    (Given::Answer(1, 1, 1, Answered::Value), None),
    (Given::Answer(1, 1, 2, Answered::Value), None),
    (Given::Tick, None),
];

#[test]
fn replies_are_kept_in_turn(rt: HostRuntime) {
    check(&rt, rt.alloc(), REPLIES, None, 2);
}
