use crate::groups::GROUP;
use crate::values::{call, reply};
use sc_actor::Parcel;
use sc_base::{Ballot, Dup, Same, Sequence};
use sc_mail::{AnswerBody, Mail, MailBody, Reports, client_number};
use sc_words::Report;
use std::alloc::Global;
use std::mem::forget;
use std::process::Abort;

const FIRST: Ballot = Ballot { round: 1, node: 1 };

fn promise(rt: &impl Abort, alloc: Global) -> MailBody {
    let report = Report {
        slot: 1,
        ballot: FIRST,
        value: call(rt, alloc),
    };
    let mut reports: Reports = Sequence::new(alloc);
    reports.push(report).expect(rt, "memory");
    MailBody::Promise {
        group: GROUP,
        ballot: FIRST,
        reports,
    }
}

// Returns the receiver and the weight of a copy of a parcel, if it equals the parcel. It is
// generic, since a function that owns a mail takes long to prove.
fn copied<P: Parcel + Same + Drop>(
    rt: &impl Abort,
    alloc: Global,
    parcel: P,
) -> Option<(u32, u64)> {
    let copy = parcel.dup(alloc).expect(rt, "memory");
    let told = if copy.is_same(&parcel) {
        Some((copy.to(), copy.weight()))
    } else {
        None
    };
    forget(copy);
    forget(parcel);
    told
}

// Returns the receiver and the weight of a copy of a mail of client 1 to node 1 with this body, if
// it equals the mail.
fn copied_with(rt: &impl Abort, alloc: Global, body: MailBody) -> Option<(u32, u64)> {
    let from = client_number(1);
    copied(rt, alloc, Mail { from, to: 1, body })
}

#[test]
fn accepts_and_answers_count_their_texts_and_promises_32_for_each_report(rt: HostRuntime) {
    let accept = MailBody::Accept {
        group: GROUP,
        ballot: FIRST,
        slot: 1,
        command: call(&rt, rt.alloc()),
    };
    let answer = MailBody::Answer {
        group: GROUP,
        seq: 1,
        answer: AnswerBody::Value(reply(&rt, rt.alloc(), b"value")),
    };
    let copies = [
        copied_with(&rt, rt.alloc(), accept),
        copied_with(&rt, rt.alloc(), promise(&rt, rt.alloc())),
        copied_with(&rt, rt.alloc(), answer),
    ];
    assert!(rt; copies == [Some((1, 8)), Some((1, 40)), Some((1, 5))]);
    assert!(rt; client_number(1) == 33);
}
