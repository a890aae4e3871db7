//! Reports, line by line.
use crate::values::{get, reply};
use sc_base::{Draw, Members, Reply, Sequence};
use sc_scenario::{Asked, Progress, ReportLine, Summary, lines};
use sc_words::{OrderRefusal, OrderResult, Route};
use std::alloc::Global;
use std::mem::forget;
use std::process::Abort;

const REPORT: &[u8] =
    b"scatter report 1\nreply 1 1 get value x\nreply 1 2 get none\nunanswered 1 3 get\nunsent 1 4 get\norder 1 open\norder 2 refused 4 bad-boundary\nring 7 group 0.1 members 3\nrows 5\nmail 4\ndelivered 3\nskipped 2\nquiet no\n";

const BRIEF: &[u8] =
    b"scatter report 1\nanswered 2 of 4\norder 1 open\norder 2 refused 4 bad-boundary\nring 7 group 0.1 members 3\nrows 5\nmail 4\ndelivered 3\nskipped 2\nquiet no\n";

fn asked(rt: &impl Abort, alloc: Global, seq: u32, got: Progress) -> Asked {
    Asked {
        client: 1,
        seq,
        op: get(rt, alloc, b"a"),
        got,
    }
}

fn all_asked(rt: &impl Abort, alloc: Global) -> Sequence<Asked> {
    let value = Progress::Replied(reply(rt, alloc, b"x"));
    let none = Progress::Replied(Reply { old: None });
    let mut all = Sequence::new(alloc);
    all.push(asked(rt, alloc, 1, value)).expect(rt, "memory");
    all.push(asked(rt, alloc, 2, none)).expect(rt, "memory");
    all.push(asked(rt, alloc, 3, Progress::Unanswered))
        .expect(rt, "memory");
    all.push(asked(rt, alloc, 4, Progress::Unsent))
        .expect(rt, "memory");
    all
}

fn summary(rt: &impl Abort, alloc: Global, brief: bool) -> Summary {
    let refused = OrderResult::Refused(OrderRefusal::BadBoundary);
    let mut orders = Sequence::new(alloc);
    orders.push(None).expect(rt, "memory");
    orders.push(Some(refused)).expect(rt, "memory");
    let mut ring = Sequence::new(alloc);
    let route = Route {
        group: Draw { node: 0, count: 1 },
        lo: 7,
        members: Members::one(3),
    };
    ring.push(route).expect(rt, "memory");
    Summary {
        version: 1,
        brief,
        asked: all_asked(rt, alloc),
        orders,
        ring,
        rows: 5,
        mail: 4,
        delivered: 3,
        skipped: 2,
        quiet: false,
    }
}

// Returns whether these lines, one after another, are this text.
fn are_text(lines: &[ReportLine], text: &[u8]) -> bool {
    let mut rest = text;
    for line in lines {
        match rest.strip_prefix(line.bytes()) {
            Some(more) => rest = more,
            None => return false,
        }
    }
    rest.is_empty()
}

// Returns whether this is the report of the summary.
fn is_written_as(rt: &impl Abort, alloc: Global, brief: bool, report: &[u8]) -> bool {
    let summary = summary(rt, alloc, brief);
    let lines = lines(alloc, &summary).expect(rt, "memory");
    let is_so = are_text(lines.as_slice(), report);
    forget(lines);
    forget(summary);
    is_so
}

#[test]
fn a_summary_is_printed_line_by_line(rt: HostRuntime) {
    let whole = is_written_as(&rt, rt.alloc(), false, REPORT);
    let brief = is_written_as(&rt, rt.alloc(), true, BRIEF);
    assert!(rt; whole && brief);
}
