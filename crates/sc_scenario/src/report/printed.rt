//! The report, line by line.
ghost use Rattle.std.specs.Prelude.{◌≡◌, ◌++◌, ◌∷◌, [], map, IfOk, OnOk};
ghost use Rattle.sc_scenario.specs.report.Report.{count_line, request, replied, asked_line, answered_line, asked_lines, is_replied, order_state_line, order_state_lines, ring_line, quiet_line, counts, report_lines};

use crate::report::summaries::{Asked, Progress, Summary};
use crate::report::texts::{add_end, add_nodes, add_number, add_text, counted, op_word};
use sc_base::{OutOfMemory, Sequence, Value};
use sc_words::{OrderResult, Route};
use std::alloc::Global;
use std::marker::Model;

/// A line of output, with its line feed.
#[derive(Drop)]
pub struct ReportLine {
    bytes: Vec<u8>,
}

impl Model for ReportLine {
    ghost use Rattle.std.specs.Prelude.{List, ℕ};

    ghost Value = { List ℕ };

    ghost view = { λ line. line.bytes.items };
}

impl ReportLine {
    /// Returns the line with these bytes, without allocation.
    pub fn from_vec(bytes: Vec<u8>) -> ReportLine
        ensures { result ≡ bytes.items }
    {
        ReportLine { bytes }
    }

    /// Returns the bytes of the line, its line feed included.
    pub fn bytes(&self) -> &[u8]
        ensures { result.now ≡ self.now }
    {
        self.bytes.as_slice()
    }
}

fn ended(mut line: Vec<u8>) -> Result<ReportLine, OutOfMemory>
    ensures { IfOk result (λ done. done ≡ line.items ++ 10 ∷ []) }
{
    add_end(&mut line)?;
    Ok(ReportLine { bytes: line })
}

fn count_line(alloc: Global, label: &[u8], n: u64) -> Result<ReportLine, OutOfMemory>
    ensures { IfOk result (λ line. line ≡ count_line label.now n) }
{
    Ok(ReportLine {
        bytes: counted(alloc, label, n)?,
    })
}

fn request(alloc: Global, what: &[u8], asked: &Asked) -> Result<Vec<u8>, OutOfMemory>
    ensures { IfOk result (λ line. line.items ≡ request what.now asked.now) }
{
    let mut line = Vec::from_slice(alloc, what)?;
    add_number(alloc, &mut line, asked.client as u64)?;
    add_text(&mut line, b" ")?;
    add_number(alloc, &mut line, asked.seq as u64)?;
    add_text(&mut line, b" ")?;
    add_text(&mut line, op_word(&asked.op))?;
    Ok(line)
}

fn replied(alloc: Global, old: &Option<Value>, asked: &Asked) -> Result<ReportLine, OutOfMemory>
    ensures { IfOk result (λ line. line ≡ replied old.now asked.now) }
{
    let mut line = request(alloc, b"reply ", asked)?;
    match old {
        None => add_text(&mut line, b" none")?,
        Some(value) => {
            add_text(&mut line, b" value ")?;
            add_text(&mut line, value.bytes())?;
        }
    }
    ended(line)
}

fn asked_line(alloc: Global, asked: &Asked) -> Result<ReportLine, OutOfMemory>
    ensures { IfOk result (λ line. line ≡ asked_line asked.now) }
{
    match &asked.got {
        Progress::Unsent => ended(request(alloc, b"unsent ", asked)?),
        Progress::Unanswered => ended(request(alloc, b"unanswered ", asked)?),
        Progress::Replied(reply) => replied(alloc, &reply.old, asked),
    }
}

fn is_replied(got: &Progress) -> bool
    ensures { result ≡ is_replied got.now }
{
    match got {
        Progress::Replied(_) => true,
        Progress::Unsent | Progress::Unanswered => false,
    }
}

fn answered_line(alloc: Global, asked: &[Asked]) -> Result<ReportLine, OutOfMemory>
    ensures { IfOk result (λ line. line ≡ answered_line asked.now) }
{
    let answered = asked.iter().filter(|one| is_replied(&one.got)).count();
    let mut line = Vec::from_slice(alloc, b"answered ")?;
    add_number(alloc, &mut line, answered as u64)?;
    add_text(&mut line, b" of ")?;
    add_number(alloc, &mut line, asked.len() as u64)?;
    ended(line)
}

fn order_state_line(
    alloc: Global,
    number: u64,
    order_result: &Option<OrderResult>,
) -> Result<ReportLine, OutOfMemory>
    ensures { IfOk result (λ line. line ≡ order_state_line number order_result.now) }
{
    let mut line = Vec::from_slice(alloc, b"order ")?;
    add_number(alloc, &mut line, number)?;
    match order_result {
        None => add_text(&mut line, b" open")?,
        Some(OrderResult::Done) => add_text(&mut line, b" done")?,
        Some(OrderResult::Committed) => add_text(&mut line, b" committed")?,
        Some(OrderResult::Aborted) => add_text(&mut line, b" aborted")?,
        Some(OrderResult::Refused(why)) => {
            add_text(&mut line, b" refused ")?;
            add_number(alloc, &mut line, why.code() as u64)?;
            add_text(&mut line, b" ")?;
            add_text(&mut line, why.name())?;
        }
    }
    ended(line)
}

fn ring_line(alloc: Global, route: &Route) -> Result<ReportLine, OutOfMemory>
    ensures { IfOk result (λ line. line ≡ ring_line route.now) }
{
    let mut line = Vec::from_slice(alloc, b"ring ")?;
    add_number(alloc, &mut line, route.lo as u64)?;
    add_text(&mut line, b" group ")?;
    add_number(alloc, &mut line, route.group.node as u64)?;
    add_text(&mut line, b".")?;
    add_number(alloc, &mut line, route.group.count as u64)?;
    add_text(&mut line, b" members")?;
    add_nodes(alloc, &mut line, route.members.as_slice())?;
    ended(line)
}

fn quiet_line(alloc: Global, quiet: bool) -> Result<ReportLine, OutOfMemory>
    ensures { IfOk result (λ line. line ≡ quiet_line quiet) }
{
    if quiet {
        ended(Vec::from_slice(alloc, b"quiet yes")?)
    } else {
        ended(Vec::from_slice(alloc, b"quiet no")?)
    }
}

fn add_asked(
    alloc: Global,
    all: &mut Sequence<ReportLine>,
    brief: bool,
    asked: &[Asked],
) -> Result<(), OutOfMemory>
    ensures { OnOk result (all.new ≡ all.old ++ asked_lines brief asked.now) }
{
    if brief {
        all.push(answered_line(alloc, asked)?)?;
        return Ok(());
    }
    for one in asked {
        all.push(asked_line(alloc, one)?)?;
    }
    Ok(())
}

fn add_orders(
    alloc: Global,
    all: &mut Sequence<ReportLine>,
    orders: &[Option<OrderResult>],
) -> Result<(), OutOfMemory>
    ensures { OnOk result (all.new ≡ all.old ++ order_state_lines 1 orders.now) }
{
    for i in 0..orders.len() {
        all.push(order_state_line(alloc, i as u64 + 1, &orders[i])?)?;
    }
    Ok(())
}

fn add_ring(
    alloc: Global,
    all: &mut Sequence<ReportLine>,
    ring: &[Route],
) -> Result<(), OutOfMemory>
    ensures { OnOk result (all.new ≡ all.old ++ map ring_line ring.now) }
{
    for route in ring {
        all.push(ring_line(alloc, route)?)?;
    }
    Ok(())
}

fn add_counts(
    alloc: Global,
    all: &mut Sequence<ReportLine>,
    summary: &Summary,
) -> Result<(), OutOfMemory>
    ensures { OnOk result (all.new ≡ all.old ++ counts summary.now) }
{
    all.push(count_line(alloc, b"rows ", summary.rows as u64)?)?;
    all.push(count_line(alloc, b"mail ", summary.mail as u64)?)?;
    all.push(count_line(alloc, b"delivered ", summary.delivered as u64)?)?;
    all.push(count_line(alloc, b"skipped ", summary.skipped)?)?;
    all.push(quiet_line(alloc, summary.quiet)?)?;
    Ok(())
}

/// Returns the lines of the report: the version; each request, or how many were answered; each
/// order; each group of the ring; the counts.
pub fn lines(alloc: Global, summary: &Summary) -> Result<Sequence<ReportLine>, OutOfMemory>
    ensures { IfOk result (λ lines. lines ≡ report_lines summary.now) }
{
    let mut all = Sequence::new(alloc);
    all.push(count_line(alloc, b"scatter report ", summary.version as u64)?)?;
    add_asked(alloc, &mut all, summary.brief, summary.asked.as_slice())?;
    add_orders(alloc, &mut all, summary.orders.as_slice())?;
    add_ring(alloc, &mut all, summary.ring.as_slice())?;
    add_counts(alloc, &mut all, summary)?;
    Ok(all)
}
