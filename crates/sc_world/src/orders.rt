//! What the rows of a journal report of the orders.
ghost use Rattle.std.specs.Prelude.{◌≡◌, ℕ, ◌+◌, ◌<◌, ◌==◌, length, get_or, replicate, count_by, if◌then◌else◌, Some, None, IfOk};
ghost use Rattle.sc_actor.specs.Mail.{mails};
ghost use Rattle.sc_node_table.specs.Replica.{either};
ghost use Rattle.sc_world.specs.Summary.{is_order, reported_in_mail, reported_of, reported_orders};

use sc_actor::Row;
use sc_base::{OutOfMemory, Sequence};
use sc_mail::{Mail, MailBody};
use sc_scenario::SchedLine;
use sc_words::{OrderLine, OrderResult};
use std::alloc::Global;

fn is_order(line: &SchedLine) -> bool
    ensures { result ≡ is_order line.now }
{
    match line {
        SchedLine::Told { .. } => true,
        _ => false,
    }
}

/// Returns the number of orders in a schedule.
pub(crate) fn order_count(lines: &[SchedLine]) -> usize
    ensures { result ≡ count_by is_order lines.now }
{
    lines.iter().filter(|line| is_order(line)).count()
}

// Keeps a result of an order, if it is the first of that order.
fn keep(recorded: &mut [Option<OrderResult>], order: u32, word: OrderResult)
    ensures len { length recorded.new ≡ length recorded.old }
    ensures kept { (k : ℕ) → k < length recorded.old → get_or recorded.new k None ≡
        either (get_or recorded.old k None) (if order == k + 1 then Some word else None) }
{
    if order == 0 {
        return;
    }
    let place = (order - 1) as usize;
    if place >= recorded.len() || recorded[place].is_some() {
        return;
    }
    recorded[place] = Some(word);
}

fn note(recorded: &mut [Option<OrderResult>], body: &MailBody)
    ensures len { length recorded.new ≡ length recorded.old }
    ensures kept { (k : ℕ) → k < length recorded.old → get_or recorded.new k None ≡
        either (get_or recorded.old k None) (reported_in_mail (k + 1) body.now) }
{
    if let MailBody::Told { order, result } = body {
        keep(recorded, *order, *result);
    }
}

fn note_all(recorded: &mut [Option<OrderResult>], sent: &[Mail])
    ensures len { length recorded.new ≡ length recorded.old }
    ensures kept { (k : ℕ) → k < length recorded.old → get_or recorded.new k None ≡
        either (get_or recorded.old k None) (reported_of (k + 1) sent.now) }
{
    for mail in sent {
        note(recorded, &mail.body);
    }
}

fn note_rows(recorded: &mut [Option<OrderResult>], rows: &[Row<Mail, OrderLine>])
    ensures len { length recorded.new ≡ length recorded.old }
    ensures kept { (k : ℕ) → k < length recorded.old → get_or recorded.new k None ≡
        either (get_or recorded.old k None) (reported_of (k + 1) (mails rows.now)) }
{
    for row in rows {
        note_all(recorded, row.sent.as_slice());
    }
}

// Returns a list of `count` orders without a result.
fn unreported(alloc: Global, count: usize) -> Result<Vec<Option<OrderResult>>, OutOfMemory>
    ensures { IfOk result (λ recorded. recorded.items ≡ replicate count None) }
{
    let mut recorded = Vec::new(alloc);
    for _number in 0..count {
        recorded.push(None)?;
    }
    Ok(recorded)
}

/// Returns the result of each order, from 1 to `count`: that of the first mail which reports one.
/// The only error is out of memory.
pub(crate) fn reported_orders(
    alloc: Global,
    count: usize,
    rows: &[Row<Mail, OrderLine>],
) -> Result<Sequence<Option<OrderResult>>, OutOfMemory>
    ensures { IfOk result (λ recorded. recorded ≡ reported_orders count (mails rows.now)) }
{
    let mut recorded = unreported(alloc, count)?;
    note_rows(&mut recorded, rows);
    Ok(Sequence::from_vec(recorded))
}
