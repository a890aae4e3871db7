//! What is reported to the desk of splits and transactions, and mails of one line.
ghost use Rattle.std.specs.Prelude.{◌≡◌, [], OnOk, IsOk};
ghost use Rattle.sc_mail.specs.declared.bodies.MailBody.TheVariants.{TxElsewhere};
ghost use Rattle.sc_node_table.specs.Mails.{sent};
ghost use Rattle.sc_node_table.specs.Transactions.{outcome_sent};
ghost use Rattle.sc_node_table.specs.Spoken.{outcome_result, decided_result, begun_result, spoken_number, result_reported, begun_reported};

use crate::replica::{report_order, send};
use sc_base::{Draw, Dup, OutOfMemory, Sequence};
use sc_mail::{Mail, MailBody};
use sc_node_table::Before;
use sc_words::{Command, Effect, OrderResult, Outcome};
use std::alloc::Global;

/// Returns the result of an outcome that is reported to the desk.
fn outcome_result(outcome: &Outcome) -> OrderResult
    ensures { result ≡ outcome_result outcome.now }
{
    match outcome {
        Outcome::Abort => OrderResult::Aborted,
        Outcome::Merged { .. }
        | Outcome::Moved { .. }
        | Outcome::Migrated { .. }
        | Outcome::Divided => OrderResult::Committed,
    }
}

/// Returns the result that is reported to the desk where an entry decided the transaction.
fn decided_result(effect: &Effect) -> Option<OrderResult>
    ensures { result ≡ decided_result effect.now }
{
    Some(outcome_result(effect.outcome()?))
}

/// Returns the result of a split or a transaction that is reported, by whether the group was
/// its own successor.
fn begun_result(alone: bool, effect: &Effect, command: &Command) -> Option<OrderResult>
    ensures { result ≡ begun_result alone effect.now command.now }
{
    match command {
        Command::Split { .. } => {
            if alone {
                effect.reported()
            } else {
                effect.refused()
            }
        }
        Command::Begin { .. } => effect.refused(),
        Command::RecordVote { .. } | Command::GiveUp { .. } | Command::RecordWatch { .. } => {
            decided_result(effect)
        }
        Command::Noop
        | Command::Call { .. }
        | Command::Join { .. }
        | Command::Leave { .. }
        | Command::Prepared { .. }
        | Command::Finish { .. }
        | Command::Watched { .. } => None,
    }
}

/// Returns the number of the order that is reported: the command's own, or that of the transaction
/// that the group coordinated.
fn spoken_number(begun: u32, command: &Command) -> u32
    ensures { result ≡ spoken_number begun command.now }
{
    match command {
        Command::Split { order, .. } | Command::Begin { order, .. } => *order,
        Command::RecordVote { .. } | Command::GiveUp { .. } | Command::RecordWatch { .. } => begun,
        Command::Noop
        | Command::Call { .. }
        | Command::Join { .. }
        | Command::Leave { .. }
        | Command::Prepared { .. }
        | Command::Finish { .. }
        | Command::Watched { .. } => 0,
    }
}

/// Reports a result to the desk, if there is one and the order has a number.
fn report_result(
    me: u16,
    reported: Option<OrderResult>,
    number: u32,
    out: &mut Sequence<Mail>,
) -> Result<(), OutOfMemory>
    ensures mails { OnOk result (out.new ≡ result_reported me reported number out.old) }
    ensures none { result_reported me reported number [] ≡ [] → IsOk result }
{
    match reported {
        None => Ok(()),
        Some(result) => report_order(me, number, result, out),
    }
}

/// Reports to the desk what an entry of a split or of a transaction comes to.
#[tactic(auto, unfolding(sc_node_table::specs::Spoken::begun_reported))]
pub(crate) fn report_begun(
    me: u16,
    before: &Before,
    effect: &Effect,
    command: &Command,
    out: &mut Sequence<Mail>,
) -> Result<(), OutOfMemory>
    ensures mails { OnOk result
        (out.new ≡ begun_reported me before.now effect.now command.now out.old) }
    ensures none { begun_reported me before.now effect.now command.now [] ≡ [] → IsOk result }
{
    let reported = begun_result(before.alone, effect, command);
    report_result(me, reported, spoken_number(before.order, command), out)
}

/// Sends what was decided to one node.
pub fn send_outcome(
    alloc: Global,
    me: u16,
    node: u16,
    tx: Draw,
    part: Draw,
    outcome: &Outcome,
    out: &mut Sequence<Mail>,
) -> Result<(), OutOfMemory>
    ensures { OnOk result (out.new ≡ outcome_sent me node tx part outcome.now out.old) }
{
    send(
        me,
        node as u32,
        MailBody::TxOutcome {
            tx,
            part,
            outcome: outcome.dup(alloc)?,
        },
        out,
    )
}

/// Sends a coordinator the leader that this node takes for that of the asked group, which it does
/// not lead itself.
pub fn pass_on(
    me: u16,
    node: u16,
    tx: Draw,
    coord: Draw,
    hint: Option<u16>,
    out: &mut Sequence<Mail>,
) -> Result<(), OutOfMemory>
    ensures { OnOk result (out.new ≡ sent me node (TxElsewhere tx coord hint) out.old) }
{
    send(
        me,
        node as u32,
        MailBody::TxElsewhere { tx, coord, hint },
        out,
    )
}
