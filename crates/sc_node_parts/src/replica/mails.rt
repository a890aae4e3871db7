//! Mails: each function appends some to those that are there.
ghost use Rattle.std.specs.Prelude.{◌≡◌, [], false, OnOk, IsOk};
ghost use Rattle.sc_words.specs.declared.commands.orders.OrderResult.TheVariants.{Refused};
ghost use Rattle.sc_words.specs.declared.commands.orders.OrderRefusal.TheVariants.{NotLeader};
ghost use Rattle.sc_node_parts.specs.replica.Requests.{is_request};
ghost use Rattle.sc_node_table.specs.Mails.{sent, answer_to, answered, result_sent, order_number, order_reported, dismissed, dismissed_all};

use sc_base::{Draw, Dup, OutOfMemory, Sequence};
use sc_group_table::is_reported;
use sc_mail::{AnswerBody, DESK, Mail, MailBody, client_number};
use sc_words::{Command, OrderRefusal, OrderResult};
use std::alloc::Global;
use std::collections::VecDeque;

/// Appends a mail.
pub fn send(me: u16, to: u32, body: MailBody, out: &mut Sequence<Mail>) -> Result<(), OutOfMemory>
    ensures { OnOk result (out.new ≡ sent me to body out.old) }
{
    out.push(Mail {
        from: me as u32,
        to,
        body,
    })
}

/// Appends an answer to a client.
pub fn answer(
    me: u16,
    group: Draw,
    client: u16,
    seq: u32,
    answer: AnswerBody,
    out: &mut Sequence<Mail>,
) -> Result<(), OutOfMemory>
    ensures { OnOk result (out.new ≡ answer_to me group client seq answer out.old) }
{
    send(
        me,
        client_number(client),
        MailBody::Answer { group, seq, answer },
        out,
    )
}

/// Appends this answer to the client of a request. Does nothing for another command.
#[tactic(auto, unfolding(sc_node_table::specs::Mails::answered))]
pub fn answer_command(
    alloc: Global,
    me: u16,
    group: Draw,
    body: &AnswerBody,
    command: &Command,
    out: &mut Sequence<Mail>,
) -> Result<(), OutOfMemory>
    ensures mails { OnOk result (out.new ≡ answered me group body.now command.now out.old) }
    ensures others { is_request command.now ≡ false → IsOk result }
{
    match command {
        Command::Call { client, seq, .. } => {
            answer(me, group, *client, *seq, body.dup(alloc)?, out)
        }
        _ => Ok(()),
    }
}

/// Appends a report to the desk of what became of an order.
pub fn send_result(
    me: u16,
    number: u32,
    order_result: OrderResult,
    out: &mut Sequence<Mail>,
) -> Result<(), OutOfMemory>
    ensures { OnOk result (out.new ≡ result_sent me number order_result out.old) }
{
    send(
        me,
        DESK,
        MailBody::Told {
            order: number,
            result: order_result,
        },
        out,
    )
}

/// Returns the number of the order that a command is of. 0 where a policy made it, and where it is
/// of none.
pub fn order_number(command: &Command) -> u32
    ensures { result ≡ order_number command.now }
{
    match command {
        Command::Join { order, .. }
        | Command::Leave { order, .. }
        | Command::Split { order, .. }
        | Command::Begin { order, .. } => *order,
        Command::Noop
        | Command::Call { .. }
        | Command::Prepared { .. }
        | Command::RecordVote { .. }
        | Command::GiveUp { .. }
        | Command::Finish { .. }
        | Command::Watched { .. }
        | Command::RecordWatch { .. } => 0,
    }
}

/// Appends a report to the desk of what became of an order, if the order has a number.
#[tactic(auto, unfolding(sc_node_table::specs::Mails::order_reported))]
pub fn report_order(
    me: u16,
    number: u32,
    order_result: OrderResult,
    out: &mut Sequence<Mail>,
) -> Result<(), OutOfMemory>
    ensures mails { OnOk result (out.new ≡ order_reported me number order_result out.old) }
    ensures unreported { number ≡ 0 → IsOk result }
{
    if !is_reported(number) {
        return Ok(());
    }
    send_result(me, number, order_result, out)
}

/// Appends this answer to the client of a queued request, and for a queued order the report to the
/// desk that its node does not lead.
#[tactic(auto, unfolding(sc_node_table::specs::Mails::dismissed))]
fn dismiss(
    alloc: Global,
    me: u16,
    group: Draw,
    hint: Option<u16>,
    body: &AnswerBody,
    command: &Command,
    out: &mut Sequence<Mail>,
) -> Result<(), OutOfMemory>
    ensures mails { OnOk result (out.new ≡ dismissed me group hint body.now command.now out.old) }
    ensures none { dismissed me group hint body.now command.now [] ≡ [] → IsOk result }
{
    match command {
        Command::Call { client, seq, .. } => {
            answer(me, group, *client, *seq, body.dup(alloc)?, out)
        }
        _ => {
            let why = OrderRefusal::NotLeader { hint };
            report_order(me, order_number(command), OrderResult::Refused(why), out)
        }
    }
}

/// Appends what `dismiss` does, for each of these queued commands.
#[tactic(auto, unfolding(sc_node_table::specs::Mails::dismissed_all))]
pub fn dismiss_all(
    alloc: Global,
    me: u16,
    group: Draw,
    hint: Option<u16>,
    body: &AnswerBody,
    commands: &VecDeque<Command>,
    out: &mut Sequence<Mail>,
) -> Result<(), OutOfMemory>
    ensures mails { OnOk result
        (out.new ≡ dismissed_all me group hint body.now commands.now.items out.old) }
    ensures none { dismissed_all me group hint body.now commands.now.items [] ≡ [] →
        IsOk result }
{
    for i in 0..commands.len() {
        dismiss(alloc, me, group, hint, body, &commands[i], out)?;
    }
    Ok(())
}
