//! Which mails a node takes, and what it sends where it has no replica of the group.
ghost use Rattle.std.specs.Prelude.{◌≡◌, [], IfOk, IsOk, None};
ghost use Rattle.sc_node_table.specs.Node.{group_of_mail, absent, is_node, may_come};
ghost use Rattle.sc_node_table.specs.Mails.{sent, answer_to};
ghost use Rattle.sc_mail.specs.declared.bodies.AnswerBody.TheVariants.{NotLeader};
ghost use Rattle.sc_mail.specs.declared.bodies.MailBody.TheVariants.{Ask, TxElsewhere};

use sc_base::{Draw, MOST_NODES, OutOfMemory, Sequence};
use sc_mail::{AnswerBody, Mail, MailBody, client_number};
use std::alloc::Global;

/// Returns whether an actor is one of the nodes.
fn is_node(from: u32) -> bool
    ensures { result ≡ is_node from }
{
    1 <= from && from <= MOST_NODES
}

/// Returns whether a mail may come from an actor: only a request comes from others than nodes.
pub(crate) fn may_come(from: u32, body: &MailBody) -> bool
    ensures { result ≡ may_come from body.now }
{
    match body {
        MailBody::Request { .. } => true,
        _ => is_node(from),
    }
}

/// Returns the group that a mail is for. None for a mail that is for no group.
pub(crate) fn group_in(body: &MailBody) -> Option<Draw>
    ensures { result ≡ group_of_mail body.now }
{
    match body {
        MailBody::Request { group, .. }
        | MailBody::Prepare { group, .. }
        | MailBody::Promise { group, .. }
        | MailBody::Accept { group, .. }
        | MailBody::Accepted { group, .. }
        | MailBody::Nack { group, .. }
        | MailBody::Learn { group, .. }
        | MailBody::Ask { group, .. }
        | MailBody::Install { group, .. } => Some(*group),
        MailBody::TxPrepare { offer, .. } => Some(offer.get().part),
        MailBody::TxOutcome { part, .. } => Some(*part),
        MailBody::TxWatch { watch, .. } => Some(watch.get().part),
        MailBody::TxVote { coord, .. }
        | MailBody::TxElsewhere { coord, .. }
        | MailBody::TxWatched { coord, .. } => Some(*coord),
        MailBody::Answer { .. } | MailBody::Told { .. } => None,
    }
}

/// Returns a list with one mail to an actor.
pub(crate) fn alone(
    alloc: Global,
    me: u16,
    to: u32,
    body: MailBody,
) -> Result<Sequence<Mail>, OutOfMemory>
    ensures { IfOk result (λ mails. mails ≡ sent me to body []) }
{
    let mut mails = Sequence::new(alloc);
    mails.push(Mail {
        from: me as u32,
        to,
        body,
    })?;
    Ok(mails)
}

/// Returns the answer to a client that its group is not led here.
fn refuse(
    alloc: Global,
    me: u16,
    group: Draw,
    client: u16,
    seq: u32,
) -> Result<Sequence<Mail>, OutOfMemory>
    ensures { IfOk result (λ mails. mails ≡ answer_to me group client seq (NotLeader None) []) }
{
    let answer = AnswerBody::NotLeader { hint: None };
    alone(
        alloc,
        me,
        client_number(client),
        MailBody::Answer { group, seq, answer },
    )
}

/// Returns the mail that asks a node for all slots of a group.
fn ask_whole(alloc: Global, me: u16, from: u32, group: Draw) -> Result<Sequence<Mail>, OutOfMemory>
    ensures { IfOk result (λ mails. mails ≡ sent me from (Ask group 0) []) }
{
    let from_slot = 0;
    alone(alloc, me, from, MailBody::Ask { group, from_slot })
}

/// Returns the mail to a coordinator that the node leads no such group, and knows no node that
/// does.
fn pass_on(
    alloc: Global,
    me: u16,
    from: u32,
    tx: Draw,
    coord: Draw,
) -> Result<Sequence<Mail>, OutOfMemory>
    ensures { IfOk result (λ mails. mails ≡ sent me from (TxElsewhere tx coord None) []) }
{
    let hint = None;
    alone(alloc, me, from, MailBody::TxElsewhere { tx, coord, hint })
}

/// Returns what is sent for a mail to a group of which the node has no replica.
pub(crate) fn absent(
    alloc: Global,
    me: u16,
    from: u32,
    body: &MailBody,
) -> Result<Sequence<Mail>, OutOfMemory>
    ensures mails { IfOk result (λ mails. mails ≡ absent me from body.now) }
    ensures none { absent me from body.now ≡ [] → IsOk result }
{
    match body {
        MailBody::Request {
            group,
            client,
            seq,
            ..
        } => refuse(alloc, me, *group, *client, *seq),
        MailBody::Prepare { group, .. }
        | MailBody::Accept { group, .. }
        | MailBody::Learn { group, .. } => ask_whole(alloc, me, from, *group),
        MailBody::TxPrepare { tx, offer } => pass_on(alloc, me, from, *tx, offer.get().coord),
        MailBody::TxWatch { tx, watch } => pass_on(alloc, me, from, *tx, watch.get().coord),
        MailBody::Answer { .. }
        | MailBody::Promise { .. }
        | MailBody::Accepted { .. }
        | MailBody::Nack { .. }
        | MailBody::Ask { .. }
        | MailBody::Install { .. }
        | MailBody::TxVote { .. }
        | MailBody::TxOutcome { .. }
        | MailBody::TxElsewhere { .. }
        | MailBody::TxWatched { .. }
        | MailBody::Told { .. } => Ok(Sequence::new(alloc)),
    }
}
