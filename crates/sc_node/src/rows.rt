//! The rows of a replica's table, by the input.
ghost use Rattle.std.specs.Prelude.{◌≡◌, ◌++◌, true, IfOk, OnOk, IsOk};
ghost use Rattle.sc_node_table.specs.Node.{may_come};
ghost use Rattle.sc_node_table.specs.Rows.{mailed, stepped, names_left};
ghost use Rattle.sc_node.specs.GivenInputs.{is_of_transaction, may_take};
ghost use Rattle.sc_node.specs.PassedInputs.{IsPassedBy};

use crate::counts::{on_accepted, on_learn};
use crate::orders::on_order;
use crate::ticks::on_tick;
use crate::transactions::{
    on_elsewhere, on_offer, on_outcome, on_party_vote, on_watch, on_watched,
};
use sc_base::{Draws, MOST_NODES, OutOfMemory, Sequence};
use sc_mail::{Mail, MailBody};
use sc_node_replica::Replica;
use sc_node_table::{Made, ReplicaInput};
use sc_words::Base;

/// Handles a mail of a transaction. Mails of no row change nothing.
#[tactic(auto, unfolding(sc_node_table::specs::Rows::mailed))]
fn on_transaction(
    replica: &mut Replica,
    from: u16,
    body: &MailBody,
    out: &mut Sequence<Mail>,
) -> Result<(), OutOfMemory>
    requires { is_of_transaction body.now ≡ true }
    ensures row { OnOk result
        ((replica.new, out.new) ≡ (mailed from body.now (replica.old, out.old)).0) }
    ensures none { IsPassedBy from body.now replica.old → IsOk result }
{
    match body {
        MailBody::TxPrepare { tx, offer } => on_offer(replica, from, *tx, offer.get(), out),
        MailBody::TxVote { tx, part, vote, .. } => {
            on_party_vote(replica, from, *tx, *part, vote, out)
        }
        MailBody::TxOutcome { tx, outcome, .. } => on_outcome(replica, *tx, outcome, out),
        MailBody::TxElsewhere { tx, hint, .. } => on_elsewhere(replica, from, *tx, *hint, out),
        MailBody::TxWatch { tx, watch } => on_watch(replica, from, *tx, watch.get(), out),
        MailBody::TxWatched { tx, part, vote, .. } => {
            on_watched(replica, from, *tx, *part, *vote, out)
        }
        MailBody::Answer { .. } | MailBody::Told { .. } => Ok(()),
        _ => unreachable!(),
    }
}

/// Handles a mail from a node.
#[tactic(auto, unfolding(sc_node_table::specs::Rows::mailed), using(crate::proofs::Making::making))]
fn on_mail(
    replica: &mut Replica,
    from: u16,
    body: &MailBody,
    out: &mut Sequence<Mail>,
    made: &mut Sequence<Base>,
) -> Result<(), OutOfMemory>
    ensures place { OnOk result
        ((replica.new, out.new) ≡ (mailed from body.now (replica.old, out.old)).0) }
    ensures made { OnOk result
        (made.new ≡ made.old ++ (mailed from body.now (replica.old, out.old)).1) }
    ensures none { IsPassedBy from body.now replica.old → IsOk result }
{
    match body {
        MailBody::Request {
            client,
            seq,
            op,
            ..
        } => replica.on_request(*client, *seq, op, out),
        MailBody::Accepted { ballot, slot, .. } => {
            on_accepted(replica, from, *ballot, *slot, out, made)
        }
        MailBody::Learn { slot, command, .. } => on_learn(replica, from, *slot, command, out, made),
        MailBody::Prepare { .. }
        | MailBody::Promise { .. }
        | MailBody::Accept { .. }
        | MailBody::Nack { .. }
        | MailBody::Ask { .. }
        | MailBody::Install { .. } => replica.on_round(from, body, out),
        MailBody::Answer { .. }
        | MailBody::TxPrepare { .. }
        | MailBody::TxVote { .. }
        | MailBody::TxOutcome { .. }
        | MailBody::TxElsewhere { .. }
        | MailBody::TxWatch { .. }
        | MailBody::TxWatched { .. }
        | MailBody::Told { .. } => on_transaction(replica, from, body, out),
    }
}

/// Handles a mail for the replica's group by its row. Only a request may come from others than the
/// nodes. Mails are appended to those that are there, and child groups whose replicas the node must
/// make to `made`. After `Err(OutOfMemory)` the replica may only be dropped.
#[tactic(auto, unfolding(sc_node_table::specs::Rows::mailed), using(crate::proofs::Making::making))]
pub fn take_mail(
    replica: &mut Replica,
    from: u32,
    body: &MailBody,
    out: &mut Sequence<Mail>,
    made: &mut Sequence<Base>,
) -> Result<(), OutOfMemory>
    requires { may_come from body.now ≡ true }
    ensures place { OnOk result
        ((replica.new, out.new) ≡ (mailed from body.now (replica.old, out.old)).0) }
    ensures made { OnOk result
        (made.new ≡ made.old ++ (mailed from body.now (replica.old, out.old)).1) }
    ensures none { IsPassedBy from body.now replica.old → IsOk result }
{
    if from <= MOST_NODES {
        return on_mail(replica, from as u16, body, out, made);
    }
    match body {
        MailBody::Request {
            client,
            seq,
            op,
            ..
        } => replica.on_request(*client, *seq, op, out),
        _ => unreachable!(),
    }
}

/// Makes one step by the replica's table, on a node with a policy or without. Mails are appended to
/// those that are there; the child groups whose replicas the node must make are returned. The names
/// of splits and transactions are drawn from the node's. Only a request may come from others than
/// the nodes. After `Err(OutOfMemory)` the replica may only be dropped.
#[tactic(auto, unfolding(sc_node_table::specs::Rows::stepped))]
pub fn step_replica(
    replica: &mut Replica,
    input: &ReplicaInput,
    policy: bool,
    draws: &mut Draws,
    out: &mut Sequence<Mail>,
) -> Result<Made, OutOfMemory>
    requires { may_take input.now ≡ true }
    ensures place { OnOk result
        ((replica.new, out.new)
        ≡ (stepped policy draws.old input.now (replica.old, out.old)).0) }
    ensures draws { OnOk result (draws.new ≡ names_left policy draws.old input.now replica.old) }
    ensures made { IfOk result
        (λ made.
        made.children ≡ (stepped policy draws.old input.now (replica.old, out.old)).1) }
{
    let mut children = Sequence::new(replica.alloc());
    match input {
        ReplicaInput::Got(mail) => {
            take_mail(replica, mail.from, &mail.body, out, &mut children)?;
        }
        ReplicaInput::Tick => on_tick(replica, policy, draws, out)?,
        ReplicaInput::Told(line) => on_order(replica, draws, line, out)?,
    }
    Ok(Made { children })
}
