//! What a coordinator sends of its decision.
ghost use Rattle.std.specs.Prelude.{◌≡◌, [], OnOk, IsOk};
ghost use Rattle.sc_words.specs.declared.commands.votes.Outcome.TheVariants.{Abort};
ghost use Rattle.sc_words.specs.commands.Effects.{decided_in};
ghost use Rattle.sc_mail.specs.declared.bodies.MailBody.TheVariants.{TxOutcome};
ghost use Rattle.sc_node_table.specs.Mails.{sent_all};
ghost use Rattle.sc_node_table.specs.Spoken.{aborted_to, aborted_watcher, given_up_by, vote_answered, released_to, watch_answered_by};

use crate::replica::send;
use crate::transactions::reports::send_outcome;
use sc_base::{Draw, OutOfMemory, Sequence};
use sc_mail::{Mail, MailBody};
use sc_node_table::Before;
use sc_words::{Effect, Link, Outcome, Past, Vote};
use std::alloc::Global;

/// Reports to each of several nodes that the transaction is given up.
#[tactic(auto, unfolding(sc_node_table::specs::Mails::sent_all))]
fn send_aborts(
    me: u16,
    nodes: &[u16],
    tx: Draw,
    part: Draw,
    out: &mut Sequence<Mail>,
) -> Result<(), OutOfMemory>
    ensures mails { OnOk result
        (out.new ≡ sent_all me nodes.now (TxOutcome tx part Abort) out.old) }
    ensures none { nodes.now ≡ [] → IsOk result }
{
    for node in nodes {
        let outcome = Outcome::Abort;
        send(
            me,
            *node as u32,
            MailBody::TxOutcome { tx, part, outcome },
            out,
        )?;
    }
    Ok(())
}

/// Reports to each member of a party that the transaction is given up.
fn abort_to(me: u16, tx: Draw, link: &Link, out: &mut Sequence<Mail>) -> Result<(), OutOfMemory>
    ensures mails { OnOk result (out.new ≡ aborted_to me tx link.now out.old) }
    ensures none { aborted_to me tx link.now [] ≡ [] → IsOk result }
{
    send_aborts(me, link.members.as_slice(), tx, link.group, out)
}

/// Reports to each member of a watcher whose participant was heard that the transaction is given
/// up.
fn abort_watcher(
    me: u16,
    tx: Draw,
    heard: &Option<(u16, Link)>,
    out: &mut Sequence<Mail>,
) -> Result<(), OutOfMemory>
    ensures mails { OnOk result (out.new ≡ aborted_watcher me tx heard.now out.old) }
    ensures none { aborted_watcher me tx heard.now [] ≡ [] → IsOk result }
{
    match heard {
        None => Ok(()),
        Some(heard) => abort_to(me, tx, &heard.1, out),
    }
}

/// Reports to the participant that the transaction is given up, and the watcher where one was asked
/// after it.
pub(crate) fn give_up(
    effect: &Effect,
    me: u16,
    before: &Before,
    tx: Draw,
    out: &mut Sequence<Mail>,
) -> Result<(), OutOfMemory>
    ensures mails { OnOk result
        (out.new ≡ given_up_by (decided_in effect.now) me before.now tx out.old) }
    ensures none { given_up_by (decided_in effect.now) me before.now tx [] ≡ [] → IsOk result }
{
    if !effect.has_outcome() {
        return Ok(());
    }
    abort_to(me, tx, &before.succ, out)?;
    abort_watcher(me, tx, &before.heard, out)
}

/// Reports to the node that brought a participant's Yes what it decided, where it decided the
/// transaction.
pub(crate) fn answer_vote(
    alloc: Global,
    effect: &Effect,
    vote: &Vote,
    me: u16,
    before: &Before,
    tx: Draw,
    by: u16,
    out: &mut Sequence<Mail>,
) -> Result<(), OutOfMemory>
    ensures mails { OnOk result
        (out.new ≡ vote_answered (decided_in effect.now) vote.now me before.now tx by out.old) }
    ensures none { vote_answered (decided_in effect.now) vote.now me before.now tx by [] ≡ [] →
        IsOk result }
{
    let Some(outcome) = effect.outcome() else {
        return Ok(());
    };
    match vote {
        Vote::Yes(_) => send_outcome(alloc, me, by, tx, before.succ.group, outcome, out),
        Vote::No(_) => Ok(()),
    }
}

/// Reports to the participant that was heard what a watcher's Yes decided, and then the node that
/// brought the vote.
fn release(
    alloc: Global,
    me: u16,
    before: &Before,
    tx: Draw,
    by: u16,
    outcome: &Outcome,
    out: &mut Sequence<Mail>,
) -> Result<(), OutOfMemory>
    ensures { OnOk result
        (out.new ≡ released_to before.now.heard me before.now.succ tx by outcome.now out.old) }
{
    let part = before.succ.group;
    match &before.heard {
        None => send_outcome(alloc, me, by, tx, part, outcome, out),
        Some(heard) => {
            send_outcome(alloc, me, heard.0, tx, part, outcome, out)?;
            send_outcome(alloc, me, by, tx, heard.1.group, outcome, out)
        }
    }
}

/// Sends what a watcher's vote decided, where it decided the transaction.
pub(crate) fn answer_watch(
    alloc: Global,
    effect: &Effect,
    vote: &Past,
    me: u16,
    before: &Before,
    tx: Draw,
    by: u16,
    out: &mut Sequence<Mail>,
) -> Result<(), OutOfMemory>
    ensures mails { OnOk result
        (out.new ≡ watch_answered_by (decided_in effect.now) vote.now me before.now tx by out.old) }
    ensures none { watch_answered_by (decided_in effect.now) vote.now me before.now tx by [] ≡ [] →
        IsOk result }
{
    let Some(outcome) = effect.outcome() else {
        return Ok(());
    };
    match vote {
        Past::Yes => release(alloc, me, before, tx, by, outcome, out),
        Past::No(_) => {
            if before.merges {
                abort_to(me, tx, &before.succ, out)
            } else {
                Ok(())
            }
        }
        Past::Ended => Ok(()),
    }
}
