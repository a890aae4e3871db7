//! Votes, as mails carry them.
ghost use Rattle.std.specs.Prelude.{◌≡◌, [], OnOk, IsOk};
ghost use Rattle.sc_words.specs.declared.commands.votes.Past.TheVariants.{Yes};
ghost use Rattle.sc_words.specs.declared.commands.votes.Vote.TheVariants as Says;
ghost use Rattle.sc_mail.specs.declared.bodies.MailBody.TheVariants.{TxVote, TxWatched};
ghost use Rattle.sc_group_table.specs.machine.Plans.{frozen_of};
ghost use Rattle.sc_node_table.specs.Mails.{sent, sent_all};
ghost use Rattle.sc_node_table.specs.Transactions.{voted_to, watched_to};

use crate::replica::send;
use sc_base::{Boxed, Draw, OutOfMemory, Sequence};
use sc_group::Machine;
use sc_mail::{Mail, MailBody};
use sc_words::{Offer, Past, Vote, Watch};
use std::alloc::Global;

/// Sends a vote on an offer to one node.
fn send_vote(
    me: u16,
    node: u16,
    tx: Draw,
    offer: &Offer,
    vote: Vote,
    out: &mut Sequence<Mail>,
) -> Result<(), OutOfMemory>
    ensures { OnOk result
        (out.new ≡ sent me node (TxVote tx offer.now.coord offer.now.part vote) out.old) }
{
    send(
        me,
        node as u32,
        MailBody::TxVote {
            tx,
            coord: offer.coord,
            part: offer.part,
            vote,
        },
        out,
    )
}

/// Sends a Yes to one node, with the frozen group.
fn send_yes(
    alloc: Global,
    machine: &Machine,
    me: u16,
    node: u16,
    tx: Draw,
    offer: &Offer,
    out: &mut Sequence<Mail>,
) -> Result<(), OutOfMemory>
    ensures { OnOk result
        (out.new
        ≡ sent me node
        (TxVote tx offer.now.coord offer.now.part (Says.Yes (frozen_of machine.now))) out.old) }
{
    let frozen = Boxed::new(alloc, machine.frozen()?)?;
    send_vote(me, node, tx, offer, Vote::Yes(frozen), out)
}

/// Sends a vote on an offer to one node. A Yes carries the frozen group. Of a transaction that has
/// ended nothing is sent.
pub fn report_vote(
    alloc: Global,
    machine: &Machine,
    me: u16,
    node: u16,
    tx: Draw,
    offer: &Offer,
    vote: Past,
    out: &mut Sequence<Mail>,
) -> Result<(), OutOfMemory>
    ensures mails { OnOk result
        (out.new ≡ voted_to me machine.now node tx offer.now vote out.old) }
    ensures none { voted_to me machine.now node tx offer.now vote [] ≡ [] → IsOk result }
{
    match vote {
        Past::Yes => send_yes(alloc, machine, me, node, tx, offer, out),
        Past::No(why) => send_vote(me, node, tx, offer, Vote::No(why), out),
        Past::Ended => Ok(()),
    }
}

/// Sends a vote on becoming a watcher to one node.
fn send_watched(
    me: u16,
    node: u16,
    tx: Draw,
    watch: &Watch,
    vote: Past,
    out: &mut Sequence<Mail>,
) -> Result<(), OutOfMemory>
    ensures { OnOk result
        (out.new ≡ sent me node (TxWatched tx watch.now.coord watch.now.part vote) out.old) }
{
    send(
        me,
        node as u32,
        MailBody::TxWatched {
            tx,
            coord: watch.coord,
            part: watch.part,
            vote,
        },
        out,
    )
}

/// Sends a vote on becoming a watcher to one node.
pub fn report_watch(
    me: u16,
    node: u16,
    tx: Draw,
    watch: &Watch,
    vote: Past,
    out: &mut Sequence<Mail>,
) -> Result<(), OutOfMemory>
    ensures mails { OnOk result (out.new ≡ watched_to me node tx watch.now vote out.old) }
    ensures none { watched_to me node tx watch.now vote [] ≡ [] → IsOk result }
{
    match vote {
        Past::Yes => send_watched(me, node, tx, watch, Past::Yes, out),
        Past::No(why) => send_watched(me, node, tx, watch, Past::No(why), out),
        Past::Ended => Ok(()),
    }
}

/// Sends a Yes on an offer to each of several nodes.
#[tactic(auto, unfolding(sc_node_table::specs::Mails::sent_all))]
pub(crate) fn send_yes_to_all(
    alloc: Global,
    machine: &Machine,
    me: u16,
    nodes: &[u16],
    tx: Draw,
    offer: &Offer,
    out: &mut Sequence<Mail>,
) -> Result<(), OutOfMemory>
    ensures mails { OnOk result
        (out.new
        ≡ sent_all me nodes.now
        (TxVote tx offer.now.coord offer.now.part (Says.Yes (frozen_of machine.now))) out.old) }
    ensures none { nodes.now ≡ [] → IsOk result }
{
    for node in nodes {
        send_yes(alloc, machine, me, *node, tx, offer, out)?;
    }
    Ok(())
}

/// Sends a watcher's Yes to each of several nodes.
#[tactic(auto, unfolding(sc_node_table::specs::Mails::sent_all))]
pub(crate) fn send_watched_to_all(
    me: u16,
    nodes: &[u16],
    tx: Draw,
    watch: &Watch,
    out: &mut Sequence<Mail>,
) -> Result<(), OutOfMemory>
    ensures mails { OnOk result
        (out.new
        ≡ sent_all me nodes.now (TxWatched tx watch.now.coord watch.now.part Yes) out.old) }
    ensures none { nodes.now ≡ [] → IsOk result }
{
    for node in nodes {
        send_watched(me, *node, tx, watch, Past::Yes, out)?;
    }
    Ok(())
}
