//! How a transaction proceeds once an entry of it is executed.
ghost use Rattle.std.specs.Prelude.{◌≡◌, [], OnOk, IsOk};
ghost use Rattle.sc_node_table.specs.Spoken.{heard_from, is_merge, before_in, before_of, asked_on, begun_asks, vote_sent, watch_sent, went_on, spoken_mails};

use crate::transactions::endings::{answer_vote, answer_watch, give_up};
use crate::transactions::questions::{ask_first, ask_successor};
use crate::transactions::reports::report_begun;
use crate::transactions::votes::{report_vote, report_watch};
use sc_base::{Draw, OutOfMemory, Sequence};
use sc_group::Machine;
use sc_mail::Mail;
use sc_node_table::Before;
use sc_words::{Body, Command, Core, Effect, Heard, Link, Lock, Offer, Past, Watch};
use std::alloc::Global;

/// Returns the node that brought the participant's vote that was heard, and the link of the group
/// behind the participant.
fn heard_from(heard: &Option<Heard>) -> Option<(u16, Link)>
    ensures { result ≡ heard_from heard.now }
{
    match heard {
        None => None,
        Some(heard) => Some((heard.by, heard.frozen.succ)),
    }
}

/// Returns whether a transaction is a merge.
fn is_merge(body: &Body) -> bool
    ensures { result ≡ is_merge body.now }
{
    match body {
        Body::Merge => true,
        Body::Repart { .. } | Body::Migrate { .. } | Body::Split { .. } => false,
    }
}

/// Returns what of the group before an entry the mails by the entry's effect need.
pub fn before_of(core: &Core) -> Before
    ensures { result ≡ before_of core.now }
{
    let alone = core.is_alone();
    let succ = core.succ;
    match &core.lock {
        Lock::Coordinating {
            body,
            order,
            heard,
            ..
        } => Before {
            alone,
            succ,
            order: *order,
            merges: is_merge(body),
            heard: heard_from(heard),
        },
        Lock::Free | Lock::Promised { .. } | Lock::Watching { .. } => Before {
            alone,
            succ,
            order: 0,
            merges: false,
            heard: None,
        },
    }
}

/// Sends the watcher's question of a group that only locks to be split, or that has heard its
/// participant.
fn ask_by(
    alloc: Global,
    effect: &Effect,
    me: u16,
    core: &Core,
    out: &mut Sequence<Mail>,
) -> Result<(), OutOfMemory>
    ensures mails { OnOk result (out.new ≡ asked_on effect.now me core.now out.old) }
    ensures none { asked_on effect.now me core.now [] ≡ [] → IsOk result }
{
    if effect.is_changed() {
        ask_first(alloc, me, core, out)
    } else {
        Ok(())
    }
}

/// Sends the question of a group that has begun to its successor.
fn ask_begun(
    alloc: Global,
    effect: &Effect,
    me: u16,
    core: &Core,
    tx: Draw,
    body: &Body,
    out: &mut Sequence<Mail>,
) -> Result<(), OutOfMemory>
    ensures mails { OnOk result
        (out.new ≡ begun_asks effect.now me core.now tx body.now out.old) }
    ensures none { begun_asks effect.now me core.now tx body.now [] ≡ [] → IsOk result }
{
    if effect.is_changed() {
        ask_successor(alloc, me, core, tx, body, out)
    } else {
        Ok(())
    }
}

/// Sends the vote on an offer to the node that asked.
fn send_vote(
    alloc: Global,
    vote: Option<Past>,
    machine: &Machine,
    me: u16,
    tx: Draw,
    offer: &Offer,
    out: &mut Sequence<Mail>,
) -> Result<(), OutOfMemory>
    ensures mails { OnOk result (out.new ≡ vote_sent vote me machine.now tx offer.now out.old) }
    ensures none { vote_sent vote me machine.now tx offer.now [] ≡ [] → IsOk result }
{
    match vote {
        None => Ok(()),
        Some(vote) => report_vote(alloc, machine, me, offer.by, tx, offer, vote, out),
    }
}

/// Sends the vote on becoming a watcher to the node that asked.
fn send_watch(
    vote: Option<Past>,
    me: u16,
    tx: Draw,
    watch: &Watch,
    out: &mut Sequence<Mail>,
) -> Result<(), OutOfMemory>
    ensures mails { OnOk result (out.new ≡ watch_sent vote me tx watch.now out.old) }
    ensures none { watch_sent vote me tx watch.now [] ≡ [] → IsOk result }
{
    match vote {
        None => Ok(()),
        Some(vote) => report_watch(me, watch.by, tx, watch, vote, out),
    }
}

/// Sends the mails of a counted command of a transaction, once it is executed.
#[tactic(auto, unfolding(sc_node_table::specs::Spoken::went_on))]
fn go_on(
    alloc: Global,
    machine: &Machine,
    me: u16,
    before: &Before,
    effect: &Effect,
    command: &Command,
    out: &mut Sequence<Mail>,
) -> Result<(), OutOfMemory>
    ensures mails { OnOk result
        (out.new ≡ went_on me machine.now before.now effect.now command.now out.old) }
    ensures none { went_on me machine.now before.now effect.now command.now [] ≡ [] →
        IsOk result }
{
    match command {
        Command::Split { .. } => ask_by(alloc, effect, me, machine.core(), out),
        Command::Begin { tx, body, .. } => {
            ask_begun(alloc, effect, me, machine.core(), *tx, body, out)
        }
        Command::Prepared { tx, offer } => {
            send_vote(alloc, effect.vote(), machine, me, *tx, offer.get(), out)
        }
        Command::RecordVote { tx, vote, by } => {
            ask_by(alloc, effect, me, machine.core(), out)?;
            answer_vote(alloc, effect, vote, me, before, *tx, *by, out)
        }
        Command::GiveUp { tx } => give_up(effect, me, before, *tx, out),
        Command::Watched { tx, watch } => send_watch(effect.vote(), me, *tx, watch.get(), out),
        Command::RecordWatch { tx, vote, by } => {
            answer_watch(alloc, effect, vote, me, before, *tx, *by, out)
        }
        Command::Finish { .. }
        | Command::Noop
        | Command::Call { .. }
        | Command::Join { .. }
        | Command::Leave { .. } => Ok(()),
    }
}

/// Sends what a split or a transaction has to say once its entry is executed: each replica reports
/// to the desk, and the one that counted the entry proceeds with the transaction.
#[tactic(auto, unfolding(sc_node_table::specs::Spoken::spoken_mails))]
pub fn speak(
    alloc: Global,
    counted: bool,
    machine: &Machine,
    me: u16,
    before: &Before,
    effect: &Effect,
    command: &Command,
    out: &mut Sequence<Mail>,
) -> Result<(), OutOfMemory>
    ensures mails { OnOk result
        (out.new
        ≡ spoken_mails counted me machine.now before.now effect.now command.now out.old) }
    ensures none { spoken_mails counted me machine.now before.now effect.now command.now [] ≡ [] →
        IsOk result }
{
    report_begun(me, before, effect, command, out)?;
    if !counted {
        return Ok(());
    }
    go_on(alloc, machine, me, before, effect, command, out)
}
