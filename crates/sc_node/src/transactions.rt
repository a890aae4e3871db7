//! The rows of TxPrepare, TxVote, TxOutcome, TxElsewhere, TxWatch and TxWatched (Scatter, SOSP
//! 2011, multi-group operations).
ghost use Rattle.std.specs.Prelude.{◌≡◌, [], ◌&&◌, ◌||◌, false, OnOk, IsOk, Some, None};
ghost use Rattle.sc_words.specs.declared.commands.votes.Past.TheVariants.{Yes, Ended};
ghost use Rattle.sc_node_table.specs.Transactions.{offered_by, offer_row, watched_by, watch_row, vote_queued, vote_row, watch_queued, watch_met, watched_row, elsewhere_row, outcome_row, standing_vote, awaits_vote, awaits_watch, is_bound, noted_outcome};
ghost use Rattle.sc_node.specs.PassedInputs.{asks_outcome, watcher_asks};

use sc_base::{Boxed, Draw, Dup, OutOfMemory, Sequence};
use sc_mail::Mail;
use sc_node_choices::record_of;
use sc_node_parts::{
    ask_next, awaits_vote, awaits_watch, is_bound, noted_outcome, pass_on, report_vote,
    report_watch, send_outcome, standing_vote,
};
use sc_node_replica::Replica;
use sc_words::{Command, Offer, Outcome, Past, Vote, Watch};

/// Queues the vote on an offer where the replica runs, and names the leader that it knows
/// otherwise. No vote on it stands yet.
fn take_offer(
    replica: &mut Replica,
    from: u16,
    tx: Draw,
    offer: &Offer,
    out: &mut Sequence<Mail>,
) -> Result<(), OutOfMemory>
    ensures { OnOk result
        ((replica.new, out.new) ≡ offered_by None from tx offer.now (replica.old, out.old)) }
{
    if replica.is_running() {
        let offer = Boxed::new(replica.alloc(), *offer)?;
        return replica.queue_act(Command::Prepared { tx, offer }, out);
    }
    pass_on(replica.me(), from, tx, offer.coord, replica.hint(), out)
}

/// Handles a TxPrepare: answers with the vote that stands, or has the offer voted on.
#[tactic(auto, unfolding(sc_node_table::specs::Transactions::offer_row))]
pub(crate) fn on_offer(
    replica: &mut Replica,
    from: u16,
    tx: Draw,
    offer: &Offer,
    out: &mut Sequence<Mail>,
) -> Result<(), OutOfMemory>
    ensures row { OnOk result
        ((replica.new, out.new) ≡ offer_row from tx offer.now (replica.old, out.old)) }
    ensures ended { standing_vote replica.old.group.core tx ≡ Some Ended → IsOk result }
{
    match standing_vote(replica.machine().core(), tx) {
        Some(vote) => report_vote(
            replica.alloc(),
            replica.machine(),
            replica.me(),
            from,
            tx,
            offer,
            vote,
            out,
        ),
        None => take_offer(replica, from, tx, offer, out),
    }
}

/// Queues the vote on a watch where the replica runs, and names the leader that it knows otherwise.
/// No vote on it stands yet.
fn take_watch(
    replica: &mut Replica,
    from: u16,
    tx: Draw,
    watch: &Watch,
    out: &mut Sequence<Mail>,
) -> Result<(), OutOfMemory>
    ensures { OnOk result
        ((replica.new, out.new) ≡ watched_by None from tx watch.now (replica.old, out.old)) }
{
    if replica.is_running() {
        let watch = Boxed::new(replica.alloc(), *watch)?;
        return replica.queue_act(Command::Watched { tx, watch }, out);
    }
    pass_on(replica.me(), from, tx, watch.coord, replica.hint(), out)
}

/// Handles a TxWatch: answers with the vote that stands, or has the watch voted on.
#[tactic(auto, unfolding(sc_node_table::specs::Transactions::watch_row))]
pub(crate) fn on_watch(
    replica: &mut Replica,
    from: u16,
    tx: Draw,
    watch: &Watch,
    out: &mut Sequence<Mail>,
) -> Result<(), OutOfMemory>
    ensures row { OnOk result
        ((replica.new, out.new) ≡ watch_row from tx watch.now (replica.old, out.old)) }
    ensures ended { standing_vote replica.old.group.core tx ≡ Some Ended → IsOk result }
{
    match standing_vote(replica.machine().core(), tx) {
        Some(vote) => report_watch(replica.me(), from, tx, watch, vote, out),
        None => take_watch(replica, from, tx, watch, out),
    }
}

/// Queues the record of a vote for which the leader waits. Ignores another vote.
fn take_vote(
    replica: &mut Replica,
    from: u16,
    tx: Draw,
    vote: &Vote,
    out: &mut Sequence<Mail>,
) -> Result<(), OutOfMemory>
    ensures row { OnOk result
        ((replica.new, out.new) ≡ vote_queued from tx vote.now (replica.old, out.old)) }
    ensures none { (replica.old.running && awaits_vote replica.old.group.core.lock tx) ≡ false →
        IsOk result }
{
    if !replica.is_running() || !awaits_vote(&replica.machine().core().lock, tx) {
        return Ok(());
    }
    let vote = vote.dup(replica.alloc())?;
    replica.queue_act(record_of(tx, vote, from), out)
}

/// Handles a TxVote: a Yes is answered with the outcome, if it is noted; a vote for which the
/// leader waits is recorded.
#[tactic(auto, unfolding(sc_node_table::specs::Transactions::vote_row))]
pub(crate) fn on_party_vote(
    replica: &mut Replica,
    from: u16,
    tx: Draw,
    part: Draw,
    vote: &Vote,
    out: &mut Sequence<Mail>,
) -> Result<(), OutOfMemory>
    ensures row { OnOk result
        ((replica.new, out.new) ≡ vote_row from tx part vote.now (replica.old, out.old)) }
    ensures none { (asks_outcome vote.now (noted_outcome replica.old.group.core tx)
        || (replica.old.running && awaits_vote replica.old.group.core.lock tx)) ≡ false →
        IsOk result }
{
    match vote {
        Vote::Yes(_) => match noted_outcome(replica.machine().core(), tx) {
            Some(outcome) => {
                send_outcome(replica.alloc(), replica.me(), from, tx, part, outcome, out)
            }
            None => take_vote(replica, from, tx, vote, out),
        },
        Vote::No(_) => take_vote(replica, from, tx, vote, out),
    }
}

/// Queues the record of a watcher's vote for which the leader waits. Ignores another vote.
fn take_watched(
    replica: &mut Replica,
    from: u16,
    tx: Draw,
    vote: Past,
    out: &mut Sequence<Mail>,
) -> Result<(), OutOfMemory>
    ensures row { OnOk result
        ((replica.new, out.new) ≡ watch_queued from tx vote (replica.old, out.old)) }
    ensures none { (replica.old.running && awaits_watch replica.old.group.core.lock tx) ≡ false →
        IsOk result }
{
    if !replica.is_running() || !awaits_watch(&replica.machine().core().lock, tx) {
        return Ok(());
    }
    replica.queue_act(Command::RecordWatch { tx, vote, by: from }, out)
}

/// Handles a TxWatched: a Yes is answered with the outcome, if it is noted; a vote for which the
/// leader waits is recorded.
#[tactic(auto, unfolding(sc_node_table::specs::Transactions::watched_row))]
pub(crate) fn on_watched(
    replica: &mut Replica,
    from: u16,
    tx: Draw,
    part: Draw,
    vote: Past,
    out: &mut Sequence<Mail>,
) -> Result<(), OutOfMemory>
    ensures row { OnOk result
        ((replica.new, out.new) ≡ watched_row from tx part vote (replica.old, out.old)) }
    ensures none { (watcher_asks vote (noted_outcome replica.old.group.core tx)
        || (replica.old.running && awaits_watch replica.old.group.core.lock tx)) ≡ false →
        IsOk result }
{
    match vote {
        Past::Yes => match noted_outcome(replica.machine().core(), tx) {
            Some(outcome) => {
                send_outcome(replica.alloc(), replica.me(), from, tx, part, outcome, out)
            }
            None => take_watched(replica, from, tx, Past::Yes, out),
        },
        Past::No(why) => take_watched(replica, from, tx, Past::No(why), out),
        Past::Ended => take_watched(replica, from, tx, Past::Ended, out),
    }
}

/// Handles a TxElsewhere: a settled coordinator asks another node of the party.
#[tactic(auto, unfolding(sc_node_table::specs::Transactions::elsewhere_row))]
pub(crate) fn on_elsewhere(
    replica: &mut Replica,
    from: u16,
    tx: Draw,
    hint: Option<u16>,
    out: &mut Sequence<Mail>,
) -> Result<(), OutOfMemory>
    ensures row { OnOk result
        ((replica.new, out.new) ≡ elsewhere_row from tx hint (replica.old, out.old)) }
    ensures none { (elsewhere_row from tx hint (replica.old, [])).1 ≡ [] → IsOk result }
{
    if !replica.is_settled() {
        return Ok(());
    }
    ask_next(
        replica.alloc(),
        replica.me(),
        replica.machine().core(),
        from,
        tx,
        hint,
        out,
    )
}

/// Handles a TxOutcome: the leader of a group that is bound queues the outcome for its log.
#[tactic(auto, unfolding(sc_node_table::specs::Transactions::outcome_row))]
pub(crate) fn on_outcome(
    replica: &mut Replica,
    tx: Draw,
    outcome: &Outcome,
    out: &mut Sequence<Mail>,
) -> Result<(), OutOfMemory>
    ensures row { OnOk result
        ((replica.new, out.new) ≡ outcome_row tx outcome.now (replica.old, out.old)) }
    ensures none { (replica.old.running && is_bound replica.old.group.core.lock tx) ≡ false →
        IsOk result }
{
    if !replica.is_running() || !is_bound(&replica.machine().core().lock, tx) {
        return Ok(());
    }
    let outcome = outcome.dup(replica.alloc())?;
    replica.queue_act(Command::Finish { tx, outcome }, out)
}
