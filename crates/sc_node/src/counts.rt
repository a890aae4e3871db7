//! The rows of the replica's table that execute: Accepted, where the command of the next slot
//! becomes ready, and Learn.
ghost use Rattle.std.specs.Prelude.{◌≡◌, ◌+◌, ◌<◌, ◌≤◌, ◌++◌, ◌&&◌, not, true, false, OnOk, IsOk, Some};
ghost use Rattle.sc_node_table.specs.Slots.{slots_ahead};
ghost use Rattle.sc_node_table.specs.Replica.{next, set_at, last_slot};
ghost use Rattle.sc_node_table.specs.Voting.{leads, readied, voted, accepted_row};
ghost use Rattle.sc_node_table.specs.Rows.{learn_row};
ghost use Rattle.sc_node.specs.PassedInputs.{readies_none, is_learnt};

use crate::execute::execute;
use sc_base::{Ballot, Members, OutOfMemory, Sequence};
use sc_mail::Mail;
use sc_node_replica::{LAST_SLOT, Replica};
use sc_paxos::Counted;
use sc_words::{Base, Command};

/// Makes a command ready, and executes it where its slot is the next one.
#[tactic(auto, unfolding(sc_node_table::specs::Voting::readied), using(crate::proofs::Making::making))]
fn make_ready(
    replica: &mut Replica,
    slot: u32,
    command: &Command,
    out: &mut Sequence<Mail>,
    made: &mut Sequence<Base>,
) -> Result<(), OutOfMemory>
    ensures place { OnOk result
        ((replica.new, out.new) ≡ (readied slot command.now (replica.old, out.old)).0) }
    ensures made { OnOk result
        (made.new ≡ made.old ++ (readied slot command.now (replica.old, out.old)).1) }
{
    replica.make_ready(slot, command)?;
    if slot == replica.next() && replica.has_room() {
        return execute(replica, true, command, out, made);
    }
    Ok(())
}

/// Counts a vote at an open slot, and makes the command ready of which a majority was counted.
#[tactic(auto, using(crate::proofs::Counting::counted))]
fn count(
    replica: &mut Replica,
    from: u16,
    ballot: Ballot,
    slot: u32,
    set: &Members,
    out: &mut Sequence<Mail>,
    made: &mut Sequence<Base>,
) -> Result<(), OutOfMemory>
    ensures place { OnOk result
        ((replica.new, out.new)
        ≡ (voted from ballot slot (Some set.now) (replica.old, out.old)).0) }
    ensures made { OnOk result
        (made.new
        ≡ made.old ++ (voted from ballot slot (Some set.now) (replica.old, out.old)).1) }
    ensures short { readies_none from ballot slot (Some set.now) replica.old ≡ true →
        IsOk result }
{
    match replica.count_vote(from, ballot, slot, set) {
        Counted::Chosen(command) => make_ready(replica, slot, &command, out, made),
        Counted::NotYet { .. } => Ok(()),
    }
}

/// Handles an Accepted: counts a vote at an open slot among that slot's members (Paxos Made Simple,
/// section 2.3).
#[tactic(auto, unfolding(sc_node_table::specs::Voting::accepted_row), using(crate::proofs::Making::making))]
pub(crate) fn on_accepted(
    replica: &mut Replica,
    from: u16,
    ballot: Ballot,
    slot: u32,
    out: &mut Sequence<Mail>,
    made: &mut Sequence<Base>,
) -> Result<(), OutOfMemory>
    ensures place { OnOk result
        ((replica.new, out.new) ≡ (accepted_row from ballot slot (replica.old, out.old)).0) }
    ensures made { OnOk result
        (made.new ≡ made.old ++ (accepted_row from ballot slot (replica.old, out.old)).1) }
    ensures none { (leads ballot replica.old
        && not (readies_none from ballot slot (set_at slot replica.old) replica.old)) ≡ false →
        IsOk result }
{
    if !replica.leads(ballot) {
        return Ok(());
    }
    let Some(set) = replica.set_at(slot) else {
        return Ok(());
    };
    let set = *set;
    count(replica, from, ballot, slot, &set, out, made)
}

/// Handles a Learn: executes the next slot's command; for a later slot, asks for the slots from the
/// next one on.
#[tactic(auto, unfolding(sc_node_table::specs::Rows::learn_row), using(crate::proofs::Making::making))]
pub(crate) fn on_learn(
    replica: &mut Replica,
    from: u16,
    slot: u32,
    command: &Command,
    out: &mut Sequence<Mail>,
    made: &mut Sequence<Base>,
) -> Result<(), OutOfMemory>
    ensures place { OnOk result
        ((replica.new, out.new) ≡ (learn_row from slot command.now (replica.old, out.old)).0) }
    ensures made { OnOk result
        (made.new ≡ made.old ++ (learn_row from slot command.now (replica.old, out.old)).1) }
    ensures none { is_learnt slot replica.old ≡ true → IsOk result }
{
    let next = replica.next();
    if LAST_SLOT < slot {
        return Ok(());
    }
    if slot == next {
        return execute(replica, false, command, out, made);
    }
    if next < slot {
        return replica.ask(from, next, out);
    }
    Ok(())
}
