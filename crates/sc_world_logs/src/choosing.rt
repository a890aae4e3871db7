//! Which command is chosen at a slot.
ghost use Rattle.std.specs.Prelude.{◌≡◌, ◌==◌, ◌&&◌, ◌≤◌, length};
ghost use Rattle.std.specs.Option.{option_copied, option_map};
ghost use Rattle.sc_base.specs.Roster.{is_member};
ghost use Rattle.sc_base.specs.Majority.{is_majority};
ghost use Rattle.sc_paxos_law.specs.Decided.{voters_of, found_in, chosen_at};
ghost use Rattle.sc_world_logs.specs.Acceptances.{steps_of, report_of, is_vote, IsFoundChosen, with_chosen};

use crate::accepting::Acceptance;
use sc_base::{Ballot, Members, same_ballot};
use sc_words::Command;

// Returns whether an acceptance is a node's at a slot in a ballot.
fn is_vote(here: &Acceptance, ballot: Ballot, slot: u32, node: u16) -> bool
    ensures { result ≡ is_vote ballot slot node here.now }
{
    here.node == node as u32 && (same_ballot(here.ballot, ballot) && here.slot == slot)
}

// Returns whether a node accepted at a slot in a ballot.
fn has_accepted(found: &[Acceptance], ballot: Ballot, slot: u32, node: u16) -> bool
    ensures { result ≡ is_member (voters_of (steps_of found.now) ballot slot) node }
{
    found.iter().any(|here| is_vote(here, ballot, slot, node))
}

// Returns whether a majority of the members accepted at a slot in a ballot.
#[tactic(auto, using(crate::proofs::Votes::votes_so_far))]
fn is_majority(members: &[u16], found: &[Acceptance], ballot: Ballot, slot: u32) -> bool
    requires { length members.now ≤ 9 }
    ensures { result ≡ is_majority members.now (voters_of (steps_of found.now) ballot slot) }
{
    let mut votes = 0usize;
    for member in members {
        if has_accepted(found, ballot, slot, *member) {
            votes += 1;
            if members.len() < 2 * votes {
                return true;
            }
        }
    }
    false
}

// Returns the acceptance `here` where it is at the slot, a majority accepted in its ballot, and its
// ballot is not above that of `least`; else `least`. A majority accepted in the ballot of `least`,
// so votes are counted neither for a later ballot nor for the same one.
#[tactic(auto, using(crate::proofs::Better::better_elsewhere, crate::proofs::Better::better_later, crate::proofs::Better::better_chosen, crate::proofs::Better::better_none, crate::proofs::Better::same_chosen))]
fn better_of<'a>(
    members: &[u16],
    found: &[Acceptance],
    slot: u32,
    here: &'a Acceptance,
    least: Option<&'a Acceptance>,
) -> Option<&'a Acceptance>
    requires few { length members.now ≤ 9 }
    requires chosen { IsFoundChosen members.now (steps_of found.now) slot (option_copied least) }
    ensures better { option_map report_of (option_copied result) ≡
        with_chosen ((here.now.slot == slot) &&
        is_majority members.now (voters_of (steps_of found.now) here.now.ballot slot))
        (report_of here.now) (option_map report_of (option_copied least.entry)) }
    ensures chosen { IsFoundChosen members.now (steps_of found.now) slot (option_copied result) }
{
    if here.slot != slot {
        return least;
    }
    if let Some(least) = least {
        if least.ballot < here.ballot {
            return Some(least);
        }
        if same_ballot(least.ballot, here.ballot) {
            return Some(here);
        }
    }
    if is_majority(members, found, here.ballot, slot) {
        return Some(here);
    }
    least
}

// Returns, of the acceptances at a slot in ballots in which a majority of the members accepted
// there, one with the least ballot.
fn find_at<'a>(members: &[u16], found: &'a [Acceptance], slot: u32) -> Option<&'a Acceptance>
    requires { length members.now ≤ 9 }
    ensures { option_map report_of (option_copied result) ≡
        found_in members.now (steps_of found.now) slot (steps_of found.now) }
{
    let mut best: Option<&'a Acceptance> = None;
    for acceptance in found {
        best = better_of(members, found, slot, acceptance, best);
    }
    best
}

/// Returns the command that is chosen at a slot, if one is (Paxos Made Simple, section 2.3).
pub(crate) fn chosen_at<'a>(
    members: &Members,
    found: &'a [Acceptance],
    slot: u32,
) -> Option<&'a Command>
    ensures { option_copied result ≡ chosen_at members.now (steps_of found.now) slot }
{
    match find_at(members.as_slice(), found, slot) {
        None => None,
        Some(acceptance) => Some(&acceptance.command),
    }
}
