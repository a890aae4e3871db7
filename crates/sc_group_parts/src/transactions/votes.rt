//! Votes of a group, and what a coordinator has decided.
ghost use Rattle.std.specs.Prelude.{◌≡◌, ◌||◌, not, Some, None, MatchResult, find};
ghost use Rattle.std.specs.Option.{option_copied};
ghost use Rattle.sc_base.specs.Same.{same_draw};
ghost use Rattle.sc_base.specs.Union.{united};
ghost use Rattle.sc_group_table.specs.machine.Orders.{locked_in};
ghost use Rattle.sc_group_table.specs.machine.Votes.{size_no, place_no, body_no, offer_no, watch_no, no_of, vote_of, watch_vote_of};
ghost use Rattle.sc_group_parts.specs.transactions.Decisions.{decision_by, decision_in, decision_of};

use crate::transactions::checks::locked_in;
use sc_base::{Draw, Members, same_draw};
use sc_words::{Body, Core, No, Offer, Outcome, Watch};

/// What a coordinator's log says of a transaction.
#[derive(Clone, Copy, Debug, PartialEq, Eq)]
pub enum Decision {
    /// The transaction is not decided.
    Undecided,
    /// The transaction was committed.
    Commit,
    /// The transaction was aborted.
    Abort,
}

/// Returns the vote of a group with this record on the offer of its predecessor: `Ok` is a Yes,
/// and the error is the first reason for a No that holds. Whether it has voted already is not
/// tested here. Scatter, SOSP 2011, multi-group operations.
pub fn vote(core: &Core, offer: &Offer) -> Result<(), No>
    ensures { MatchResult result (λ _. vote_of core.now offer.now ≡ None)
        (λ why. vote_of core.now offer.now ≡ Some why) }
{
    if let Some(why) = bound(core) {
        return Err(why);
    }
    match offer_no(core, offer) {
        Some(why) => Err(why),
        None => Ok(()),
    }
}

/// Returns the vote of a group with this record on becoming a watcher: `Ok` is a Yes, and the
/// error is the first reason for a No that holds. Whether it has voted already is not tested here.
pub fn watch_vote(core: &Core, watch: &Watch) -> Result<(), No>
    ensures { MatchResult result (λ _. watch_vote_of core.now watch.now ≡ None)
        (λ why. watch_vote_of core.now watch.now ≡ Some why) }
{
    if let Some(why) = bound(core) {
        return Err(why);
    }
    if !same_draw(core.pred.group, watch.old) {
        return Err(No::Apart);
    }
    Ok(())
}

/// Returns what a group with this record has decided of a transaction that it coordinates.
pub fn decide(core: &Core, tx: Draw) -> Decision
    ensures { result ≡ decision_of core.now tx }
{
    match noted(core, tx) {
        Some(entry) => decision_by(&entry.1),
        None => Decision::Undecided,
    }
}

// Returns why a group votes No whatever is asked, if so: it is gone, or locked.
fn bound(core: &Core) -> Option<No>
    ensures { result ≡ no_of core.now.gone (locked_in core.now.lock) None }
{
    if core.gone.is_some() {
        return Some(No::Gone);
    }
    match locked_in(&core.lock) {
        Some(tx) => Some(No::Busy { tx }),
        None => None,
    }
}

fn offer_no(core: &Core, offer: &Offer) -> Option<No>
    ensures { result ≡ offer_no core.now offer.now }
{
    if core.arc.lo() != offer.arc.end() {
        return Some(No::Apart);
    }
    body_no(core, offer)
}

fn body_no(core: &Core, offer: &Offer) -> Option<No>
    ensures { result ≡ body_no offer.now.body core.now offer.now }
{
    match offer.body {
        Body::Merge => size_no(core.members.count_with(&offer.members)),
        Body::Repart { at } => place_no(core, offer, at),
        Body::Migrate { node } => size_no(core.members.count_with(&Members::one(node))),
        Body::Split { .. } => None,
    }
}

fn size_no(n: u8) -> Option<No>
    ensures { result ≡ size_no n }
{
    if n > 9 { Some(No::TooMany { n }) } else { None }
}

fn place_no(core: &Core, offer: &Offer, at: u32) -> Option<No>
    ensures { result ≡ place_no core.now offer.now at }
{
    if offer.arc.holds(at) {
        return None;
    }
    if at == core.arc.lo() || !core.arc.holds(at) {
        return Some(No::Apart);
    }
    None
}

fn noted(core: &Core, tx: Draw) -> Option<&(Draw, Outcome)>
    ensures { option_copied result ≡ find (λ noted. same_draw noted.0 tx) core.now.decided }
{
    core.decided
        .as_slice()
        .iter()
        .find(|noted| same_draw(noted.0, tx))
}

fn decision_by(outcome: &Outcome) -> Decision
    ensures { result ≡ decision_by outcome.now }
{
    match outcome {
        Outcome::Abort => Decision::Abort,
        Outcome::Merged { .. }
        | Outcome::Moved { .. }
        | Outcome::Migrated { .. }
        | Outcome::Divided => Decision::Commit,
    }
}
