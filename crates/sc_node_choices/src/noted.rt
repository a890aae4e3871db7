//! What a group has noted of transactions, and what its lock waits for.
ghost use Rattle.std.specs.Prelude.{◌≡◌, Some, find};
ghost use Rattle.std.specs.Option.{option_copied, option_map};
ghost use Rattle.sc_base.specs.Same.{same_draw};
ghost use Rattle.sc_group_table.specs.machine.Orders.{locked_in};
ghost use Rattle.sc_group_table.specs.machine.Splits.{is_locked_in};
ghost use Rattle.sc_group_table.specs.machine.Transactions.{asks_watcher};
ghost use Rattle.sc_node_table.specs.Transactions.{noted_vote, noted_outcome, gone_vote, standing_by, standing_vote, awaits_vote, awaits_watch, is_bound};

use sc_base::{Draw, same_draw};
use sc_words::{Body, Core, Heard, Lock, No, Outcome, Past, Route};

/// Returns the vote that a group has noted in a transaction.
fn noted_vote(core: &Core, tx: Draw) -> Option<Past>
    ensures { result ≡ noted_vote core.now tx }
{
    let noted = core
        .voted
        .as_slice()
        .iter()
        .find(|noted| same_draw(noted.0, tx));
    match noted {
        Some(noted) => Some(noted.1),
        None => None,
    }
}

/// Returns the outcome that a group has noted of a transaction that it decided.
pub fn noted_outcome(core: &Core, tx: Draw) -> Option<&Outcome>
    ensures { option_copied result ≡ noted_outcome core.now tx }
{
    let noted = core
        .decided
        .as_slice()
        .iter()
        .find(|noted| same_draw(noted.0, tx));
    match noted {
        Some(noted) => Some(&noted.1),
        None => None,
    }
}

/// Returns the vote of a group that is gone: No. None where it is not gone.
fn gone_vote(gone: &Option<Route>) -> Option<Past>
    ensures { result ≡ gone_vote gone.now }
{
    match gone {
        None => None,
        Some(_) => Some(Past::No(No::Gone)),
    }
}

/// Returns whether the group's lock is of this transaction.
fn is_locked_in(lock: &Lock, tx: Draw) -> bool
    ensures { result ≡ is_locked_in (locked_in lock.now) tx }
{
    match lock {
        Lock::Free => false,
        Lock::Coordinating { tx: locked, .. }
        | Lock::Promised { tx: locked, .. }
        | Lock::Watching { tx: locked, .. } => same_draw(*locked, tx),
    }
}

/// Returns the vote that stands, by the noted vote, the lock, and whether the group is gone.
fn standing_by(noted: Option<Past>, locked: bool, gone: &Option<Route>) -> Option<Past>
    ensures { result ≡ standing_by noted locked gone.now }
{
    match noted {
        None => gone_vote(gone),
        Some(Past::No(why)) => Some(Past::No(why)),
        Some(Past::Ended) => Some(Past::Ended),
        Some(Past::Yes) => {
            if locked {
                Some(Past::Yes)
            } else {
                gone_vote(gone)
            }
        }
    }
}

/// Returns the vote that stands without a further entry: a No, a Yes under whose lock the group is,
/// or one whose transaction has ended; and No where the group is gone.
pub fn standing_vote(core: &Core, tx: Draw) -> Option<Past>
    ensures { result ≡ standing_vote core.now tx }
{
    standing_by(
        noted_vote(core, tx),
        is_locked_in(&core.lock, tx),
        &core.gone,
    )
}

/// Returns whether a coordinator asks its watcher: for a split at once, else once the participant
/// was heard.
fn asks_watcher(body: &Body, heard: &Option<Heard>) -> bool
    ensures { result ≡ asks_watcher body.now heard.now }
{
    match body {
        Body::Merge | Body::Repart { .. } | Body::Migrate { .. } => heard.is_some(),
        Body::Split { .. } => true,
    }
}

/// Returns whether a group waits for its participant's vote in this transaction.
pub fn awaits_vote(lock: &Lock, tx: Draw) -> bool
    ensures { result ≡ awaits_vote lock.now tx }
{
    match lock {
        Lock::Coordinating {
            tx: locked,
            body,
            heard,
            ..
        } => same_draw(*locked, tx) && !asks_watcher(body, heard),
        Lock::Free | Lock::Promised { .. } | Lock::Watching { .. } => false,
    }
}

/// Returns whether a group waits for its watcher's vote in this transaction.
pub fn awaits_watch(lock: &Lock, tx: Draw) -> bool
    ensures { result ≡ awaits_watch lock.now tx }
{
    match lock {
        Lock::Coordinating {
            tx: locked,
            body,
            heard,
            ..
        } => same_draw(*locked, tx) && asks_watcher(body, heard),
        Lock::Free | Lock::Promised { .. } | Lock::Watching { .. } => false,
    }
}

/// Returns whether a group is bound by a Yes of its own in this transaction.
pub fn is_bound(lock: &Lock, tx: Draw) -> bool
    ensures { result ≡ is_bound lock.now tx }
{
    match lock {
        Lock::Free | Lock::Coordinating { .. } => false,
        Lock::Promised { tx: locked, .. } | Lock::Watching { tx: locked, .. } => {
            same_draw(*locked, tx)
        }
    }
}
