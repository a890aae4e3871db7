//! Commands of transactions: which two are of one kind and one transaction.
ghost use Rattle.std.specs.Prelude.{◌≡◌};
ghost use Rattle.std.specs.List.{list_any};
ghost use Rattle.sc_node_table.specs.Acts.{is_prepared, is_vote_record, is_giving_up, is_finish, is_watched, is_watch_record, is_of_kind};

use sc_base::{Draw, same_draw};
use sc_words::Command;
use std::collections::VecDeque;

/// Returns whether a command is the vote on an offer in this transaction.
fn is_prepared(tx: Draw, command: &Command) -> bool
    ensures { result ≡ is_prepared tx command.now }
{
    match command {
        Command::Prepared { tx: other, .. } => same_draw(tx, *other),
        _ => false,
    }
}

/// Returns whether a command is the record of a participant's vote in this transaction.
fn is_vote_record(tx: Draw, command: &Command) -> bool
    ensures { result ≡ is_vote_record tx command.now }
{
    match command {
        Command::RecordVote { tx: other, .. } => same_draw(tx, *other),
        _ => false,
    }
}

/// Returns whether a command gives this transaction up.
fn is_giving_up(tx: Draw, command: &Command) -> bool
    ensures { result ≡ is_giving_up tx command.now }
{
    match command {
        Command::GiveUp { tx: other } => same_draw(tx, *other),
        _ => false,
    }
}

/// Returns whether a command is the outcome of this transaction.
fn is_finish(tx: Draw, command: &Command) -> bool
    ensures { result ≡ is_finish tx command.now }
{
    match command {
        Command::Finish { tx: other, .. } => same_draw(tx, *other),
        _ => false,
    }
}

/// Returns whether a command is the vote on becoming a watcher in this transaction.
fn is_watched(tx: Draw, command: &Command) -> bool
    ensures { result ≡ is_watched tx command.now }
{
    match command {
        Command::Watched { tx: other, .. } => same_draw(tx, *other),
        _ => false,
    }
}

/// Returns whether a command is the record of a watcher's vote in this transaction.
fn is_watch_record(tx: Draw, command: &Command) -> bool
    ensures { result ≡ is_watch_record tx command.now }
{
    match command {
        Command::RecordWatch { tx: other, .. } => same_draw(tx, *other),
        _ => false,
    }
}

/// Returns whether another command is of the same kind and the same transaction. Calls, orders and
/// a Noop are of none.
pub fn is_of_kind(act: &Command, other: &Command) -> bool
    ensures { result ≡ is_of_kind act.now other.now }
{
    match act {
        Command::Prepared { tx, .. } => is_prepared(*tx, other),
        Command::RecordVote { tx, .. } => is_vote_record(*tx, other),
        Command::GiveUp { tx } => is_giving_up(*tx, other),
        Command::Finish { tx, .. } => is_finish(*tx, other),
        Command::Watched { tx, .. } => is_watched(*tx, other),
        Command::RecordWatch { tx, .. } => is_watch_record(*tx, other),
        Command::Noop
        | Command::Call { .. }
        | Command::Join { .. }
        | Command::Leave { .. }
        | Command::Split { .. }
        | Command::Begin { .. } => false,
    }
}

/// Returns whether one of these commands is of this one's kind and transaction.
pub fn has_kind(act: &Command, commands: &VecDeque<Command>) -> bool
    ensures { result ≡ list_any (is_of_kind act.now) commands.now.items }
{
    for i in 0..commands.len() {
        if is_of_kind(act, &commands[i]) {
            return true;
        }
    }
    false
}
