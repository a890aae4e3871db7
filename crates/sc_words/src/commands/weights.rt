//! The weights of commands and records in counted bytes, as 64-bit numbers: a greater weight is
//! returned as 2^64 - 1.
ghost use Rattle.std.specs.Prelude.{◌≡◌, ◌+◌, ◌≤◌, length, Some};
ghost use Rattle.std.specs.List.{sum_by};
ghost use Rattle.sc_base.specs.Limits.{longest_key, longest_value};
ghost use Rattle.sc_words.specs.commands.Weight.{capped, op_weight, value_weight, reply_weight, pair_weight, pairs_weight, seen_weight, clients_weight, frozen_weight, vote_weight, gift_weight, outcome_weight, command_weight, heard_weight, lock_weight, decision_weight, base_weight};

use crate::commands::commands::Command;
use crate::commands::cores::{Base, Lock};
use crate::commands::votes::{DecidedList, Frozen, Gift, Heard, Outcome, Vote};
use sc_base::{Boxed, Key, Noted, Op, Pairs, Reply, SeenList, Value};

fn key_weight(key: &Key) -> u64
    ensures same { result ≡ length key.now }
    ensures short { result ≤ longest_key }
{
    key.bytes().len() as u64
}

fn text_weight(value: &Value) -> u64
    ensures same { result ≡ length value.now }
    ensures short { result ≤ longest_value }
{
    value.bytes().len() as u64
}

/// Returns the weight of an operation: the lengths of its key and of each of its values.
pub fn op_weight(op: &Op) -> u64
    ensures { result ≡ op_weight op.now }
{
    match op {
        Op::Get { key } | Op::Del { key } => key_weight(key),
        Op::Put { key, value } | Op::Add { key, value } => key_weight(key) + text_weight(value),
        Op::Cas { key, expect, value } => {
            key_weight(key) + text_weight(expect) + text_weight(value)
        }
    }
}

/// Returns the weight of a reply: the length of the value that was there before.
pub fn reply_weight(reply: &Reply) -> u64
    ensures same { result ≡ reply_weight reply.now }
    ensures short { result ≤ longest_value }
{
    match &reply.old {
        Some(value) => text_weight(value),
        None => 0,
    }
}

fn pair_weight(pair: &(Key, Value)) -> u64
    ensures { result ≡ pair_weight pair.now }
{
    32 + key_weight(&pair.0) + text_weight(&pair.1)
}

fn pairs_weight(pairs: &Pairs) -> u64
    ensures { result ≡ capped (pairs_weight pairs.now) }
{
    let mut total = 0u64;
    for pair in pairs.as_slice() {
        total = total.saturating_add(pair_weight(pair));
    }
    total
}

fn seen_weight(seen: &(u16, Noted)) -> u64
    ensures { result ≡ seen_weight seen.now }
{
    32 + reply_weight(&seen.1.reply)
}

fn clients_weight(clients: &SeenList) -> u64
    ensures { result ≡ capped (clients_weight clients.now) }
{
    let mut total = 0u64;
    for seen in clients.as_slice() {
        total = total.saturating_add(seen_weight(seen));
    }
    total
}

fn frozen_weight(frozen: &Frozen) -> u64
    ensures { result ≡ capped (frozen_weight frozen.now) }
{
    pairs_weight(&frozen.pairs).saturating_add(clients_weight(&frozen.clients))
}

/// Returns the weight of a vote: that of the frozen record for a Yes, and 0 for a No.
pub fn vote_weight(vote: &Vote) -> u64
    ensures { result ≡ capped (vote_weight vote.now) }
{
    match vote {
        Vote::Yes(frozen) => frozen_weight(frozen.get()),
        Vote::No(_) => 0,
    }
}

fn given_weight(gift: &Gift) -> u64
    ensures { result ≡ capped (gift_weight (Some gift.now)) }
{
    pairs_weight(&gift.pairs).saturating_add(clients_weight(&gift.clients))
}

fn gift_weight(gift: &Option<Boxed<Gift>>) -> u64
    ensures { result ≡ capped (gift_weight gift.now) }
{
    match gift {
        Some(gift) => given_weight(gift.get()),
        None => 0,
    }
}

/// Returns the weight of an outcome: that of its gift for a moved boundary, and 0 for the others.
pub fn outcome_weight(outcome: &Outcome) -> u64
    ensures { result ≡ capped (outcome_weight outcome.now) }
{
    match outcome {
        Outcome::Moved { gift, .. } => gift_weight(gift),
        Outcome::Abort | Outcome::Merged { .. } | Outcome::Migrated { .. } | Outcome::Divided => 0,
    }
}

/// Returns the weight of a command: that of the operation, vote or outcome in it.
pub fn command_weight(command: &Command) -> u64
    ensures { result ≡ capped (command_weight command.now) }
{
    match command {
        Command::Call { op, .. } => op_weight(op),
        Command::RecordVote { vote, .. } => vote_weight(vote),
        Command::Finish { outcome, .. } => outcome_weight(outcome),
        Command::Noop
        | Command::Join { .. }
        | Command::Leave { .. }
        | Command::Split { .. }
        | Command::Begin { .. }
        | Command::Prepared { .. }
        | Command::GiveUp { .. }
        | Command::Watched { .. }
        | Command::RecordWatch { .. } => 0,
    }
}

fn heard_weight(heard: &Option<Heard>) -> u64
    ensures { result ≡ capped (heard_weight heard.now) }
{
    match heard {
        Some(heard) => frozen_weight(&heard.frozen),
        None => 0,
    }
}

fn lock_weight(lock: &Lock) -> u64
    ensures { result ≡ capped (lock_weight lock.now) }
{
    match lock {
        Lock::Coordinating { heard, .. } => heard_weight(heard),
        Lock::Free | Lock::Promised { .. } | Lock::Watching { .. } => 0,
    }
}

fn decided_weight(decided: &DecidedList) -> u64
    ensures { result ≡ capped (sum_by decision_weight decided.now) }
{
    let mut total = 0u64;
    for decision in decided.as_slice() {
        total = total.saturating_add(outcome_weight(&decision.1));
    }
    total
}

/// Returns the weight of a whole group.
pub fn base_weight(base: &Base) -> u64
    ensures { result ≡ capped (base_weight base.now) }
{
    pairs_weight(&base.pairs)
        .saturating_add(clients_weight(&base.clients))
        .saturating_add(decided_weight(&base.core.decided))
        .saturating_add(lock_weight(&base.core.lock))
}
