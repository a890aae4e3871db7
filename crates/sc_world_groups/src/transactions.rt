//! What the entries of coordinators say of their transactions.
ghost use Rattle.std.specs.Prelude.{◌≡◌, ◌++◌, ◌∷◌, [], List, map, if◌then◌else◌, Some, None, IfOk, IsOk, OnOk};
ghost use Rattle.std.specs.Option.{option_copied};
ghost use Rattle.sc_words.specs.commands.Effects.{is_changed, decided_in};
ghost use Rattle.sc_meaning.specs.declared.entries.Transaction.{Transaction};
ghost use Rattle.sc_meaning.specs.entries.Decisions.{is_of, with_watcher, with_outcome, named_watcher, amended, concluded, begun_transaction, begun_split, transactions_after, transaction_in, decision};

use sc_base::{Draw, Dup, OutOfMemory, same_draw};
use sc_meaning::Transaction;
use sc_words::{Body, Command, Core, Effect, Outcome, Vote};
use std::alloc::Global;

fn is_of(tx: Draw, coordinator: Draw, transaction: &Transaction) -> bool
    ensures { result ≡ is_of tx coordinator transaction.now }
{
    same_draw(transaction.tx, tx) && same_draw(transaction.coordinator, coordinator)
}

fn begun_transaction(core: &Core, tx: Draw, body: Body) -> Transaction
    ensures { result ≡ begun_transaction core.now tx body }
{
    Transaction {
        tx,
        coordinator: core.id,
        body,
        participant: Some(core.succ.group),
        watcher: None,
        outcome: None,
    }
}

fn begun_split(core: &Core, at: u32, child: Draw) -> Transaction
    ensures { result ≡ begun_split core.now at child }
{
    Transaction {
        tx: child,
        coordinator: core.id,
        body: Body::Split { at, child },
        participant: None,
        watcher: Some(core.succ.group),
        outcome: None,
    }
}

// Returns the watcher that a participant names in its vote, if the vote is Yes.
fn named_watcher(vote: &Vote) -> Option<Draw>
    ensures { result ≡ named_watcher vote.now }
{
    match vote {
        Vote::Yes(frozen) => Some(frozen.get().succ.group),
        Vote::No(_) => None,
    }
}

fn watch(tx: Draw, coordinator: Draw, watcher: Option<Draw>, transaction: &mut Transaction)
    ensures { transaction.new ≡ (if is_of tx coordinator transaction.old
        then with_watcher watcher transaction.old else transaction.old) }
{
    if is_of(tx, coordinator, transaction) {
        transaction.watcher = watcher;
    }
}

// Sets the watcher of a transaction of a coordinator.
fn watch_all(transactions: &mut [Transaction], tx: Draw, coordinator: Draw, watcher: Option<Draw>)
    ensures { transactions.new ≡ amended tx coordinator (with_watcher watcher) transactions.old }
{
    for transaction in transactions.iter_mut() {
        watch(tx, coordinator, watcher, transaction);
    }
}

fn decide(
    alloc: Global,
    tx: Draw,
    coordinator: Draw,
    outcome: &Outcome,
    transaction: &mut Transaction,
) -> Result<(), OutOfMemory>
    ensures { OnOk result (transaction.new ≡ (if is_of tx coordinator transaction.old
        then with_outcome (Some outcome.now) transaction.old else transaction.old)) }
{
    if is_of(tx, coordinator, transaction) {
        transaction.outcome = Some(outcome.dup(alloc)?);
    }
    Ok(())
}

fn decide_all(
    alloc: Global,
    transactions: &mut [Transaction],
    tx: Draw,
    coordinator: Draw,
    outcome: &Outcome,
) -> Result<(), OutOfMemory>
    ensures { OnOk result (transactions.new ≡
        amended tx coordinator (with_outcome (Some outcome.now)) transactions.old) }
{
    for transaction in transactions.iter_mut() {
        decide(alloc, tx, coordinator, outcome, transaction)?;
    }
    Ok(())
}

// Sets the outcome of a transaction, if the effect of the entry decides one.
fn conclude(
    alloc: Global,
    transactions: &mut [Transaction],
    core: &Core,
    tx: Draw,
    effect: &Effect,
) -> Result<(), OutOfMemory>
    ensures outcome { OnOk result (transactions.new ≡
        concluded (decided_in effect.now) tx core.now.id transactions.old) }
    ensures none { decided_in effect.now ≡ None → IsOk result }
{
    match effect.outcome() {
        Some(outcome) => decide_all(alloc, transactions, tx, core.id, outcome),
        None => Ok(()),
    }
}

// Takes a participant's vote: its watcher becomes known, or the transaction is decided.
fn hear(
    alloc: Global,
    transactions: &mut [Transaction],
    core: &Core,
    tx: Draw,
    vote: &Vote,
    effect: &Effect,
) -> Result<(), OutOfMemory>
    ensures heard { OnOk result (transactions.new ≡ (if is_changed effect.now
        then amended tx core.now.id (with_watcher (named_watcher vote.now)) transactions.old
        else concluded (decided_in effect.now) tx core.now.id transactions.old)) }
    ensures none { decided_in effect.now ≡ None → IsOk result }
{
    if effect.is_changed() {
        watch_all(transactions, tx, core.id, named_watcher(vote));
        return Ok(());
    }
    conclude(alloc, transactions, core, tx, effect)
}

/// Brings the transactions up to an entry of the log of a group with this record before the entry.
/// Fails only where the entry begins a transaction or decides one.
pub fn add_entry(
    alloc: Global,
    transactions: &mut Vec<Transaction>,
    core: &Core,
    command: &Command,
    effect: &Effect,
) -> Result<(), OutOfMemory>
    ensures after { OnOk result (transactions.new.items ≡
        transactions_after core.now command.now effect.now transactions.old.items) }
    ensures none { ((list : List Transaction) →
        transactions_after core.now command.now effect.now list ≡ list) → IsOk result }
{
    match command {
        Command::Begin { tx, body, .. } => {
            if effect.is_changed() {
                transactions.push(begun_transaction(core, *tx, *body))?;
            }
            Ok(())
        }
        Command::Split { at, child, .. } => {
            if effect.is_changed() && !core.is_alone() {
                transactions.push(begun_split(core, *at, *child))?;
            }
            Ok(())
        }
        Command::RecordVote { tx, vote, .. } => {
            hear(alloc, transactions, core, *tx, vote, effect)
        }
        Command::RecordWatch { tx, .. } | Command::GiveUp { tx } => {
            conclude(alloc, transactions, core, *tx, effect)
        }
        _ => Ok(()),
    }
}

fn transaction_in(transactions: &[Transaction], tx: Draw) -> Option<&Transaction>
    ensures { option_copied result ≡ transaction_in tx transactions.now }
{
    transactions
        .iter()
        .find(|transaction| same_draw(transaction.tx, tx))
}

/// Returns what was decided of a transaction, if it was begun and is decided. Fails only where it
/// is decided.
pub fn decision(
    alloc: Global,
    transactions: &[Transaction],
    tx: Draw,
) -> Result<Option<Outcome>, OutOfMemory>
    ensures outcome { IfOk result (λ outcome. outcome ≡ decision tx transactions.now) }
    ensures none { decision tx transactions.now ≡ None → IsOk result }
{
    match transaction_in(transactions, tx) {
        Some(transaction) => transaction.outcome.dup(alloc),
        None => Ok(None),
    }
}
