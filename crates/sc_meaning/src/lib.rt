//! What a journal means: what the entries of all logs make of groups, ring and history (`entries`),
//! and the players, logs and histories of a journal, with what sound means (`sound`).
#![tactic(auto)]

pub mod entries;
pub mod sound;

pub use entries::{Cut, Division, LogEntry, Transaction, births_are_children};
pub use sound::{a_journal_and_its_history, got_by};
