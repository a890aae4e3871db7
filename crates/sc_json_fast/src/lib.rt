//! Rows of common shapes, read from their texts with no JSON between.
//!
//! Most rows of a journal deliver a mail, tick or start an actor, and send requests, answers and
//! the mail of Paxos. Their texts are read here from left to right, piece by piece, and what is
//! read is the row. Any other row is left to a parser of JSON, and so is a text that is no row's:
//! here `None` says nothing.
#![tactic(auto)]

mod bodies;
mod commands;
mod from_text;
mod lists;
mod mails;
mod names;
mod numbers;
mod ops;
mod parts;
mod reports;
mod rows;
mod texts;
mod words;

pub use rows::common_row;
