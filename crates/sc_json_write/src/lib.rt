//! Values, commands, mails and rows, written as JSON.
#![tactic(auto)]

mod answers;
mod bodies;
mod commands;
mod cores;
mod links;
mod lists;
mod mails;
mod names;
mod numbers;
mod ops;
mod orders;
mod outcomes;
mod rows;
mod sets;
mod texts;
mod to_json;
mod votes;
mod writing;

pub use to_json::ToJson;
