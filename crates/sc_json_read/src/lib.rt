//! Values, commands, answers and events, read from their JSON.
#![tactic(auto)]

mod answers;
mod bodies;
mod commands;
mod cores;
mod errors;
mod events;
mod from_json;
mod items;
mod links;
mod lists;
mod names;
mod next_members;
mod numbers;
mod objects;
mod ops;
mod orders;
mod outcomes;
mod sets;
mod tagged;
mod texts;
mod votes;

pub use errors::RowError;
pub use from_json::FromJson;
pub use objects::{four_of, pair_of, triple_of};
pub use tagged::variant_parts;
