//! Actors and their mail, the journal of what they do, and which journals a schedule allows.
#![tactic(auto)]

mod actors;
mod conditions;
mod gates;
mod laws;
mod rows;
mod schedules;

pub use actors::{Actor, Parcel, Seat};
pub use conditions::{are_apart, are_few};
pub use gates::Gate;
pub use laws::{journals_are_counted, journals_grow, lawful_journals_grow, next_rows_are_steps};
pub use rows::{Event, Input, Journal, Row};
pub use schedules::{Line, Played};
