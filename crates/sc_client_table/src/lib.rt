//! The groups that a client knows (`lookup`), and the table of a client (`table`).
#![tactic(auto)]

pub mod lookup;
pub mod table;

pub use lookup::{Routes, Way, choices_are_nearest};
pub use table::clients_send_in_turn;
