//! The plain check of rows: what they leave of the actors of a schedule, or the first of them that
//! is not lawful; and plain functions that read a journal from its start.
#![tactic(auto)]

mod actions;
mod appending;
mod checked;
mod checking;
mod judging;
mod looking;
mod making;
mod pending;
mod stages;

pub use judging::{Replayed, Verdict, is_lawful, replay};
pub use looking::pending_of;
