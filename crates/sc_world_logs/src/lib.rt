//! What rows show of one group: what was accepted for it, which commands that chooses, and its
//! decided log, which one more acceptance may lengthen. It is read off the mail that the rows
//! deliver and send, never off what an actor holds.
#![tactic(auto)]

mod accepting;
mod choosing;
mod indexing;
mod known;

pub use accepting::{Acceptance, accepted_in, add_mails};
pub use indexing::BySlot;
pub use known::{Known, Taking, known_of, take_in, unheard_of};
