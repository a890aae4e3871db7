//! Rounds, in which many actors work at the same time.
#![tactic(auto)]

mod answers;
mod lending;
mod meetings;
mod phases;
mod playing;
mod turns;

pub use answers::{Rounds, Way};
pub use meetings::{gather, meet_one, vouch};
pub use playing::{rounds, rounds_by};
