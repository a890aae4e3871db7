//! Checks of a ring and of a history: whether the ring covers, and whether the history is legal.
#![tactic(auto)]

mod covering;
mod legality;

pub use covering::covers;
pub use legality::legal;
