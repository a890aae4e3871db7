//! The state machine of a group, to which commands are applied one after another.
#![tactic(auto)]

mod bases;
mod children;
mod commits;
mod coordinator;
mod machine;
mod orders;
mod parties;

pub use bases::GroupBirth;
pub use machine::Machine;
