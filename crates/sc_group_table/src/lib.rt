//! The transition table of a group's state machine (`machine`), and when a group is to be reshaped
//! (`policy`).
#![tactic(auto)]

pub mod machine;
pub mod policy;

pub use machine::Effect;
pub use policy::{Body0, is_reported, keys_rise_from_the_start, wish, wished_order};
