//! An example for those who use the step machines in a program of their own: two nodes and a
//! client, stepped by hand under a transport that is a list, with a row for each step, and an audit
//! of the rows. `docs/LIBRARY.md` explains it.
#![tactic(auto)]

mod hand;
mod steps;

pub use hand::{Hand, SCENARIO};
pub use steps::{Log, act, deliver, start};
