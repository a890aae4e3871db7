//! Which histories are linearizable, and the laws by which they are searched: definitions and laws,
//! no logic.
#![tactic(auto)]

mod requests;

pub use requests::{Request, Step};
