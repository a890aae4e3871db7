//! What lines of a schedule are worked by: rounds of phases over one queue (`pool`), and the steps
//! of a storm (`storm`).
#![tactic(auto)]

pub mod pool;
pub mod storm;

pub use pool::{pool_rounds, shells_have_one_holder};
pub use storm::{Deed, Storm, deed_at, deeds_are_rows_of_the_walk};
