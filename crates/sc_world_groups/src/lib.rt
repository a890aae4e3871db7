//! What the entries of all logs make of all groups: their states, the transactions, the ring and
//! the history, one entry after another; and what one entry makes of the transactions alone, and of
//! the ring alone.
#![tactic(auto)]

mod effects;
mod errors;
mod groups;
mod rings;
mod spans;
mod transactions;
mod worlds;

pub use errors::EntryError;
pub use rings::{first_cuts, ring_after};
pub use transactions::{add_entry, decision};
pub use worlds::{StoreWorld, world_of};
