//! What machines do together that each run for themselves: `reading`, the schedule and the requests
//! that are read off rows; `deeds`, what nodes and clients do whose mail somebody carries, and that
//! it is lawful and sound, whatever the network does. Definitions and laws; no code that runs.
#![tactic(auto)]

pub mod deeds;
pub mod reading;

pub use deeds::{carried_deeds_are_sound, printed_replies_keep_real_time};
pub use reading::rows_are_read_one_by_one;
