//! A turn: any number of threads append rows to one shared value, one thread at a time.
//!
//! The value is in the one slot of an atomic table, and moves from seat to seat. Word 0 of the
//! table says whether a seat has the turn. Word 1 counts the rows of the list that the value stands
//! for.
mod listed;
mod plays;
mod rule;
mod seat;
mod steps;

pub use listed::Listed;
pub use rule::{Turning, View};
pub use seat::TurnSeat;
