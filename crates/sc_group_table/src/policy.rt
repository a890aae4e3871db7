//! When a group is to be reshaped: one with too many members is split, one with too few is merged
//! with its successor, and of one with too many pairs a boundary is moved (Scatter, SOSP 2011,
//! policies). This crate says only what is wished; whether the order is accepted is for the
//! caller.
mod bodies;
mod laws;
mod orders;
mod wishes;

pub use bodies::Body0;
pub use laws::keys_rise_from_the_start;
pub use orders::is_reported;
pub use wishes::{wish, wished_order};
