//! Work that several threads take from one queue.
mod hands;
mod rule;

pub use hands::{Holder, WorkedOff, work_off};
pub use rule::{Hand, Item};
