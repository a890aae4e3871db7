//! The facts that rows of a journal decide, each as a line of JSON: births, entries of logs,
//! entries of the history, records of groups, groups of the ring, and the ring.
mod effects;
mod facts;
mod lines;
mod parts;
mod sames;
mod writing;

pub use facts::{GroupRecord, Hold, RingGroup, hold_of, record_of};
pub use lines::{birth_line, entry_line, history_line, record_line, ring_group_line, ring_line};
pub use sames::{same_record, same_ring, same_ring_group};
