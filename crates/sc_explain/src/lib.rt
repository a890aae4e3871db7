//! What each row of a journal decided (`rows`), each fact as a line of JSON (`facts`), and what
//! such lines are written of (`texts`).
#![tactic(auto)]

pub mod facts;
pub mod rows;
mod texts;

pub use facts::{
    GroupRecord, Hold, RingGroup, birth_line, entry_line, history_line, hold_of, record_line,
    record_of, ring_group_line, ring_line, same_record, same_ring, same_ring_group,
};
pub use rows::explain;
