//! Histories of any key-value store: their events, and the parser of their texts.
#![tactic(auto)]

mod events;
mod kinds;
mod reading;
mod reasons;
mod turns;

pub use events::{Act, End, Event, Events};
pub use reading::{HISTORY_LIMIT, first_history_bytes_decide, read_history, texts_are_histories};
pub use reasons::{HistoryError, HistoryReason};
