//! What the rows of a journal decide, for any number of groups: which groups there are, the log of
//! each, and the entries of all logs. It is read from the mail that the rows deliver and send,
//! never from what an actor holds.
mod births;
mod deciding;
mod entries;

pub use deciding::{DecidingRow, deciding_rows};
pub use entries::{entries_of, log_at};
