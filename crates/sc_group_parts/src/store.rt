//! What a group stores: its pairs, one ordered map from keys to values, and the table of its
//! clients' last requests; and how it takes over both from another group.
mod contents;
mod store;
mod table;

pub use contents::take_over;
pub use sc_words::Seen;
pub use store::Store;
pub use table::ClientTable;
