//! Plain data has one text, which is read back (`plain`), and a row as JSON, defined (`rows`).
#![tactic(auto)]

pub mod plain;
pub mod rows;

pub use plain::plain_values_read_back;
pub use rows::{row_texts_are_lines, row_texts_read_back};
