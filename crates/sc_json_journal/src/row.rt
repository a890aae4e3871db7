//! The texts of a journal's rows: compact JSON with the names of each object in ascending order,
//! written and read.
mod mails;
mod rows;
mod texts;

pub use sc_json_read::RowError;
pub use texts::{read_row, row_text};
