//! The text of a row and the row of a text (`row`), and files: scenario, divider, rows (`file`).
#![tactic(auto)]

pub mod file;
pub mod row;

pub use file::{
    FILE_LIMIT, StoredText, cut, file_lines, files_have_one_verdict, first_file_bytes_decide,
    printed_files_are_files, read_file, scenarios_are_short,
};
pub use row::{RowError, read_row, row_text};
