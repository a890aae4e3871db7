//! Stored journals as bytes, and their parser.
//!
//! A file has a scenario and the rows of a journal: the scenario's bytes, where a last line without
//! a line feed gets one; a line `journal`; and a line for each row, its text. Each line ends with a
//! line feed. The scenario ends at the first line that is exactly `journal`, which is no line of
//! any scenario.
//!
//! A parser takes the scenario's part without its last line feed where the line before it is not
//! empty. Lines are counted from 1 over the whole file.
mod cuts;
mod laws;
mod lines;
mod reading;

pub use cuts::{StoredText, cut};
pub use laws::{
    files_have_one_verdict, first_file_bytes_decide, printed_files_are_files, scenarios_are_short,
};
pub use lines::file_lines;
pub use reading::{FILE_LIMIT, read_file};
