//! What is said of a history: the text of an input is read, and the answer is printed.
#![tactic(auto)]

mod inputs;
mod keys;
mod printed;

pub use inputs::{InputError, error_text, history_in};
pub use keys::{key_count, request_count};
pub use printed::{fault_lines, linearizable_lines, step_line, undecided_lines};
