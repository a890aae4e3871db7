//! Lines of a text: how a text is cut into lines and words, the kinds of lines, the requests that
//! they spell, and the reasons why a line is bad.
mod kinds;
mod lines;
mod pieces;
mod reasons;
mod requests;
mod words;

pub use kinds::{Kind, LineKind, OrderKind, RequestKind, has_count, is_inner, kind_of, phase_of};
pub use lines::{has_bad_byte, is_skipped, next_line, trimmed};
pub use pieces::{dotted_parts, words_of};
pub use reasons::{LineError, Reason};
pub use requests::request_in;
pub use words::{count_in, is_text, nth, rest};
