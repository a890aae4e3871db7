//! The numbers of a seeded generator (`chance`), sources and sinks of bytes (`edges`), and lines
//! and words of a text (`lines`).
#![tactic(auto)]

pub mod chance;
pub mod edges;
pub mod lines;

pub use chance::Chance;
pub use edges::{
    Failed, MemSink, MemSource, ReadError, Sink, Source, StdSink, StdSource, read_all,
};
pub use lines::{
    Kind, LineError, LineKind, OrderKind, Reason, RequestKind, count_in, dotted_parts,
    has_bad_byte, has_count, is_inner, is_skipped, is_text, kind_of, next_line, nth, phase_of,
    request_in, rest, trimmed, words_of,
};
