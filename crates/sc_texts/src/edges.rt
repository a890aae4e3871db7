//! Sources and sinks of bytes, which count their I/O errors. The count never falls.
mod memory;
mod outside;
mod pieces;
mod reading;
mod traits;

pub use memory::{MemSink, MemSource};
pub use outside::{StdSink, StdSource};
pub use reading::{ReadError, read_all};
pub use traits::{Failed, Sink, Source};
