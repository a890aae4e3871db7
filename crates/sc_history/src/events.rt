//! The events of a history: requests, and how they ended.
use sc_base::{Dup, Op, OutOfMemory, Sequence, Value};
use std::alloc::Global;

/// How a request ended, as the process that asked was told.
#[derive(Clone, PartialEq, Eq, Drop)]
pub enum End {
    /// It is done, and its key had no value before it (`none`).
    Absent,
    /// It is done, and its key had this value before it (`value V`).
    Value(Value),
    /// It is done, and what its key had before it is not told (`ok`).
    Done,
    /// A conditional write is done, and changed nothing: its key had a value other than the
    /// expected one, or none (`cas`), or it had a value (`add`). The value is not told (`no`).
    No,
    /// It certainly has no effect (`fail`).
    Fail,
    /// Nobody knows whether it has an effect, and its process asks nothing more (`lost`).
    Lost,
}

/// What a process does at an event.
#[derive(Clone, PartialEq, Eq, Drop)]
pub enum Act {
    /// It begins a request.
    Begin(Op),
    /// Its request ends.
    End(End),
}

/// One event of a history. `line` is the line of the text on which it stands, counted from 1.
#[derive(Clone, PartialEq, Eq, Drop)]
pub struct Event {
    pub line: u64,
    /// The process, from 1 to 4294967295.
    pub process: u32,
    pub act: Act,
}

/// Events, in the order of their lines.
pub type Events = Sequence<Event>;

impl Dup for Event {
    fn dup(&self, _alloc: Global) -> Result<Event, OutOfMemory> {
        Ok(self.clone()?)
    }
}
