//! The requests of a history, and the steps of a linearization.
use sc_base::{Op, Value};
use sc_history::End;

/// A request of a history.
#[derive(Clone, Drop)]
pub struct Request {
    /// The line on which it began.
    pub begun: u64,
    /// The process that asked.
    pub process: u32,
    pub op: Op,
    /// The line on which it ended, and how, if it did.
    pub ending: Option<(u64, End)>,
}

/// A request in a linearization, and the value that its key had before it.
#[derive(Clone, Drop)]
pub struct Step {
    pub request: Request,
    pub old: Option<Value>,
}
