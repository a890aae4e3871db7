//! The report of a run: the result of each request and order, the groups at the end, and the
//! journal's counts.
mod printed;
mod summaries;
mod texts;

pub use printed::{ReportLine, lines};
pub use summaries::{Asked, Progress, Summary};
