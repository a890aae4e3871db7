//! The content of a report.
use sc_base::{Op, Reply, Sequence};
use sc_words::{OrderResult, Route};

/// How far a request came.
#[derive(Drop)]
pub enum Progress {
    /// The client has not sent the request.
    Unsent,
    /// The request was sent, and the client has no reply.
    Unanswered,
    /// The client has this reply.
    Replied(Reply),
}

/// A client's request, with its number, counted from 1.
#[derive(Drop)]
pub struct Asked {
    pub client: u16,
    pub seq: u32,
    pub op: Op,
    pub got: Progress,
}

/// The content of the report of a run.
#[derive(Drop)]
pub struct Summary {
    /// The scenario's version.
    pub version: u8,
    /// Whether the report only counts the answered requests.
    pub brief: bool,
    /// The requests, by client and number.
    pub asked: Sequence<Asked>,
    /// For each order, the first result that was reported of it, if one was.
    pub orders: Sequence<Option<OrderResult>>,
    /// The groups that serve the ring, by ascending position.
    pub ring: Sequence<Route>,
    /// The number of rows of the journal.
    pub rows: u32,
    /// The number of mails that were sent.
    pub mail: u32,
    /// The number of deliveries.
    pub delivered: u32,
    /// The number of skipped lines of the schedule.
    pub skipped: u64,
    /// Whether no mail is pending.
    pub quiet: bool,
}
