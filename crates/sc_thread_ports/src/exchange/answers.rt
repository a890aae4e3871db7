//! The answers of a port.
use sc_actor::Event;
use sc_base::Sequence;
use sc_thread_ledger::PostError;

/// The answer of a fetch.
#[derive(Drop)]
pub enum Fetched<M> {
    /// The k-th pending mail, which stays pending, with its number.
    Mail { number: u32, mail: M },
    /// Fewer mails were pending at this turn, when the journal had `seen` rows.
    Empty { seen: u32 },
}

/// A row that was not posted, as its cause, its event and its mails, which are handed back.
#[derive(Drop)]
pub struct Unposted<M, O> {
    /// The cause for which it was not posted.
    pub why: PostError,
    /// The event of the row.
    pub event: Event<O>,
    /// The mails that the row sends.
    pub sent: Sequence<M>,
}
