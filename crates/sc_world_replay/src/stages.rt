//! What a check keeps while it goes through the rows.
use sc_actor::{Event, Journal, Seat};

/// A pending copy of a mail: the mail's number, and its receiver.
#[derive(Clone, Copy, Debug, PartialEq, Eq)]
pub(crate) struct OpenCopy {
    pub number: u32,
    pub to: u32,
}

/// What a check keeps of the rows that it has taken: the actors as they are then, the rows, their
/// mail, and what the walk has counted. The pending copies are kept in ascending order of their
/// mail, and the actors that have started or crashed in the order of their rows, so that no row
/// needs a look at all rows before it.
#[derive(Drop)]
pub(crate) struct Stage<A, M, O> {
    pub seats: Vec<Seat<A>>,
    pub rows: Journal<M, O>,
    pub mails: Vec<M>,
    pub pending: Vec<OpenCopy>,
    pub started: Vec<u32>,
    pub crashed: Vec<u32>,
    pub skipped: u64,
    pub unsettled: bool,
}

/// The actor and the event of the next row. For an event of the network the actor's number is not
/// used.
#[derive(Drop)]
pub(crate) struct Action<O> {
    pub who: u32,
    pub event: Event<O>,
}
