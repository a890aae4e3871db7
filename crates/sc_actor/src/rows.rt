//! The inputs of an actor, and the rows of a journal.
use sc_base::{Same, Sequence};

/// An input of an actor.
#[derive(Drop)]
pub enum Input<M, O> {
    /// A mail that was sent to the actor.
    Got(M),
    /// A tick of the actor's clock: it may send again what was not answered.
    Tick,
    /// The start of a client, which then sends its first request.
    Go,
    /// An order from the outside.
    Told(O),
}

/// An event of the system. A mail is named by its number: its place, from 1, in all mail that was
/// sent.
#[derive(Drop)]
pub enum Event<O> {
    /// An actor gets the mail with this number.
    Deliver(u32),
    /// An actor's clock ticks.
    Tick,
    /// A client starts.
    Go,
    /// A node gets an order.
    Told(O),
    /// A node stops for good.
    Crash,
    /// The network loses a copy of the mail with this number.
    Drop(u32),
    /// The network repeats the mail with this number: one more copy is under way.
    Again(u32),
}

/// A row of the journal: who acted, on which event, and what was sent.
///
/// `who` is the number of an actor, or 0 for the network, whose rows are `Drop` and `Again` with
/// nothing sent.
#[derive(Drop)]
pub struct Row<M, O> {
    pub who: u32,
    pub event: Event<O>,
    pub sent: Sequence<M>,
}

/// A journal: all rows, in the order of their events.
pub type Journal<M, O> = Sequence<Row<M, O>>;

impl<O: Same> Same for Event<O> {
    fn is_same(&self, other: &Event<O>) -> bool {
        match (self, other) {
            (Event::Deliver(mail), Event::Deliver(second)) => mail == second,
            (Event::Tick, Event::Tick) => true,
            (Event::Go, Event::Go) => true,
            (Event::Told(order), Event::Told(second)) => order.is_same(second),
            (Event::Crash, Event::Crash) => true,
            (Event::Drop(mail), Event::Drop(second)) => mail == second,
            (Event::Again(mail), Event::Again(second)) => mail == second,
            _ => false,
        }
    }
}

impl<M: Same, O: Same> Same for Row<M, O> {
    fn is_same(&self, other: &Row<M, O>) -> bool {
        self.who == other.who && self.event.is_same(&other.event) && self.sent.is_same(&other.sent)
    }
}
