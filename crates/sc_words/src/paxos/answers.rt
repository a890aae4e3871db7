//! The answers of acceptors, leaders and logs.
use crate::paxos::reports::Report;
use sc_base::{Ballot, Sequence};

/// An acceptor's answer to a prepare: Paxos Made Simple, section 2.2, phase 1b.
#[derive(Drop)]
pub enum PrepareAnswer<V> {
    /// The acceptor promises to accept in no lower ballot, and reports what it accepted last at
    /// each slot that was asked for, ascending by slot.
    Promise { reports: Sequence<Report<V>> },
    /// The ballot is not above the acceptor's promise, which is `promised`.
    Ignored { promised: Ballot },
}

/// An acceptor's answer to an accept: Paxos Made Simple, section 2.2, phase 2b.
#[derive(Clone, Copy, Debug, PartialEq, Eq)]
pub enum AcceptAnswer {
    /// The acceptor has accepted the value.
    Accepted,
    /// The ballot is below the acceptor's promise, which is `promised`.
    Ignored { promised: Ballot },
}

/// The value that a leader has to propose at a slot: Paxos Made Simple, section 2.2, phase 2a, and
/// section 3.
#[derive(Debug, PartialEq, Eq, Drop)]
pub enum Must<V> {
    /// This value, which was reported.
    Value(V),
    /// A command that changes nothing: no report names the slot, and one names a greater slot.
    Gap,
    /// Any value.
    Free,
}

/// A leader's answer to an accepted proposal.
#[derive(Debug, PartialEq, Eq, Drop)]
pub enum Counted<V> {
    /// The value is chosen.
    Chosen(V),
    /// The value is not chosen yet: `count` voters are kept, and they are no majority.
    NotYet { count: u8 },
}

/// A log's answer to a chosen value.
#[derive(Clone, Copy, Debug, PartialEq, Eq)]
pub enum Learnt {
    /// The value is now the next entry.
    Learnt,
    /// The slot has an entry already.
    Known,
    /// Entries are missing before this slot, the first of them at slot `next`.
    Ahead { next: u32 },
}
