//! Reports of what was accepted.
ghost use Rattle.std.specs.Prelude.{◌≡◌, IfOk};

use sc_base::{Ballot, Dup, OutOfMemory, Same};
use std::alloc::Global;

/// What an acceptor reports of a slot: the last value that it accepted there, and the ballot of it
/// (Paxos Made Simple, section 2.2, phase 1b).
#[derive(Debug, PartialEq, Eq, Drop)]
pub struct Report<V> {
    /// The slot of the log, counted from 1.
    pub slot: u32,
    /// The ballot in which the value was accepted.
    pub ballot: Ballot,
    /// The value that was accepted.
    pub value: V,
}

impl<V: Dup> Dup for Report<V> {
    fn dup(&self, alloc: Global) -> Result<Report<V>, OutOfMemory> {
        Ok(Report {
            slot: self.slot,
            ballot: self.ballot,
            value: self.value.dup(alloc)?,
        })
    }
}

impl<V: Same> Same for Report<V> {
    fn is_same(&self, other: &Report<V>) -> bool {
        self.slot == other.slot
            && self.ballot.is_same(&other.ballot)
            && self.value.is_same(&other.value)
    }
}
