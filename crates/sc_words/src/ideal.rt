//! The specification of the store, of its histories and of its client tables: definitions and
//! laws, no logic.
ghost use Rattle.sc_words.specs.ideal.History.{Legal, example_entries};
ghost use Rattle.sc_words.specs.ideal.StoreLaws.{ServesApart, MapPartsJoin, JoinedByNumber, JoinedInAnyOrder};

use sc_base::{Dup, Op, OutOfMemory, Reply};
use std::alloc::Global;

/// An entry of a history: a client's request, and the reply to it.
#[derive(Clone, PartialEq, Eq, Drop)]
pub struct Entry {
    pub client: u16,
    /// The client's number of the request, counted from 1.
    pub seq: u32,
    pub op: Op,
    pub reply: Reply,
}

impl Dup for Entry {
    fn dup(&self, _alloc: Global) -> Result<Entry, OutOfMemory> {
        Ok(self.clone()?)
    }
}

/// How the number of a request compares with the last one in the client table.
#[derive(Clone, Copy, Debug, PartialEq, Eq)]
pub enum Seen {
    /// The table has no request of the client, or one with a lower number.
    New,
    /// The table has the request with this number.
    Again,
    /// The table has a request with a greater number, `last`.
    Stale { last: u32 },
}

/// States that a part of the map changes only by operations on its own keys, and that the parts on
/// two arcs that meet join to the part on the joined arc.
pub fn parts_are_apart()
    ensures apart { ServesApart }
    ensures join { MapPartsJoin }
{}

/// States that a history with replies of each kind is legal.
pub fn an_example_is_legal()
    ensures { Legal example_entries }
{}

/// States that joined client tables keep for each client the request with the greater number, and
/// that the order of joining does not matter.
pub fn tables_join_by_number()
    ensures by_number { JoinedByNumber }
    ensures any_order { JoinedInAnyOrder }
{}
