//! The leader.
ghost use Rattle.std.specs.Prelude.{◌≡◌, IfOk, IsOk, OnOk, OnErr, None, false};
ghost use Rattle.std.specs.Option.{option_copied, option_map};
ghost use Rattle.sc_base.specs.Roster.{is_member};
ghost use Rattle.sc_words.specs.paxos.Choice.{chosen_value, names_above};
ghost use Rattle.sc_words.specs.paxos.Leaders.{Obeys, first_leader, new_leader, promise_counted, is_settled, must, flight_at, with_flight_at, without_flight_at};
ghost use Rattle.sc_words.specs.paxos.Votes.{counted, has_counted};

use crate::flights::{flight_at, set_voters, take_out};
use crate::picking::pick;
use crate::voters::{are_majority, count_of, voters_after};
use sc_base::{Ballot, Dup, Members, OutOfMemory};
use sc_words::{Counted, Flight, Must, Report};
use std::alloc::Global;
use std::marker::Model;

/// A leader of one ballot of one group's log. Contracts see its ballot, whether it is the group's
/// first, the next slot when it was elected, the nodes that promised it, their reports in the
/// order in which they were counted, and the proposals in flight.
#[derive(Drop)]
pub struct Leader<V> {
    ballot: Ballot,
    is_first: bool,
    from: u32,
    promisers: Vec<u16>,
    reports: Vec<Report<V>>,
    flights: Vec<Flight<V>>,
    alloc: Global,
}

impl<V> Model for Leader<V> {
    ghost use Rattle.sc_words.specs.paxos.Leaders.{LeaderState};
    ghost use Rattle.sc_paxos.specs.OneEach.{IsOneEach};

    ghost Value = { LeaderState V };

    ghost view = { λ l.
        record {
          ballot = l.ballot;
          is_first = l.is_first;
          from = l.from;
          promisers = l.promisers.items;
          reports = l.reports.items;
          flights = l.flights.items;
        } };

    ghost invariant = { λ l. IsOneEach l.flights.items };
}

impl<V> Leader<V> {
    /// Returns the leader of the group's first ballot, which needs no promises.
    pub fn first(alloc: Global, ballot: Ballot) -> Leader<V>
        ensures { result ≡ first_leader ballot }
    {
        Leader {
            ballot,
            is_first: true,
            from: 1,
            promisers: Vec::new(alloc),
            reports: Vec::new(alloc),
            flights: Vec::new(alloc),
            alloc,
        }
    }

    /// Returns a leader of another ballot, elected when `from` was the next slot. It has counted
    /// no promise and has nothing in flight.
    pub fn elect(alloc: Global, ballot: Ballot, from: u32) -> Leader<V>
        ensures { result ≡ new_leader ballot from }
    {
        Leader {
            ballot,
            is_first: false,
            from,
            promisers: Vec::new(alloc),
            reports: Vec::new(alloc),
            flights: Vec::new(alloc),
            alloc,
        }
    }

    /// Returns the leader's ballot.
    pub fn ballot(&self) -> Ballot
        ensures { result ≡ self.now.ballot }
    {
        self.ballot
    }

    /// Returns whether the leader's ballot is the group's first, which needs no promises.
    pub fn is_first(&self) -> bool
        ensures { result ≡ self.now.is_first }
    {
        self.is_first
    }

    /// Returns whether the leader is settled, that is, may propose: its ballot is not below the
    /// promise of its own acceptor, and it is the group's first or a majority of the members of
    /// the next slot promised it.
    pub fn settled(&self, promised: Ballot, members: &Members) -> bool
        ensures { result ≡ is_settled promised members.now self.now }
    {
        if self.ballot < promised {
            return false;
        }
        self.is_first || members.is_majority(self.promisers.as_slice())
    }

    /// Returns the value in flight at a slot, if there is one.
    pub fn flight(&self, slot: u32) -> Option<&V>
        ensures { option_copied result
            ≡ option_map (λ flight. flight.value) (flight_at slot self.now.flights) }
    {
        match flight_at(self.flights.as_slice(), slot) {
            Some(flight) => Some(&flight.value),
            None => None,
        }
    }

    /// Returns whether a node's vote was counted for the proposal in flight at a slot.
    pub fn voted(&self, slot: u32, node: u16) -> bool
        ensures { result ≡ has_counted slot node self.now }
    {
        match flight_at(self.flights.as_slice(), slot) {
            Some(flight) => match &flight.voters {
                Some(voters) => voters.has(node),
                None => false,
            },
            None => false,
        }
    }

    /// Removes the proposal in flight at a slot, and returns its value, or `None` exactly where
    /// none is in flight.
    pub fn land(&mut self, slot: u32) -> Option<V>
        ensures value { result
            ≡ option_map (λ flight. flight.value) (flight_at slot self.old.flights) }
        ensures after { self.new ≡ without_flight_at slot self.old }
        ensures empty { flight_at slot self.new.flights ≡ None }
    {
        match take_out(&mut self.flights, slot) {
            Some(flight) => Some(value_of(flight)),
            None => None,
        }
    }
}

impl<V: Drop> Leader<V> {
    /// Counts the promise of a node, with its reports (Paxos Made Simple, section 2.2, phase 2a).
    /// Returns `false` exactly where the ballot is not this leader's or the node was counted
    /// already; the leader is then unchanged and nothing is allocated.
    pub fn on_promise(
        &mut self,
        from: u16,
        ballot: Ballot,
        mut reports: Vec<Report<V>>,
    ) -> Result<bool, OutOfMemory>
        ensures counted { IfOk result
            (λ is_counted.
            promise_counted from ballot reports.items self.old ≡ (is_counted, self.new)) }
        ensures ignored { (promise_counted from ballot reports.items self.old).0 ≡ false →
            IsOk result }
    {
        if ballot != self.ballot || occurs(self.promisers.as_slice(), from) {
            return Ok(false);
        }
        self.promisers.push(from)?;
        self.reports.append(&mut reports)?;
        Ok(true)
    }

    /// Puts a proposal in flight at a slot, with no votes (Paxos Made Simple, section 2.2, phase
    /// 2a). Nothing is in flight there, and the value is the one that the leader must propose,
    /// where there is one. After `Err(OutOfMemory)` the leader is unchanged, and the value is
    /// dropped.
    pub fn offer(&mut self, slot: u32, value: V) -> Result<(), OutOfMemory>
        requires free { flight_at slot self.old.flights ≡ None }
        requires obeys { Obeys (must slot self.old) value }
        ensures ok { OnOk result (self.new ≡ with_flight_at slot value self.old) }
        ensures err { OnErr result (self.new ≡ self.old) }
    {
        self.flights.push(Flight {
            slot,
            value,
            voters: None,
        })?;
        Ok(())
    }

    /// Counts a vote for the proposal in flight at a slot (Paxos Made Simple, section 2.3). Only a
    /// vote in this leader's ballot counts; that of a member is kept, once, and that of another
    /// node is not. Returns `Chosen`, and removes the proposal, exactly where the kept voters are
    /// now a majority of the members. Returns `NotYet` with their number otherwise, 0 where nothing
    /// is in flight there in that ballot. At most nine votes are kept for a slot.
    pub fn on_accepted(
        &mut self,
        from: u16,
        ballot: Ballot,
        slot: u32,
        members: &Members,
    ) -> Counted<V>
        ensures { counted from ballot slot members.now self.old ≡ (result, self.new) }
    {
        if ballot != self.ballot {
            return Counted::NotYet { count: 0 };
        }
        let Some(kept) = kept_at(self.flights.as_slice(), slot) else {
            return Counted::NotYet { count: 0 };
        };
        let voters = voters_after(members, from, kept);
        if !are_majority(members, &voters) {
            set_voters(&mut self.flights, slot, voters);
            return Counted::NotYet {
                count: count_of(&voters),
            };
        }
        match take_out(&mut self.flights, slot) {
            Some(flight) => Counted::Chosen(value_of(flight)),
            None => Counted::NotYet { count: 0 },
        }
    }
}

impl<V: Dup + Drop> Leader<V> {
    /// Returns what the leader must propose at a slot (Paxos Made Simple, section 2.2, phase 2a,
    /// and section 3): what `pick` chooses from the reports in the order in which they were
    /// counted; a gap where no report names the slot and one names a greater slot; any value
    /// otherwise. Memory is allocated only for a value.
    pub fn must(&self, slot: u32) -> Result<Must<V>, OutOfMemory>
        ensures found { IfOk result (λ found. found ≡ must slot self.now) }
        ensures none { chosen_value slot self.now.reports ≡ None → IsOk result }
    {
        let found = pick(self.alloc, slot, &self.reports)?;
        match found {
            Some(value) => Ok(Must::Value(value)),
            None => {
                if names_above(self.reports.as_slice(), slot) {
                    Ok(Must::Gap)
                } else {
                    Ok(Must::Free)
                }
            }
        }
    }
}

/// Returns the votes kept for the proposal in flight at a slot, if there is one.
fn kept_at<V>(flights: &[Flight<V>], slot: u32) -> Option<Option<Members>>
    ensures { result ≡ option_map (λ flight. flight.voters) (flight_at slot flights.now) }
{
    match flight_at(flights, slot) {
        Some(flight) => Some(flight.voters),
        None => None,
    }
}

/// Returns the value of a proposal.
fn value_of<V>(flight: Flight<V>) -> V
    ensures { result ≡ flight.value }
{
    let Flight {
        slot: _,
        value,
        voters: _,
    } = flight;
    value
}

/// Returns whether a report names a slot above this one.
fn names_above<V>(reports: &[Report<V>], slot: u32) -> bool
    ensures { result ≡ names_above slot reports.now }
{
    reports.iter().any(|report| slot < report.slot)
}

/// Returns whether a node occurs among the nodes.
fn occurs(nodes: &[u16], node: u16) -> bool
    ensures { result ≡ is_member nodes.now node }
{
    nodes.iter().any(|other| *other == node)
}
