//! The acceptor.
ghost use Rattle.std.specs.Prelude.{◌≡◌, ◌≢◌, ◌+◌, ◌-◌, ◌<◌, ◌≤◌, OnOk, OnErr, IfOk, vec_len, count_by, filter, nat_lt};
ghost use Rattle.std.specs.Vec.{vec_capacity};
ghost use Rattle.sc_words.specs.paxos.Acceptors.{IsBySlot, IsWholeAcceptor, born_acceptor, after_cut, reports_from, with_report};
ghost use Rattle.sc_words.specs.paxos.Preparing.{prepared};
ghost use Rattle.sc_words.specs.paxos.Accepting.{accepted};

use sc_base::{Ballot, Dup, OutOfMemory, Sequence};
use sc_words::{AcceptAnswer, PrepareAnswer, Report};
use std::alloc::Global;
use std::marker::Model;

/// An acceptor of one group's log. Contracts see its state, and for how many more slots it has
/// room.
#[derive(Drop)]
pub struct Acceptor<V> {
    promised: Ballot,
    floor: u32,
    accepted: Vec<Report<V>>,
    alloc: Global,
}

impl<V> Model for Acceptor<V> {
    ghost use Rattle.std.specs.Prelude.{◌-◌, vec_len};
    ghost use Rattle.std.specs.Vec.{vec_capacity};
    ghost use Rattle.sc_words.specs.paxos.Acceptors.{IsWholeAcceptor};
    ghost use Rattle.sc_paxos.specs.Roomy.{Roomy};

    ghost Value = { Roomy V };

    ghost view = { λ a.
        record {
          state = record { promised = a.promised; floor = a.floor; accepted = a.accepted.items };
          room = vec_capacity a.accepted - vec_len a.accepted;
        } };

    ghost invariant = { λ a.
        IsWholeAcceptor
        (record { promised = a.promised; floor = a.floor; accepted = a.accepted.items }) };
}

impl<V> Acceptor<V> {
    /// Returns the acceptor of a new group: it has promised the group's first ballot and accepted
    /// nothing. It has no room yet.
    pub fn born(alloc: Global, first: Ballot) -> Acceptor<V>
        ensures { result.state ≡ born_acceptor first }
    {
        Acceptor {
            promised: first,
            floor: 0,
            accepted: Vec::new(alloc),
            alloc,
        }
    }

    /// Returns the acceptor's promise, the ballot below which it accepts nothing.
    pub fn promised(&self) -> Ballot
        ensures { result ≡ self.now.state.promised }
    {
        self.promised
    }

    /// Returns the slot up to which the acceptor has forgotten what it accepted, 0 at first.
    pub fn floor(&self) -> u32
        ensures same { result ≡ self.now.state.floor }
        ensures whole { IsWholeAcceptor self.now.state }
    {
        self.floor
    }

    /// Makes room for one more slot. Fails only when out of memory. The state is unchanged in each
    /// case, and the room is not less than before.
    pub fn reserve(&mut self) -> Result<(), OutOfMemory>
        ensures room { OnOk result (1 ≤ self.new.room) }
        ensures same { self.new.state ≡ self.old.state }
        ensures kept { self.old.room ≤ self.new.room }
    {
        self.accepted.reserve(1)?;
        Ok(())
    }
}

impl<V: Drop> Acceptor<V> {
    /// Accepts a value at a slot, unless the ballot is below the promise (Paxos Made Simple,
    /// section 2.2, phase 2b). The slot is above the floor, and there is room for one slot, so it
    /// allocates nothing. After `Ignored` the acceptor is unchanged, and the value is dropped.
    pub fn on_accept(&mut self, ballot: Ballot, slot: u32, value: V) -> AcceptAnswer
        requires room { 1 ≤ self.old.room }
        requires above { self.old.state.floor < slot }
        ensures answer { accepted (record { slot = slot; ballot = ballot; value = value })
            self.old.state
            ≡ (result, self.new.state) }
        ensures room { self.old.room ≤ self.new.room + 1 }
        ensures ignored { result ≢ AcceptAnswer.Accepted → self.new ≡ self.old }
    {
        if ballot < self.promised {
            return AcceptAnswer::Ignored {
                promised: self.promised,
            };
        }
        self.promised = ballot;
        put(
            &mut self.accepted,
            Report {
                slot,
                ballot,
                value,
            },
        );
        AcceptAnswer::Accepted
    }

    /// Forgets the accepted slots not above `upto`, and raises the floor to `upto` where it is
    /// lower. Allocates nothing.
    pub fn cut(&mut self, upto: u32)
        ensures state { self.new.state ≡ after_cut upto self.old.state }
        ensures room { self.old.room ≤ self.new.room }
    {
        forget(&mut self.accepted, upto);
        self.floor = self.floor.max(upto);
    }
}

impl<V: Dup + Drop> Acceptor<V> {
    /// Promises a ballot above the promise, and reports what was accepted at the slots not below
    /// `from`, ascending by slot (Paxos Made Simple, section 2.2, phase 1b). Ignores any other
    /// ballot, and is then unchanged. `from` is above the floor, so nothing that the promise
    /// covers is forgotten. After `Err(OutOfMemory)` the acceptor is unchanged.
    pub fn on_prepare(&mut self, ballot: Ballot, from: u32) -> Result<PrepareAnswer<V>, OutOfMemory>
        requires { self.old.state.floor < from }
        ensures answer { IfOk result
            (λ answer. prepared ballot from self.old.state ≡ (answer, self.new.state)) }
        ensures err { OnErr result (self.new.state ≡ self.old.state) }
        ensures room { self.new.room ≡ self.old.room }
    {
        if self.promised < ballot {
            let reports = reports_from(self.alloc, self.accepted.as_slice(), from)?;
            self.promised = ballot;
            Ok(PrepareAnswer::Promise { reports })
        } else {
            Ok(PrepareAnswer::Ignored {
                promised: self.promised,
            })
        }
    }
}

/// Returns copies of the reports of the slots not below `from`.
fn reports_from<V: Dup + Drop>(
    alloc: Global,
    accepted: &[Report<V>],
    from: u32,
) -> Result<Sequence<Report<V>>, OutOfMemory>
    ensures { IfOk result (λ reports. reports ≡ reports_from from accepted.now) }
{
    let mut reports = Sequence::new(alloc);
    for report in accepted {
        if from <= report.slot {
            reports.push(report.dup(alloc)?)?;
        }
    }
    Ok(reports)
}

/// Puts a report in its place, over that of its slot if there is one.
fn put<V: Drop>(accepted: &mut Vec<Report<V>>, report: Report<V>)
    requires by_slot { IsBySlot accepted.old.items }
    requires room { vec_len accepted.old < vec_capacity accepted.old }
    ensures items { accepted.new.items ≡ with_report report accepted.old.items }
    ensures room { vec_capacity accepted.old - vec_len accepted.old
        ≤ vec_capacity accepted.new - vec_len accepted.new + 1 }
{
    let at = count_below(accepted.as_slice(), report.slot);
    if at < accepted.len() && accepted[at].slot == report.slot {
        accepted[at] = report;
    } else {
        let _ = accepted.insert(at, report);
    }
}

/// Drops the reports of the slots not above `upto`.
fn forget<V: Drop>(accepted: &mut Vec<Report<V>>, upto: u32)
    ensures items { accepted.new.items
        ≡ filter (λ report. nat_lt upto report.slot) accepted.old.items }
    ensures fewer { vec_len accepted.new ≤ vec_len accepted.old }
    ensures capacity { vec_capacity accepted.new ≡ vec_capacity accepted.old }
{
    accepted.retain(|report| upto < report.slot);
}

/// Returns how many reports are of lower slots.
fn count_below<V>(accepted: &[Report<V>], slot: u32) -> usize
    ensures { result ≡ count_by (λ report. nat_lt report.slot slot) accepted.now }
{
    accepted.iter().filter(|report| report.slot < slot).count()
}
