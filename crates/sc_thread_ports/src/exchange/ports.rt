//! The ports to an exchange.
ghost use Rattle.std.specs.Prelude.{◌≡◌, ◌≢◌, ℕ, ◌++◌, ◌∷◌, [], ◌<◌, ◌≤◌, ◌^◌, true, false, length, map, IfOk, OnErr, IfErr, OnOk, IsOk, Contains, is_some, None};
ghost use Rattle.std.specs.List.{list_any};
ghost use Rattle.sc_thread_ports.specs.turn.Seats.{known, AllJoined};
ghost use Rattle.sc_thread_ports.specs.turn.Turn.{rows_by, StartsWith, StartsWith as Begins, IsTrueOf};
ghost use Rattle.std.specs.Option.{option_map};
ghost use Rattle.sc_actor.specs.Mail.{is_crash, mails, numbered};
ghost use Rattle.sc_thread_ledger.specs.Pending.{kth_pending};
ghost use Rattle.sc_thread_ports.specs.exchange.BareRows.{bare_rows, row_by, rows_from, rows_of};
ghost use Rattle.sc_thread_ports.specs.exchange.Addressed.{all_addressed};
ghost use Rattle.sc_thread_ports.specs.exchange.Fetches.{HasFetched, delivered};
ghost use Rattle.sc_thread_ports.specs.exchange.Answers.{IsFetch, IsFirstTo, IsGlance, IsLook, number_in};

use crate::exchange::answers::{Fetched, Unposted};
use crate::exchange::fates::Fate;
use crate::exchange::shared::Exchange;
use crate::exchange::turns::{
    change_at, fetch_at, first_at, glance_at, kth_at, look_at, post_at, receiver_at, waiting_at,
};
use crate::turn::TurnSeat;
use sc_actor::{Event, Journal, Parcel, Row};
use sc_base::{OutOfMemory, Sequence};
use sc_thread_ledger::{Glance, Look, Unkept};
use std::alloc::Global;
use std::sync::Wait;

/// A port to the exchange: that of the actor `who`, or of the network where `who` is 0.
///
/// Its meaning is the list of rows that it has seen and the list of those that it has made.
#[derive(Drop)]
pub struct Port<M: Parcel + Drop, O: Drop> {
    seat: TurnSeat<Exchange<M, O>>,
    alloc: Global,
    /// The number of the port's actor, or 0 for the network.
    pub who: u32,
    /// The number of actors of the exchange.
    pub actors: u32,
    /// The most counted bytes of the journal.
    pub limit: u64,
    /// The number of the mail of the last fetch, if nothing was posted since.
    pub fetched: Option<u32>,
    /// Whether the port has posted a Crash.
    pub crashed: bool,
    ghost number: { (known seat).who ≡ who },
    ghost out: { (known seat).turn ≡ false },
    ghost halted: { crashed ≡ list_any (λ d. is_crash d.event) (known seat).made },
    ghost small: { limit ≤ 2 ^ 30 },
    ghost own: { length (rows_by who (known seat).seen) ≡ length (known seat).made },
    ghost asked: { ∥ HasFetched M.receiver actors who fetched (map (row_by who) (known seat).made)
        (rows_from (known seat).seen) ∥₁ },
}

impl<M: Parcel + Drop, O: Drop> Port<M, O> {
    ghost use Rattle.sc_thread_ports.specs.exchange.Ports.{seen, made, given, SameExchange, MayPost, HasTurned, HasLooked, HasPosted, IsRefused, HasChanged, HasHeard, IsAsBefore, IsStart, HasSplit, IsNew, HasJoined, HasJoinedAll, IsJournal};

    /// Returns the network's port to a new exchange, whose journal is empty. The actors have the
    /// numbers from 1 to `actors`, and the counted bytes of the journal never pass `limit`.
    pub fn start(alloc: Global, actors: u32, limit: u64) -> Result<Port<M, O>, OutOfMemory>
        requires { limit ≤ 2 ^ 30 }
        ensures { IfOk result (λ p. IsStart p actors limit) }
    {
        Ok(Port {
            seat: TurnSeat::start(alloc, Exchange::new(alloc, actors)?)?,
            alloc,
            who: 0,
            actors,
            limit,
            fetched: None,
            crashed: false,
        })
    }

    /// Returns a new port of the actor `who`, which has seen what the network's port has seen and
    /// has made no row. Only the network's port splits off others, each number once.
    /// `Err(OutOfMemory)`: no port was made, and the number is still free.
    pub fn split(&mut self, who: u32) -> Result<Port<M, O>, OutOfMemory>
        requires net { self.old.who ≡ 0 }
        requires number { (0 < who) × (who ≤ self.old.actors) }
        requires fresh { ¬ Contains (given self.old) who }
        ensures same { HasSplit self.old self.new }
        ensures ok { IfOk result (λ p. IsNew self.old p who) }
        ensures given { OnOk result (given self.new ≡ given self.old ++ who ∷ []) }
        ensures err { OnErr result (given self.new ≡ given self.old) }
    {
        let seat = self.seat.split(who)?;
        Ok(Port {
            seat,
            alloc: self.alloc,
            who,
            actors: self.actors,
            limit: self.limit,
            fetched: None,
            crashed: false,
        })
    }

    /// Returns the k-th pending mail of this port's actor, counted from 1, which stays pending. At
    /// the network's port it is the k-th pending mail of all actors. `Err(OutOfMemory)`: no fetched
    /// mail is kept, and nothing is posted; it comes only where the mail is pending at this turn.
    pub fn fetch<R: Wait>(&mut self, rt: &R, k: u32) -> Result<Fetched<M>, OutOfMemory>
        requires { 0 < k }
        ensures looked { HasLooked self.old self.new (number_in result) }
        ensures found { IfOk result
            (λ found. IsFetch M.receiver self.old.actors (seen self.new) self.old.who k found) }
        ensures none { kth_pending M.receiver self.old.actors (seen self.new) self.old.who k ≡ None →
            IsOk result }
    {
        self.fetched = None;
        let found = fetch_at(rt, self.alloc, &mut self.seat, self.actors, self.who, k);
        self.fetched = number_in(&found);
        found
    }

    /// Appends a row of this port's actor, and returns its place in the journal, counted from 1. A
    /// delivery has to be of the mail of the last fetch, which was pending then.
    ///
    /// `Err`: the event and the mails are handed back with the cause, and the port has made no row.
    pub fn post<R: Wait>(
        &mut self,
        rt: &R,
        event: Event<O>,
        sent: Sequence<M>,
    ) -> Result<u32, Unposted<M, O>>
        requires actor { self.old.who ≢ 0 }
        requires event { MayPost self.old.fetched event }
        requires runs { self.old.crashed ≡ false }
        ensures turned { HasTurned self.old self.new }
        ensures delivered { ∥ HasFetched M.receiver self.old.actors self.old.who (delivered event)
            (made self.old) (seen self.old) ∥₁ }
        ensures ok { IfOk result
            (λ at.
            HasPosted self.old self.new (record { who = self.old.who; event = event; sent = sent })
            at) }
        ensures refused { IfErr result
            (λ e.
            IsRefused self.old self.new (record { who = self.old.who; event = event; sent = sent })
            e) }
    {
        let crashes = is_crash(&event);
        let row = Row {
            who: self.who,
            event,
            sent,
        };
        match post_at(rt, &mut self.seat, row, self.limit) {
            Ok(place) => {
                self.fetched = None;
                self.crashed = crashes;
                Ok(place)
            }
            Err(unkept) => Err(unposted(unkept)),
        }
    }

    /// Loses a pending copy of the mail with this number, or repeats the mail, by a row of the
    /// network. Returns `false` exactly where this may not be: a loss where no copy is pending; a
    /// repeat where the mail was not sent, or its receiver is the desk or has crashed. `Err`: the
    /// row was refused, and the port has made none.
    pub fn change<R: Wait>(
        &mut self,
        rt: &R,
        number: u32,
        fate: Fate,
    ) -> Result<bool, Unposted<M, O>>
        requires { self.old.who ≡ 0 }
        ensures { HasChanged fate number self.old self.new result }
    {
        match change_at(
            rt,
            self.alloc,
            &mut self.seat,
            self.actors,
            self.limit,
            number,
            fate,
        ) {
            Ok(done) => Ok(done),
            Err(unkept) => Err(unposted(unkept)),
        }
    }

    /// Loses a pending copy of the mail with this number. Returns `false` exactly where none is
    /// pending.
    pub fn lose<R: Wait>(&mut self, rt: &R, number: u32) -> Result<bool, Unposted<M, O>>
        requires { self.old.who ≡ 0 }
        ensures { HasChanged Fate.Lost number self.old self.new result }
    {
        self.change(rt, number, Fate::Lost)
    }

    /// Repeats the mail with this number, which has one more copy afterwards. Returns `false`
    /// exactly where the mail was not sent, or its receiver is the desk or has crashed.
    pub fn again<R: Wait>(&mut self, rt: &R, number: u32) -> Result<bool, Unposted<M, O>>
        requires { self.old.who ≡ 0 }
        ensures { HasChanged Fate.Repeated number self.old self.new result }
    {
        self.change(rt, number, Fate::Repeated)
    }

    /// Returns the number of the k-th pending mail, counted from 1, of actor `who`, or of all where
    /// `who` is 0; `None` exactly where there are fewer at this turn.
    pub fn pending<R: Wait>(&mut self, rt: &R, who: u32, k: u32) -> Option<u32>
        requires { 0 < k }
        ensures looked { HasLooked self.old self.new self.old.fetched }
        ensures kth { result ≡ kth_pending M.receiver self.old.actors (seen self.new) who k }
    {
        kth_at(rt, &mut self.seat, self.actors, who, k)
    }

    /// Returns the receiver of the mail with this number; `None` exactly where at this turn it was
    /// not sent.
    pub fn receiver<R: Wait>(&mut self, rt: &R, number: u32) -> Option<u32>
        ensures looked { HasLooked self.old self.new self.old.fetched }
        ensures receiver { result
            ≡ option_map M.receiver (numbered (mails (seen self.new)) number) }
    {
        receiver_at(rt, &mut self.seat, number)
    }

    /// Returns the receiver of the first mail that is pending for this port's actor, or for any
    /// actor at the network's port; `None` exactly where none is pending at this turn. The mail is
    /// not copied.
    pub fn first_receiver<R: Wait>(&mut self, rt: &R) -> Option<u32>
        ensures looked { HasLooked self.old self.new self.old.fetched }
        ensures first { IsFirstTo M.receiver self.old.actors (seen self.new) self.old.who result }
    {
        first_at(rt, &mut self.seat, self.actors, self.who)
    }

    /// Returns for each of these actors whether mail is pending for it, all at one turn.
    pub fn waiting<R: Wait>(&mut self, rt: &R, whos: &[u32]) -> Result<Vec<bool>, OutOfMemory>
        ensures looked { HasLooked self.old self.new self.old.fetched }
        ensures waiting { IfOk result
            (λ waits.
            waits.items
            ≡ map (λ who. is_some (kth_pending M.receiver self.new.actors (seen self.new) who 1))
            whos.now) }
        ensures none { whos.now ≡ [] → IsOk result }
    {
        waiting_at(rt, self.alloc, &mut self.seat, self.actors, whos)
    }

    /// Returns the number of mails that were sent, and each pending copy of all mail, all at one
    /// turn. Only the network's port may do this.
    pub fn look<R: Wait>(&mut self, rt: &R) -> Result<Look, OutOfMemory>
        requires net { self.old.who ≡ 0 }
        ensures looked { HasLooked self.old self.new self.old.fetched }
        ensures look { IfOk result
            (λ look. IsLook M.receiver self.old.actors (seen self.new) look) }
    {
        look_at(rt, self.alloc, &mut self.seat, self.actors)
    }

    /// Returns the number of mails that were sent, and of the pending copies for the actors `whos`,
    /// in ascending order of number, the one at the place `word` modulo their number, all at one
    /// turn. Only the network's port may do this.
    pub fn glance<R: Wait>(
        &mut self,
        rt: &R,
        whos: &[u32],
        word: u32,
    ) -> Result<Glance, OutOfMemory>
        requires net { self.old.who ≡ 0 }
        ensures looked { HasLooked self.old self.new self.old.fetched }
        ensures glance { IfOk result
            (λ glance. IsGlance M.receiver self.old.actors (seen self.new) whos.now word glance) }
    {
        glance_at(rt, self.alloc, &mut self.seat, self.actors, whos, word)
    }

    /// Lets two ports of one exchange exchange what they have seen. Afterwards what each has seen
    /// begins with what both had seen before, and what `other` has seen begins with what this port
    /// has seen. It takes no memory and never returns `OutOfMemory`.
    pub fn meet<R: Wait>(&mut self, rt: &R, other: &mut Port<M, O>) -> Result<(), OutOfMemory>
        requires { SameExchange self.old other.old }
        ensures mine { HasHeard self.old self.new (seen other.old) }
        ensures theirs { HasHeard other.old other.new (seen self.old) }
        ensures last { Begins (seen other.new) (seen self.new) }
        ensures none { IsOk result }
    {
        self.seat.meet(rt, &mut other.seat)
    }

    /// Shows that in what the other port has seen, which has to begin with what this port has seen,
    /// the rows of this port's number are exactly those that this port has made. Neither port sees
    /// more rows afterwards.
    pub fn vouch(&mut self, other: &mut Port<M, O>)
        requires one { SameExchange self.old other.old }
        requires later { Begins (seen other.old) (seen self.old) }
        ensures mine { IsAsBefore self.old self.new }
        ensures theirs { IsAsBefore other.old other.new }
        ensures own { rows_of self.old.who (seen other.new) ≡ made self.new }
    {
        self.seat.vouch(&mut other.seat);
    }

    /// Takes another port of the exchange into the network's port, which keeps the longer of what
    /// the two have seen, and knows the rows that the other had made.
    pub fn join(&mut self, other: Port<M, O>)
        requires net { self.old.who ≡ 0 }
        requires one { SameExchange self.old other }
        ensures { HasJoined self.old self.new other }
    {
        let Port {
            seat,
            alloc: _,
            who: _,
            actors: _,
            limit: _,
            fetched: _,
            crashed: _,
        } = other;
        self.seat.join(seat);
    }

    /// Closes the exchange and returns its journal. Each port that was split off must have been
    /// joined.
    pub fn close<R: Wait>(self, rt: &R) -> Journal<M, O>
        requires net { self.who ≡ 0 }
        requires all { HasJoinedAll self }
        ensures { IsJournal self result }
    {
        let Port {
            seat,
            alloc: _,
            who: _,
            actors: _,
            limit: _,
            fetched: _,
            crashed: _,
        } = self;
        closed(rt, seat)
    }
}

fn is_crash<O>(event: &Event<O>) -> bool
    ensures { result ≡ is_crash event.now }
{
    match event {
        Event::Crash => true,
        _ => false,
    }
}

// Returns the number of the fetched mail, if there is one. It borrows the answer, which is large.
fn number_in<M>(found: &Result<Fetched<M>, OutOfMemory>) -> Option<u32>
    ensures { result ≡ number_in found.now }
{
    match found {
        Ok(Fetched::Mail { number, mail: _ }) => Some(*number),
        _ => None,
    }
}

fn unposted<M: Drop, O: Drop>(unkept: Unkept<M, O>) -> Unposted<M, O>
    ensures { (result.why ≡ unkept.why)
        × (result.event ≡ unkept.row.event)
        × (result.sent ≡ unkept.row.sent) }
{
    let Unkept { why, row } = unkept;
    let Row {
        who: _,
        event,
        sent,
    } = row;
    Unposted { why, event, sent }
}

// Takes the turn for good, and returns the journal.
fn closed<M: Parcel + Drop, O: Drop, R: Wait>(
    rt: &R,
    seat: TurnSeat<Exchange<M, O>>,
) -> Journal<M, O>
    requires net { ((known seat).who ≡ 0) × ((known seat).turn ≡ false) }
    requires all { AllJoined (known seat) }
    ensures later { StartsWith (bare_rows result) (known seat).seen }
    ensures addressed { all_addressed M.receiver [] result ≡ true }
    ensures facts { IsTrueOf (known seat) (bare_rows result) }
{
    let exchange = seat.close(rt);
    let ledger = Box::into_inner(exchange.ledger);
    Sequence::from_vec(ledger.rows)
}
