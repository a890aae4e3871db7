//! Two nodes and a client, driven by hand.
ghost use Rattle.std.specs.Prelude.{◌≡◌, ◌<◌, ◌≤◌, ◌+◌, ◌^◌, [], true, false, length, fold, slice_get, Some, IfOk, OnOk, MatchResult};
ghost use Rattle.sc_actor.specs.Mail.{mails};
ghost use Rattle.sc_actor.specs.declared.rows.Event.TheVariants.{Go};
ghost use Rattle.sc_base.specs.Limits.{client_actor};
ghost use Rattle.sc_by_hand.specs.Deeds.{after_deed, deeds_of, delivery};
ghost use Rattle.sc_scenario.specs.scenario.Valid.{IsValid};
ghost use Rattle.sc_world.specs.ReplayErrors.{IsReplayError};
ghost use Rattle.sc_world.specs.Worlds.{StandsFor};

use crate::steps::{Log, deliver, start};
use sc_actor::{Actor, Parcel};
use sc_base::OutOfMemory;
use sc_mail::{Mail, client_number};
use sc_scenario::Scenario;
use sc_words::OrderLine;
use sc_world::{ReplayError, World, replay_rows};
use std::alloc::Global;

/// The scenario that `Hand::run` plays: a group of two nodes, and a client that puts once. The
/// client starts, and pending mail is delivered, the lowest-numbered first.
pub const SCENARIO: &[u8] =
    b"scatter 1\nnodes 2\ngroup 0 1 2\nclient 1\nput a x\nend\ngo 1\nsettle 1000\n";

/// Two nodes and a client, and what they did. They are actors of one type, such as `Party`
/// (`sc_world`), which is a node or a client.
#[derive(Drop)]
pub struct Hand<A: Actor> {
    /// Node 1.
    pub first: A,
    /// Node 2.
    pub second: A,
    /// Client 1.
    pub client: A,
    /// The rows of what they did, and the mail on the wire.
    pub log: Log<A::Mail, A::Order>,
}

impl<A: Actor> Hand<A> {
    /// Returns a `Hand` with these actors as node 1, node 2 and client 1, and with an empty log.
    pub fn new(alloc: Global, first: A, second: A, client: A) -> Hand<A>
        ensures first { result.first ≡ first }
        ensures second { result.second ≡ second }
        ensures client { result.client ≡ client }
        ensures idle { (result.log.rows ≡ []) × (result.log.wire ≡ []) }
        ensures carried { result.log.wire ≡ mails result.log.rows }
    {
        Hand {
            first,
            second,
            client,
            log: Log::new(alloc),
        }
    }

    // Delivers the mail at a place of the wire to its receiver. For any other receiver, such as the
    // desk, nothing happens.
    fn serve(&mut self, alloc: Global, place: usize) -> Result<(), OutOfMemory>
        requires place { place < length self.old.log.wire }
        requires few { place + 1 < 2 ^ 32 }
        requires carried { self.old.log.wire ≡ mails self.old.log.rows }
        ensures deed { (mail : A.Mail) → slice_get self.old.log.wire place ≡ Some mail →
            OnOk result (self.new ≡
            fold (after_deed A.table) self.old (delivery A.Mail.receiver (place + 1) mail)) }
        ensures carried { OnOk result (self.new.log.wire ≡ mails self.new.log.rows) }
    {
        let who = self.log.wire.at(place).to();
        if who == 1 {
            deliver(alloc, who, &mut self.first, place, &mut self.log)
        } else if who == 2 {
            deliver(alloc, who, &mut self.second, place, &mut self.log)
        } else if who == client_number(1) {
            deliver(alloc, who, &mut self.client, place, &mut self.log)
        } else {
            Ok(())
        }
    }

    // Starts the client.
    fn begin(&mut self, alloc: Global) -> Result<(), OutOfMemory>
        requires carried { self.old.log.wire ≡ mails self.old.log.rows }
        ensures deed { OnOk result (self.new ≡ after_deed A.table self.old (client_actor 1, Go)) }
        ensures carried { OnOk result (self.new.log.wire ≡ mails self.new.log.rows) }
    {
        start(alloc, client_number(1), &mut self.client, &mut self.log)
    }

    /// Starts the client, and then delivers the first `most` mails in the order in which they are
    /// sent, each to its receiver, until none is left. A mail for any other receiver, such as the
    /// desk, is not delivered. Each delivery is a step of its actor by its table, and a row. The
    /// only error is out of memory, after which all may only be dropped.
    pub fn run(&mut self, alloc: Global, most: u32) -> Result<(), OutOfMemory>
        requires carried { self.old.log.wire ≡ mails self.old.log.rows }
        ensures deeds { OnOk result
            (self.new ≡ fold (after_deed A.table) self.old
            (deeds_of A.Mail.receiver most self.new.log.wire)) }
        ensures carried { OnOk result (self.new.log.wire ≡ mails self.new.log.rows) }
    {
        self.begin(alloc)?;
        for place in 0..most as usize {
            if place >= self.log.wire.len() {
                break;
            }
            self.serve(alloc, place)?;
        }
        Ok(())
    }
}

impl<A: Actor<Mail = Mail, Order = OrderLine>> Hand<A> {
    /// Audits the rows, however they were made. Returns the world that they leave, where they are a
    /// lawful journal of a scenario; each prefix of them is then sound, and each refusal has its
    /// cause. The scenario has to be valid, and rows and their mails fewer than 2^31 each.
    ///
    /// Errors: `BadRow` names the first row that is not lawful, from 1; `OutOfMemory` may come for
    /// any rows.
    pub fn audited<'a>(
        &'a self,
        alloc: Global,
        scenario: &'a Scenario,
    ) -> Result<World<'a>, ReplayError>
        requires valid { IsValid scenario.now }
        requires few_rows { length self.now.log.rows < 2 ^ 31 }
        requires few_mails { length (mails self.now.log.rows) < 2 ^ 31 }
        ensures { MatchResult result (λ world. StandsFor scenario.now self.now.log.rows world)
            (λ error. IsReplayError scenario.now self.now.log.rows error) }
    {
        replay_rows(alloc, scenario, &self.log.rows)
    }
}
