//! Promises and votes: Prepare, Promise and Accept, and the count of a vote (Paxos Made Simple,
//! section 2.2).
ghost use Rattle.std.specs.Prelude.{◌≡◌, ◌+◌, ◌<◌, ◌≤◌, ◌&&◌, nat_le, true, false, IfOk, OnOk, IsOk, Some};
ghost use Rattle.std.specs.Option.{option_copied};
ghost use Rattle.sc_words.specs.paxos.Preparing.{prepared};
ghost use Rattle.sc_words.specs.paxos.Accepting.{accepted as accepted_by};
ghost use Rattle.sc_words.specs.paxos.Votes.{counted};
ghost use Rattle.sc_mail.specs.declared.bodies.MailBody.TheVariants.{Nack};
ghost use Rattle.sc_node_table.specs.Mails.{sent};
ghost use Rattle.sc_node_table.specs.Slots.{slots_ahead};
ghost use Rattle.sc_node_table.specs.Replica.{name_of, next, set_at, last_slot};
ghost use Rattle.sc_node_replica.specs.Steps.{with_leader, with_ready};
ghost use Rattle.sc_node_table.specs.Voting.{hinted, promise_to, promised, prepare_row, accepted_to, took, accept_row, leads, promise_row};

use crate::replica::Replica;
use sc_base::{Ballot, Dup, Members, OutOfMemory, Sequence, same_ballot};
use sc_mail::{Mail, MailBody, Reports};
use sc_node_parts::{put_ready, send};
use sc_paxos::{AcceptAnswer, Counted, PrepareAnswer};
use sc_words::Command;

impl Replica {
    /// Takes the ballot's node for the leader. Does nothing for a replica that runs.
    fn follow(&mut self, ballot: Ballot)
        ensures { self.new ≡ hinted ballot self.old }
    {
        if !self.running {
            self.hint = Some(ballot.node);
        }
    }

    /// Sends a node the ballot that was promised, in place of a promise or a vote.
    fn nack(&self, from: u16, promised: Ballot, out: &mut Sequence<Mail>) -> Result<(), OutOfMemory>
        ensures { OnOk result
            (out.new ≡ sent self.now.me from (Nack (name_of self.now) promised) out.old) }
    {
        let body = MailBody::Nack {
            group: self.name(),
            promised,
        };
        send(self.me, from as u32, body, out)
    }

    /// Answers a prepare with a promise and reports, or with the ballot that was promised (Paxos
    /// Made Simple, section 2.2, phase 1b). For a slot that is forgotten, sends the executed state.
    #[tactic(auto, unfolding(sc_node_table::specs::Voting::promised))]
    fn promise(
        &mut self,
        from: u16,
        ballot: Ballot,
        from_slot: u32,
        out: &mut Sequence<Mail>,
    ) -> Result<(), OutOfMemory>
        ensures { OnOk result
            ((self.new, out.new) ≡ promised from ballot from_slot (self.old, out.old)) }
    {
        if from_slot <= self.acceptor.floor() {
            return self.send_install(from, out);
        }
        match self.acceptor.on_prepare(ballot, from_slot)? {
            PrepareAnswer::Promise { reports } => {
                let group = self.name();
                self.follow(ballot);
                send(
                    self.me,
                    from as u32,
                    MailBody::Promise {
                        group,
                        ballot,
                        reports,
                    },
                    out,
                )
            }
            PrepareAnswer::Ignored { promised } => self.nack(from, promised, out),
        }
    }

    /// Handles a Prepare.
    #[tactic(auto, unfolding(sc_node_table::specs::Voting::prepare_row))]
    pub(crate) fn on_prepare(
        &mut self,
        from: u16,
        ballot: Ballot,
        from_slot: u32,
        out: &mut Sequence<Mail>,
    ) -> Result<(), OutOfMemory>
        ensures { OnOk result
            ((self.new, out.new) ≡ prepare_row from ballot from_slot (self.old, out.old)) }
    {
        self.see(ballot, out)?;
        self.promise(from, ballot, from_slot, out)
    }

    /// Answers an accept with a vote, or with the ballot that was promised (Paxos Made Simple,
    /// section 2.2, phase 2b). For a slot that is forgotten, sends the executed state.
    #[tactic(auto, unfolding(sc_node_table::specs::Voting::took))]
    fn take(
        &mut self,
        from: u16,
        ballot: Ballot,
        slot: u32,
        command: &Command,
        out: &mut Sequence<Mail>,
    ) -> Result<(), OutOfMemory>
        ensures { OnOk result
            ((self.new, out.new)
            ≡ took from (record { slot = slot; ballot = ballot; value = command.now })
            (self.old, out.old)) }
    {
        if slot <= self.acceptor.floor() {
            return self.send_install(from, out);
        }
        self.acceptor.reserve()?;
        let command = command.dup(self.alloc)?;
        match self.acceptor.on_accept(ballot, slot, command) {
            AcceptAnswer::Accepted => {
                let group = self.name();
                self.follow(ballot);
                let body = MailBody::Accepted {
                    group,
                    ballot,
                    slot,
                };
                send(self.me, from as u32, body, out)
            }
            AcceptAnswer::Ignored { promised } => self.nack(from, promised, out),
        }
    }

    /// Handles an Accept.
    #[tactic(auto, unfolding(sc_node_table::specs::Voting::accept_row))]
    pub(crate) fn on_accept(
        &mut self,
        from: u16,
        ballot: Ballot,
        slot: u32,
        command: &Command,
        out: &mut Sequence<Mail>,
    ) -> Result<(), OutOfMemory>
        ensures { OnOk result
            ((self.new, out.new) ≡ accept_row from ballot slot command.now (self.old, out.old)) }
    {
        self.see(ballot, out)?;
        self.take(from, ballot, slot, command, out)
    }

    /// Returns whether the replica runs with this ballot.
    pub fn leads(&self, ballot: Ballot) -> bool
        ensures { result ≡ leads ballot self.now }
    {
        self.running && same_ballot(ballot, self.leader.ballot())
    }

    /// Handles a Promise: counts a promise of the ballot with which the replica runs, each node's
    /// once, and pumps. Ignores one of another ballot.
    #[tactic(auto, unfolding(sc_node_table::specs::Voting::promise_row))]
    pub(crate) fn on_promise(
        &mut self,
        from: u16,
        ballot: Ballot,
        reports: &Reports,
        out: &mut Sequence<Mail>,
    ) -> Result<(), OutOfMemory>
        ensures row { OnOk result
            ((self.new, out.new) ≡ promise_row from ballot reports.now (self.old, out.old)) }
        ensures others { leads ballot self.old ≡ false → IsOk result }
    {
        if !self.leads(ballot) {
            return Ok(());
        }
        let reports = reports.dup(self.alloc)?.into_vec();
        self.leader.on_promise(from, ballot, reports)?;
        self.pump(out)
    }

    /// Counts a node's vote for the command in flight at a slot among these members, each node's
    /// once (Paxos Made Simple, section 2.2). Returns the command, which is no longer in flight
    /// then, where a majority has voted for it, and else the number of votes.
    pub fn count_vote(
        &mut self,
        from: u16,
        ballot: Ballot,
        slot: u32,
        set: &Members,
    ) -> Counted<Command>
        ensures count { result ≡ (counted from ballot slot set.now self.old.leader).0 }
        ensures leader { self.new
            ≡ with_leader (counted from ballot slot set.now self.old.leader).1 self.old }
    {
        self.leader.on_accepted(from, ballot, slot, set)
    }

    /// Keeps a copy of a command as ready: a majority has voted for it at this slot, and it waits
    /// until the slot is the next one. After `Err(OutOfMemory)` the replica may only be dropped.
    pub fn make_ready(&mut self, slot: u32, command: &Command) -> Result<(), OutOfMemory>
        ensures { OnOk result (self.new ≡ with_ready slot command.now self.old) }
    {
        put_ready(&mut self.ready, slot, command.dup(self.alloc)?)
    }

    /// Returns the members that vote at a slot, if the slot is open.
    pub fn set_at(&self, slot: u32) -> Option<&Members>
        ensures { option_copied result ≡ set_at slot self.now }
    {
        let next = self.next();
        if slot < next {
            return None;
        }
        self.sets.get((slot - next) as usize)
    }
}
