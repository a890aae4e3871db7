//! Requests, what is sent again at a tick, and the mails of a round of votes.
ghost use Rattle.std.specs.Prelude.{◌≡◌, ◌+◌, ◌-◌, ◌<◌, ◌≤◌, ◌||◌, not, nat_le, nat_lt, [], ℕ, true, false, IfOk, OnOk, IsOk, IfSome, Some, None, is_some};
ghost use Rattle.std.specs.Option.{option_copied};
ghost use Rattle.sc_base.specs.Roster.{is_member};
ghost use Rattle.sc_words.specs.paxos.Logs.{entry_at, next_of};
ghost use Rattle.sc_words.specs.declared.commands.commands.Command.TheVariants.{Call};
ghost use Rattle.sc_node_table.specs.Queues.{queued_number};
ghost use Rattle.sc_mail.specs.declared.bodies.MailBody.TheVariants.{Ask, Learn};
ghost use Rattle.sc_node_table.specs.Mails.{sent};
ghost use Rattle.sc_node_replica.specs.Again.{asked_at, repeated};
ghost use Rattle.sc_node_table.specs.Replica.{name_of, next, members, flying, is_idle};
ghost use Rattle.sc_node_table.specs.Rows.{refused_at, queued, requested, request_row, asked_again, last_entry_sent, mailed};
ghost use Rattle.sc_node_replica.specs.RoundMail.{is_of_round};
ghost use Rattle.sc_node_replica.specs.IdleInputs.{IsRoundPassedBy};

use crate::replica::Replica;
use sc_base::{Members, Op, OutOfMemory, Sequence};
use sc_mail::{Mail, MailBody};
use sc_node_choices::{request_refusal, uncounted};
use sc_node_parts::{add_request, answer, drop_request, queued_number, send};

impl Replica {
    /// Appends a request to the queue in place of an earlier one of its client, and pumps. Does
    /// nothing where the same or a later one is queued.
    #[tactic(auto, unfolding(sc_node_table::specs::Rows::queued))]
    fn queue(
        &mut self,
        client: u16,
        seq: u32,
        op: &Op,
        out: &mut Sequence<Mail>,
    ) -> Result<(), OutOfMemory>
        ensures row { OnOk result
            ((self.new, out.new)
            ≡ queued (queued_number self.old.backlog client) client seq op.now (self.old, out.old)) }
        ensures waiting { (other : ℕ) → queued_number self.old.backlog client ≡ Some other →
            seq ≤ other → IsOk result }
    {
        if let Some(other) = queued_number(&self.backlog, client) {
            if seq <= other {
                return Ok(());
            }
            drop_request(&mut self.backlog, client);
        }
        add_request(self.alloc, &mut self.backlog, client, seq, op)?;
        self.pump(out)
    }

    /// Handles a Request: answers the client why it is not taken, or queues it and offers what may
    /// be offered. Mails are appended to those that are there. After `Err(OutOfMemory)` the replica
    /// may only be dropped.
    #[tactic(auto, unfolding(sc_node_table::specs::Rows::request_row, sc_node_table::specs::Rows::requested))]
    pub fn on_request(
        &mut self,
        client: u16,
        seq: u32,
        op: &Op,
        out: &mut Sequence<Mail>,
    ) -> Result<(), OutOfMemory>
        ensures row { OnOk result
            ((self.new, out.new) ≡ request_row client seq op.now (self.old, out.old)) }
        ensures waiting { (other : ℕ) → refused_at self.old.group.core.gone op.now self.old ≡ None
            → queued_number self.old.backlog client ≡ Some other → seq ≤ other → IsOk result }
    {
        match request_refusal(self.machine.core(), self.running, self.hint, op) {
            Some(body) => answer(self.me, self.name(), client, seq, body, out),
            None => self.queue(client, seq, op, out),
        }
    }

    /// Asks a node for the entries of the group's log from a slot on. Mails are appended to those
    /// that are there; after `Err(OutOfMemory)` they may only be dropped.
    pub fn ask(
        &self,
        from: u16,
        from_slot: u32,
        out: &mut Sequence<Mail>,
    ) -> Result<(), OutOfMemory>
        ensures { OnOk result
            (out.new ≡ sent self.now.me from (Ask (name_of self.now) from_slot) out.old) }
    {
        let group = self.name();
        send(
            self.me,
            from as u32,
            MailBody::Ask { group, from_slot },
            out,
        )
    }

    /// Sends the command in flight at a slot, if there is one, again to the members of the slot
    /// whose votes were not counted.
    fn ask_again_at(
        &self,
        slot: u32,
        set: &Members,
        out: &mut Sequence<Mail>,
    ) -> Result<(), OutOfMemory>
        ensures mails { OnOk result (out.new ≡ asked_at self.now slot set.now out.old) }
        ensures none { asked_at self.now slot set.now [] ≡ [] → IsOk result }
    {
        let Some(command) = self.leader.flight(slot) else {
            return Ok(());
        };
        let nodes = uncounted(self.alloc, &self.leader, slot, set)?;
        self.send_accepts(nodes.as_slice(), slot, command, out)
    }

    /// Sends each command in flight again to the members of its slot whose votes were not counted.
    fn ask_again(&self, out: &mut Sequence<Mail>) -> Result<(), OutOfMemory>
        ensures mails { OnOk result
            (out.new ≡ asked_again self.now (next self.now) self.now.sets out.old) }
        ensures none { asked_again self.now (next self.now) self.now.sets [] ≡ [] → IsOk result }
    {
        let next = self.next();
        for i in 0..self.open_slots() {
            self.ask_again_at(next + i as u32, self.sets.at(i), out)?;
        }
        Ok(())
    }

    /// Sends the last executed entry, if it is held, to each other member.
    #[tactic(auto, unfolding(sc_node_table::specs::Rows::last_entry_sent))]
    fn send_last_entry(&self, out: &mut Sequence<Mail>) -> Result<(), OutOfMemory>
        ensures mails { OnOk result
            (out.new ≡ last_entry_sent (entry_at (next self.now - 1) self.now.log) self.now out.old) }
        ensures none { last_entry_sent (entry_at (next self.now - 1) self.now.log) self.now [] ≡ [] →
            IsOk result }
    {
        let slot = self.next() - 1;
        match self.entry(slot) {
            Some(command) => {
                let members = self.machine.core().members;
                self.send_learns(members.as_slice(), slot, command, out)
            }
            None => Ok(()),
        }
    }

    /// Returns whether the group is not gone and the replica's node is a member of it in the
    /// executed state.
    pub fn takes_part(&self) -> bool
        ensures { result
            ≡ not
            (is_some self.now.group.core.gone || not (is_member (members self.now) self.now.me)) }
    {
        let core = self.machine.core();
        if core.gone.is_some() {
            return false;
        }
        core.members.has(self.me)
    }

    /// Sends each command in flight again to the members of its slot whose votes were not counted.
    /// Where nothing is in flight or ready, sends the last executed entry, if it is held, to the
    /// other members. Mails are appended to those that are there; after `Err(OutOfMemory)` they may
    /// only be dropped.
    pub fn repeat(&self, out: &mut Sequence<Mail>) -> Result<(), OutOfMemory>
        ensures mails { OnOk result (out.new ≡ repeated self.now out.old) }
        ensures none { repeated self.now [] ≡ [] → IsOk result }
    {
        if self.is_idle() {
            return self.send_last_entry(out);
        }
        self.ask_again(out)
    }

    /// Handles a mail of a round of votes: a Prepare, Promise, Accept, Nack, Ask or Install. Votes
    /// are counted by `count_vote`. Mails are appended to those that are there. After
    /// `Err(OutOfMemory)` the replica may only be dropped.
    #[tactic(auto, unfolding(sc_node_table::specs::Rows::mailed, sc_node_table::specs::Voting::nack_row))]
    pub fn on_round(
        &mut self,
        from: u16,
        body: &MailBody,
        out: &mut Sequence<Mail>,
    ) -> Result<(), OutOfMemory>
        requires { is_of_round body.now ≡ true }
        ensures row { OnOk result
            ((self.new, out.new) ≡ (mailed from body.now (self.old, out.old)).0) }
        ensures none { IsRoundPassedBy body.now self.old → IsOk result }
    {
        match body {
            MailBody::Prepare {
                ballot,
                from_slot,
                ..
            } => self.on_prepare(from, *ballot, *from_slot, out),
            MailBody::Promise {
                ballot,
                reports,
                ..
            } => self.on_promise(from, *ballot, reports, out),
            MailBody::Accept {
                ballot,
                slot,
                command,
                ..
            } => self.on_accept(from, *ballot, *slot, command, out),
            MailBody::Nack { promised, .. } => self.see(*promised, out),
            MailBody::Ask { from_slot, .. } => self.on_ask(from, *from_slot, out),
            MailBody::Install {
                slot,
                base,
                sets,
                ..
            } => self.on_install(from, *slot, base.get(), sets, out),
            _ => unreachable!(),
        }
    }
}
