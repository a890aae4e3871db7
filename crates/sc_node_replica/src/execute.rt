//! Parts of Execute: a command is applied and kept, its client or the desk is answered, the other
//! members learn it, and what is in flight or ready at its slot is dropped.
ghost use Rattle.std.specs.Prelude.{◌≡◌, ◌+◌, ◌<◌, ◌||◌, not, [], filter, IfOk, OnOk, IsOk, IfSome, Option, Some, None, true, false, is_some, if◌then◌else◌};
ghost use Rattle.sc_base.specs.Roster.{is_member};
ghost use Rattle.sc_words.specs.declared.commands.commands.Command.TheVariants.{Call};
ghost use Rattle.sc_group_table.specs.machine.Machine.{applied};
ghost use Rattle.sc_node_table.specs.Slots.{slots_ahead};
ghost use Rattle.sc_node_table.specs.Replica.{next, members, last_slot};
ghost use Rattle.sc_node_parts.specs.replica.Requests.{is_request};
ghost use Rattle.sc_node_replica.specs.IdleInputs.{KeepsQueues};
ghost use Rattle.sc_node_table.specs.Execute.{entered, answer_of, answered_or_put_back, effect_reported, learnt_to, welcomed, slot_lost, landed, left_gone, left, is_among, looked, has_room, next_ready};

use crate::replica::{LAST_SLOT, Replica};
use sc_base::{Dup, Members, OutOfMemory, Sequence, dup_found};
use sc_mail::{AnswerBody, Mail};
use sc_node_choices::{not_among, same_command, waits_in};
use sc_node_parts::{answer, drop_ready, order_number, ready_at, report_order};
use sc_words::{Command, Effect, OrderResult};

/// Returns the answer to the client of a request with this effect. None where it has to wait.
fn answer_of(effect: Effect) -> Option<AnswerBody>
    ensures { result ≡ answer_of effect }
{
    match effect {
        Effect::Done(reply) | Effect::Again(reply) => Some(AnswerBody::Value(reply)),
        Effect::Stale { last } => Some(AnswerBody::Stale { last }),
        Effect::NotMine { arc, succ } => Some(AnswerBody::NotMine { arc, succ }),
        Effect::Gone { into } => Some(AnswerBody::Gone { into }),
        Effect::NoEffect { .. }
        | Effect::Idle
        | Effect::Changed
        | Effect::Voted(_)
        | Effect::Decided(_)
        | Effect::Refused(_) => None,
    }
}

impl Replica {
    /// Applies the command of the next slot to the group and keeps it in the log, opens one more
    /// slot, and forgets the entries and accepted commands that are not above the floor. Returns
    /// the effect. After `Err(OutOfMemory)` the replica may only be dropped.
    #[tactic(auto, unfolding(sc_node_table::specs::Execute::entered))]
    pub fn enter(&mut self, command: &Command) -> Result<Effect, OutOfMemory>
        requires { next self.old < last_slot + slots_ahead }
        ensures effect { IfOk result (λ effect. effect ≡ (applied self.old.group command.now).1) }
        ensures entered { OnOk result (self.new ≡ entered command.now self.old) }
    {
        let last = self.next();
        let effect = self.machine.apply(command)?;
        self.log.put(command.dup(self.alloc)?)?;
        let members = self.machine.core().members;
        self.sets.shift(members)?;
        self.waits = waits_in(&self.machine.core().lock, self.waits);
        self.forget(last);
        Ok(effect)
    }

    /// Sends this answer to the client of a request. Does nothing for another command.
    #[tactic(auto, unfolding(sc_node_table::specs::Execute::answered_or_put_back))]
    fn answer_request(
        &self,
        body: AnswerBody,
        command: &Command,
        out: &mut Sequence<Mail>,
    ) -> Result<(), OutOfMemory>
        ensures row { OnOk result
            ((self.now, out.new) ≡ answered_or_put_back (Some body) command.now (self.now, out.old)) }
        ensures others { is_request command.now ≡ false → IsOk result }
    {
        match command {
            Command::Call { client, seq, .. } => {
                answer(self.me, self.name(), *client, *seq, body, out)
            }
            _ => Ok(()),
        }
    }

    /// Puts a copy of a request back into its queue. Does nothing for another command.
    #[tactic(auto, unfolding(sc_node_table::specs::Execute::answered_or_put_back))]
    fn put_copy_back(&mut self, command: &Command, out: &Sequence<Mail>) -> Result<(), OutOfMemory>
        ensures row { OnOk result
            ((self.new, out.now) ≡ answered_or_put_back None command.now (self.old, out.now)) }
        ensures others { is_request command.now ≡ false → IsOk result }
    {
        match command {
            Command::Call { .. } => self.put_back(command.dup(self.alloc)?),
            _ => Ok(()),
        }
    }

    /// Answers the client of a request by its effect, or puts the request back where the effect
    /// gives no answer.
    fn answer_or_put_back(
        &mut self,
        effect: Effect,
        command: &Command,
        out: &mut Sequence<Mail>,
    ) -> Result<(), OutOfMemory>
        ensures row { OnOk result
            ((self.new, out.new) ≡ answered_or_put_back (answer_of effect) command.now (self.old, out.old)) }
        ensures others { is_request command.now ≡ false → IsOk result }
    {
        match answer_of(effect) {
            Some(body) => self.answer_request(body, command, out),
            None => self.put_copy_back(command, out),
        }
    }

    /// Answers the client of an executed request by its effect, or puts the request back into its queue
    /// where it has to wait. Does nothing for another command, or for one that was not counted.
    /// `counted`: this replica led, and counted the votes for the command; else it learnt the
    /// command from another node. Mails are appended to those that are there. After
    /// `Err(OutOfMemory)` the replica may only be dropped.
    pub fn answer_counted(
        &mut self,
        counted: bool,
        effect: Effect,
        command: &Command,
        out: &mut Sequence<Mail>,
    ) -> Result<(), OutOfMemory>
        ensures row { OnOk result
            ((self.new, out.new)
            ≡ (if counted then answered_or_put_back (answer_of effect) command.now (self.old, out.old) else
            (self.old, out.old))) }
        ensures uncounted { counted ≡ false → IsOk result }
        ensures others { is_request command.now ≡ false → IsOk result }
    {
        if !counted {
            return Ok(());
        }
        self.answer_or_put_back(effect, command, out)
    }

    /// Reports to the desk the result of an executed order, if there is a result and the order has
    /// a number. Mails are appended to those that are there; after `Err(OutOfMemory)` they may only
    /// be dropped.
    #[tactic(auto, unfolding(sc_node_table::specs::Execute::effect_reported))]
    pub fn report_effect(
        &self,
        told: Option<OrderResult>,
        command: &Command,
        out: &mut Sequence<Mail>,
    ) -> Result<(), OutOfMemory>
        ensures row { OnOk result
            ((self.now, out.new) ≡ effect_reported told command.now (self.now, out.old)) }
        ensures none { (effect_reported told command.now (self.now, [])).1 ≡ [] → IsOk result }
    {
        match told {
            Some(result) => report_order(self.me, order_number(command), result, out),
            None => Ok(()),
        }
    }

    /// Sends an executed command to the other members of the state before it, so that they learn it
    /// (Paxos Made Simple, section 2.3). Does nothing for one that was not counted. `counted`: this
    /// replica led, and counted the votes for the command; else it learnt the command from another
    /// node. Mails are appended to those that are there; after `Err(OutOfMemory)` they may only be
    /// dropped.
    #[tactic(auto, unfolding(sc_node_table::specs::Execute::learnt_to))]
    pub fn teach_members(
        &self,
        counted: bool,
        before: &Members,
        slot: u32,
        command: &Command,
        out: &mut Sequence<Mail>,
    ) -> Result<(), OutOfMemory>
        ensures row { OnOk result
            ((self.now, out.new)
            ≡ learnt_to counted before.now slot command.now (self.now, out.old)) }
        ensures none { (learnt_to counted before.now slot command.now (self.now, [])).1 ≡ [] →
            IsOk result }
    {
        if !counted {
            return Ok(());
        }
        self.send_learns(before.as_slice(), slot, command, out)
    }

    /// Returns the members that are not among these.
    fn added_to(&self, before: &Members) -> Result<Vec<u16>, OutOfMemory>
        ensures nodes { IfOk result
            (λ nodes.
            nodes.items ≡ filter (λ node. not (is_member before.now node)) (members self.now)) }
        ensures none { filter (λ node. not (is_member before.now node)) (members self.now) ≡ [] →
            IsOk result }
    {
        let members = self.machine.core().members;
        not_among(self.alloc, members.as_slice(), before)
    }

    /// Sends the executed state to each member that the last command added, and asks it to promise
    /// the leader's ballot. Does nothing for a command that was not counted. `counted`: this
    /// replica led, and counted the votes for the command; else it learnt the command from another
    /// node. Mails are appended to those that are there; after `Err(OutOfMemory)` they may only be
    /// dropped.
    #[tactic(auto, unfolding(sc_node_table::specs::Execute::welcomed))]
    pub fn welcome(
        &self,
        counted: bool,
        before: &Members,
        out: &mut Sequence<Mail>,
    ) -> Result<(), OutOfMemory>
        ensures row { OnOk result
            ((self.now, out.new) ≡ welcomed counted before.now (self.now, out.old)) }
        ensures none { (welcomed counted before.now (self.now, [])).1 ≡ [] → IsOk result }
    {
        if !counted {
            return Ok(());
        }
        let added = self.added_to(before)?;
        self.welcome_all(added.as_slice(), out)
    }

    /// Puts back the command that was in flight at a slot, where the slot went to another command,
    /// which was learnt.
    fn lose(
        &mut self,
        counted: bool,
        command: &Command,
        other: Option<Command>,
    ) -> Result<(), OutOfMemory>
        ensures row { OnOk result (self.new ≡ slot_lost counted command.now other self.old) }
        ensures none { KeepsQueues self.old (slot_lost counted command.now other self.old) →
            IsOk result }
    {
        let Some(other) = other else {
            return Ok(());
        };
        if counted || same_command(&other, command) {
            return Ok(());
        }
        self.put_back(other)
    }

    /// Drops what is in flight or ready at a slot that is executed. A command in flight that lost
    /// the slot to another, learnt one goes back to its queue. `counted`: this replica led, and
    /// counted the votes for the command; else it learnt the command from another node. After
    /// `Err(OutOfMemory)` the replica may only be dropped.
    #[tactic(auto, unfolding(sc_node_table::specs::Execute::landed))]
    pub fn land(
        &mut self,
        counted: bool,
        slot: u32,
        command: &Command,
        out: &Sequence<Mail>,
    ) -> Result<(), OutOfMemory>
        ensures row { OnOk result
            ((self.new, out.now) ≡ landed counted slot command.now (self.old, out.now)) }
        ensures none { KeepsQueues self.old (landed counted slot command.now (self.old, [])).0 →
            IsOk result }
    {
        drop_ready(&mut self.ready, slot);
        let other = self.leader.land(slot);
        self.lose(counted, command, other)
    }

    /// Stops a replica that runs, where its group is gone or its node is no longer a member:
    /// clients with a request in flight, ready or queued are answered so, and the desk gets a result
    /// of each queued order. Does nothing for a replica that does not run. Mails are appended to those
    /// that are there. After `Err(OutOfMemory)` the replica may only be dropped.
    #[tactic(auto, unfolding(sc_node_table::specs::Execute::left))]
    pub fn leave(&mut self, out: &mut Sequence<Mail>) -> Result<(), OutOfMemory>
        ensures row { OnOk result ((self.new, out.new) ≡ left (self.old, out.old)) }
        ensures none { (left (self.old, [])).1 ≡ [] → IsOk result }
    {
        if !self.running {
            return Ok(());
        }
        if let Some(into) = &self.machine.core().gone {
            let body = AnswerBody::Gone { into: *into };
            return self.end(None, &body, out);
        }
        if self.has_member(self.me) {
            return Ok(());
        }
        let least = self.machine.core().members.least();
        self.stop(Some(least), out)
    }

    /// Returns whether the replica need not look for a leader: it runs, the group is gone, or its
    /// hint is a member.
    fn is_led(&self) -> bool
        ensures { result
            ≡ (self.now.running
            || (is_some self.now.group.core.gone || is_among (members self.now) self.now.hint)) }
    {
        if self.running || self.machine.core().gone.is_some() {
            return true;
        }
        match self.hint {
            None => false,
            Some(node) => self.has_member(node),
        }
    }

    /// Takes the least member for the leader where the replica does not run, its group is not gone,
    /// and the node that it takes for the leader is no member. Where that member is its own node,
    /// asks to be elected. Mails are appended to those that are there. After `Err(OutOfMemory)` the
    /// replica may only be dropped.
    #[tactic(auto, unfolding(sc_node_table::specs::Execute::looked))]
    pub fn look(&mut self, out: &mut Sequence<Mail>) -> Result<(), OutOfMemory>
        ensures row { OnOk result ((self.new, out.new) ≡ looked (self.old, out.old)) }
        ensures none { (looked (self.old, [])).1 ≡ [] → IsOk result }
    {
        if self.is_led() {
            return Ok(());
        }
        let least = self.machine.core().members.least();
        self.hint = Some(least);
        if least == self.me {
            return self.elect(out);
        }
        Ok(())
    }

    /// Returns whether a command may be executed at the next slot: it is below `LAST_SLOT` and the
    /// number of open slots together.
    pub fn has_room(&self) -> bool
        ensures same { result ≡ has_room self.now }
        ensures room { result ≡ true → next self.now < last_slot + slots_ahead }
    {
        self.next() < LAST_SLOT + self.open_slots() as u32
    }

    /// Returns a copy of the command that is ready at the next slot, where the replica runs.
    pub fn next_ready(&self) -> Result<Option<Command>, OutOfMemory>
        ensures ready { IfOk result (λ command. command ≡ next_ready self.now) }
        ensures none { next_ready self.now ≡ None → IsOk result }
        ensures room { IfOk result
            (λ command. IfSome command (λ _. next self.now < last_slot + slots_ahead)) }
    {
        if self.running && self.has_room() {
            return dup_found(ready_at(&self.ready, self.next()), self.alloc);
        }
        Ok(None)
    }
}
