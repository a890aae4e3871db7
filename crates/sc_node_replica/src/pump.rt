//! Pump: a settled replica offers queued commands at its open slots.
ghost use Rattle.std.specs.Prelude.{◌≡◌, ◌+◌, ◌<◌, ◌≤◌, ◌==◌, IfOk, OnOk, IsOk, IfSome, [], length, is_some, None, true, false, slice_index_or};
ghost use Rattle.std.specs.List.{list_any};
ghost use Rattle.sc_words.specs.paxos.Leaders.{Obeys, flight_at, must};
ghost use Rattle.sc_words.specs.paxos.Choice.{chosen_value};
ghost use Rattle.sc_node_table.specs.Slots.{slots_ahead};
ghost use Rattle.sc_node_table.specs.Replica.{next, settled, may_offer, taken_at, listed, under_way, is_idle, last_slot};
ghost use Rattle.sc_node_parts.specs.replica.Heads.{head_waits};
ghost use Rattle.sc_node_table.specs.Pump.{is_act, next_queued, from_backlog, from_acts, from_queues, found_for, offered, pumped_from, pumped};

use crate::replica::{LAST_SLOT, Replica};
use sc_base::{Dup, OutOfMemory, Sequence};
use sc_mail::Mail;
use sc_node_choices::{is_act, turned_down, waits};
use sc_node_parts::{answer_command, head, is_empty, take_head};
use sc_paxos::Must;
use sc_words::{Command, Core, Lock};
use std::alloc::Global;
use std::collections::VecDeque;

// Returns whether the head of the queue of requests and orders has to wait, or there is none.
fn head_waits(idle: bool, lock: &Lock, backlog: &VecDeque<Command>) -> bool
    ensures { result ≡ head_waits idle lock.now backlog.now.items }
{
    match head(backlog) {
        None => true,
        Some(command) => waits(idle, lock, command),
    }
}

/// Returns the command at the head of the queue of requests and orders, if it may have a slot.
/// Requests before it that the group does not serve are answered and leave the queue.
fn next_queued(
    alloc: Global,
    me: u16,
    idle: bool,
    core: &Core,
    backlog: &mut VecDeque<Command>,
    out: &mut Sequence<Mail>,
) -> Result<Option<Command>, OutOfMemory>
    ensures found { IfOk result
        (λ command.
        (command, backlog.new.items, out.new) ≡ next_queued me idle core.now backlog.old.items out.old) }
    ensures none { (next_queued me idle core.now backlog.old.items []).2 ≡ [] → IsOk result }
{
    while !head_waits(idle, &core.lock, backlog) {
        let Some(command) = take_head(backlog) else {
            return Ok(None);
        };
        match turned_down(core, &command) {
            None => return Ok(Some(command)),
            Some(body) => answer_command(alloc, me, core.id, &body, &command, out)?,
        }
    }
    Ok(None)
}

impl Replica {
    /// Returns whether the leader may offer at an open slot, counted from the next one: no higher
    /// ballot was promised here, and its ballot is the first or a majority of the slot's members
    /// has promised it.
    fn may_offer(&self, i: usize) -> bool
        requires { i < slots_ahead }
        ensures { result ≡ may_offer self.now (slice_index_or self.now.sets i []) }
    {
        self.leader
            .settled(self.acceptor.promised(), self.sets.at(i))
    }

    /// Returns whether the replica runs and may offer at the next slot: its node has promised no
    /// higher ballot, and its ballot is the group's first or a majority of the slot's members has
    /// promised it.
    pub fn is_settled(&self) -> bool
        ensures { result ≡ settled self.now }
    {
        if !self.running {
            return false;
        }
        self.leader
            .settled(self.acceptor.promised(), self.sets.first())
    }

    /// Returns whether a command is in flight or ready at a slot.
    fn is_taken(&self, slot: u32) -> bool
        ensures { result ≡ is_some (taken_at self.now slot) }
    {
        match self.taken(slot) {
            Some(_) => true,
            None => false,
        }
    }

    /// Returns whether nothing is in flight or ready.
    pub(crate) fn is_idle(&self) -> bool
        ensures { result ≡ is_idle self.now }
    {
        let next = self.next();
        for i in 0..self.open_slots() {
            if self.is_taken(next + i as u32) {
                return false;
            }
        }
        true
    }

    /// Returns whether a command other than Call and Noop is in flight or ready at a slot.
    fn is_act_at(&self, slot: u32) -> bool
        ensures { result ≡ list_any is_act (listed (taken_at self.now slot)) }
    {
        match self.taken(slot) {
            Some(command) => is_act(command),
            None => false,
        }
    }

    /// Returns whether a command other than Call and Noop is in flight or ready.
    fn has_act(&self) -> bool
        ensures { result ≡ list_any is_act (under_way self.now) }
    {
        let next = self.next();
        for i in 0..self.open_slots() {
            if self.is_act_at(next + i as u32) {
                return true;
            }
        }
        false
    }

    /// Takes a command for a slot from the queue of requests and orders, if one may have it.
    #[tactic(auto, unfolding(sc_node_table::specs::Pump::from_backlog))]
    fn find_in_backlog(&mut self, out: &mut Sequence<Mail>) -> Result<Option<Command>, OutOfMemory>
        ensures found { IfOk result
            (λ command. (command, (self.new, out.new)) ≡ from_backlog (self.old, out.old)) }
        ensures none { (from_backlog (self.old, [])).1.1 ≡ [] → IsOk result }
        ensures leader { OnOk result (self.new.leader ≡ self.old.leader) }
        ensures sets { OnOk result (self.new.sets ≡ self.old.sets) }
    {
        let idle = self.is_idle();
        next_queued(
            self.alloc,
            self.me,
            idle,
            self.machine.core(),
            &mut self.backlog,
            out,
        )
    }

    /// Takes a command for a slot from the queue of transactions' commands, where nothing is in
    /// flight or ready, and from the queue of requests and orders where that one is empty.
    fn find_in_acts(&mut self, out: &mut Sequence<Mail>) -> Result<Option<Command>, OutOfMemory>
        ensures found { IfOk result
            (λ command.
            (command, (self.new, out.new)) ≡ from_acts self.old.acts (self.old, out.old)) }
        ensures none { (from_acts self.old.acts (self.old, [])).1.1 ≡ [] → IsOk result }
        ensures leader { OnOk result (self.new.leader ≡ self.old.leader) }
        ensures sets { OnOk result (self.new.sets ≡ self.old.sets) }
    {
        if is_empty(&self.acts) {
            return self.find_in_backlog(out);
        }
        if !self.is_idle() {
            return Ok(None);
        }
        Ok(take_head(&mut self.acts))
    }

    /// Takes a command for a slot from the queues. None while a command other than Call and Noop is
    /// in flight or ready.
    #[tactic(auto, unfolding(sc_node_table::specs::Pump::from_queues))]
    fn find_in_queues(&mut self, out: &mut Sequence<Mail>) -> Result<Option<Command>, OutOfMemory>
        ensures found { IfOk result
            (λ command. (command, (self.new, out.new)) ≡ from_queues (self.old, out.old)) }
        ensures none { (from_queues (self.old, [])).1.1 ≡ [] → IsOk result }
        ensures leader { OnOk result (self.new.leader ≡ self.old.leader) }
        ensures sets { OnOk result (self.new.sets ≡ self.old.sets) }
    {
        if self.has_act() {
            return Ok(None);
        }
        self.find_in_acts(out)
    }

    /// Returns the command for a slot: what the leader must propose there, a Noop in a gap, and
    /// else a queued command (Paxos Made Simple, section 3).
    #[tactic(auto, unfolding(sc_node_table::specs::Pump::found_for))]
    fn find_for(
        &mut self,
        slot: u32,
        out: &mut Sequence<Mail>,
    ) -> Result<Option<Command>, OutOfMemory>
        ensures found { IfOk result
            (λ command. (command, (self.new, out.new)) ≡ found_for slot (self.old, out.old)) }
        ensures none { chosen_value slot self.old.leader.reports ≡ None →
            (found_for slot (self.old, [])).1.1 ≡ [] → IsOk result }
        ensures leader { OnOk result (self.new.leader ≡ self.old.leader) }
        ensures sets { OnOk result (self.new.sets ≡ self.old.sets) }
        ensures obeys { IfOk result
            (λ found. IfSome found (λ command. Obeys (must slot self.old.leader) command)) }
    {
        match self.leader.must(slot)? {
            Must::Value(command) => Ok(Some(command)),
            Must::Gap => Ok(Some(Command::Noop)),
            Must::Free => self.find_in_queues(out),
        }
    }

    /// Puts a command into flight at a slot, and asks the slot's members to accept it (Paxos Made
    /// Simple, section 2.2, phase 2a).
    #[tactic(auto, unfolding(sc_node_table::specs::Pump::offered))]
    fn offer(
        &mut self,
        slot: u32,
        i: usize,
        command: &Command,
        out: &mut Sequence<Mail>,
    ) -> Result<(), OutOfMemory>
        requires open { i < slots_ahead }
        requires free { flight_at slot self.old.leader.flights ≡ None }
        requires obeys { Obeys (must slot self.old.leader) command.now }
        ensures offered { OnOk result
            ((self.new, out.new)
            ≡ offered slot (slice_index_or self.old.sets i []) command.now (self.old, out.old)) }
        ensures sets { OnOk result (self.new.sets ≡ self.old.sets) }
    {
        self.leader.offer(slot, command.dup(self.alloc)?)?;
        self.send_accepts(self.sets.at(i).as_slice(), slot, command, out)
    }

    /// Offers at the open slots in their order. A slot at which a command is in flight or ready is
    /// passed by; the first slot at which it may not offer, or has nothing to offer, ends it.
    #[tactic(auto, unfolding(sc_node_table::specs::Pump::pumped_from))]
    fn pump_from(&mut self, first: u32, out: &mut Sequence<Mail>) -> Result<(), OutOfMemory>
        requires { first ≤ last_slot }
        ensures row { OnOk result
            ((self.new, out.new) ≡ pumped_from first self.old.sets (self.old, out.old)) }
        ensures none { pumped_from first self.old.sets (self.old, []) ≡ (self.old, []) →
            IsOk result }
    {
        for i in 0..self.open_slots() {
            let slot = first + i as u32;
            if self.is_taken(slot) {
                continue;
            }
            if !self.may_offer(i) {
                return Ok(());
            }
            let Some(command) = self.find_for(slot, out)? else {
                return Ok(());
            };
            self.offer(slot, i, &command, out)?;
        }
        Ok(())
    }

    /// Offers queued commands, or what the promises oblige the leader to offer, at the open slots
    /// in their order (Paxos Made Simple, section 3). Does nothing where the replica is not settled
    /// (`is_settled`). Mails are appended to those that are there. After `Err(OutOfMemory)` the
    /// replica may only be dropped.
    #[tactic(auto, unfolding(sc_node_table::specs::Pump::pumped))]
    pub fn pump(&mut self, out: &mut Sequence<Mail>) -> Result<(), OutOfMemory>
        ensures row { OnOk result ((self.new, out.new) ≡ pumped (self.old, out.old)) }
        ensures none { pumped (self.old, []) ≡ (self.old, []) → IsOk result }
    {
        if !self.is_settled() {
            return Ok(());
        }
        let next = self.next();
        if LAST_SLOT < next {
            return Ok(());
        }
        self.pump_from(next, out)
    }
}
