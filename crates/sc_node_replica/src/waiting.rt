//! Commands of transactions and of orders are queued; of one kind and one transaction one is
//! enough.
ghost use Rattle.std.specs.Prelude.{◌≡◌, [], true, OnOk, IsOk};
ghost use Rattle.std.specs.List.{list_any};
ghost use Rattle.sc_node_table.specs.Replica.{taken_at, listed, under_way};
ghost use Rattle.sc_node_table.specs.Queues.{with_order_queued};
ghost use Rattle.sc_node_table.specs.Policy.{is_at_rest};
ghost use Rattle.sc_node_table.specs.Pump.{pumped};
ghost use Rattle.sc_node_table.specs.Acts.{is_of_kind, has_act, with_act, act_queued};

use crate::replica::Replica;
use sc_base::{OutOfMemory, Sequence};
use sc_mail::Mail;
use sc_node_choices::{has_kind, is_at_rest, is_of_kind};
use sc_node_parts::push_back;
use sc_words::Command;

impl Replica {
    /// Returns whether a command of this one's kind and transaction is in flight or ready at a
    /// slot.
    fn is_of_kind_at(&self, act: &Command, slot: u32) -> bool
        ensures { result ≡ list_any (is_of_kind act.now) (listed (taken_at self.now slot)) }
    {
        match self.taken(slot) {
            Some(command) => is_of_kind(act, command),
            None => false,
        }
    }

    /// Returns whether a command of this one's kind and transaction is in flight or ready.
    fn is_under_way(&self, act: &Command) -> bool
        ensures { result ≡ list_any (is_of_kind act.now) (under_way self.now) }
    {
        let next = self.next();
        for i in 0..self.open_slots() {
            if self.is_of_kind_at(act, next + i as u32) {
                return true;
            }
        }
        false
    }

    /// Returns whether a command of this one's kind and transaction is queued, in flight or ready.
    fn has_one_of_kind(&self, act: &Command) -> bool
        ensures { result ≡ has_act act.now self.now }
    {
        has_kind(act, &self.acts) || self.is_under_way(act)
    }

    /// Appends a command of a transaction to its queue, unless one of its kind and transaction is
    /// queued, in flight or ready. After `Err(OutOfMemory)` the replica may only be dropped.
    pub fn put_act(&mut self, act: Command) -> Result<(), OutOfMemory>
        ensures row { OnOk result (self.new ≡ with_act act self.old) }
        ensures known { has_act act self.old ≡ true → IsOk result }
    {
        if self.has_one_of_kind(&act) {
            return Ok(());
        }
        push_back(&mut self.acts, act)
    }

    /// Appends a command of a transaction to its queue, unless one of its kind and transaction is
    /// queued, in flight or ready, and offers what may be offered. Mails are appended to those that
    /// are there. After `Err(OutOfMemory)` the replica may only be dropped.
    #[tactic(auto, unfolding(sc_node_table::specs::Acts::act_queued))]
    pub fn queue_act(&mut self, act: Command, out: &mut Sequence<Mail>) -> Result<(), OutOfMemory>
        ensures row { OnOk result ((self.new, out.new) ≡ act_queued act (self.old, out.old)) }
        ensures known { has_act act self.old ≡ true → pumped (self.old, []) ≡ (self.old, []) →
            IsOk result }
    {
        self.put_act(act)?;
        self.pump(out)
    }

    /// Returns whether nothing is in flight, ready or queued, and no transaction holds the group.
    pub fn is_at_rest(&self) -> bool
        ensures { result ≡ is_at_rest self.now }
    {
        let idle = self.is_idle();
        is_at_rest(idle, &self.acts, &self.backlog, &self.machine.core().lock)
    }

    /// Appends the command of an order to the queue of requests and orders. After `Err(OutOfMemory)`
    /// the replica may only be dropped.
    pub fn put_order(&mut self, command: Command) -> Result<(), OutOfMemory>
        ensures { OnOk result (self.new ≡ with_order_queued command self.old) }
    {
        push_back(&mut self.backlog, command)
    }
}
