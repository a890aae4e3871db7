//! A replica begins to run, or runs no longer.
ghost use Rattle.std.specs.Prelude.{◌≡◌, ◌+◌, ◌≤◌, [], IfOk, OnOk, IsOk, Some, is_some, length, nat_eq};
ghost use Rattle.std.specs.List.{list_any};
ghost use Rattle.std.specs.Option.{option_copied};
ghost use Rattle.sc_node_table.specs.Replica.{taken_at, listed, under_way, is_idle, next, name_of, last_slot};
ghost use Rattle.sc_node_table.specs.Mails.{answered_all};
ghost use Rattle.sc_node_table.specs.Election.{elected, ended, stopped, saw};

use crate::replica::Replica;
use sc_base::{Ballot, MOST_NODES, OutOfMemory, Sequence};
use sc_mail::{AnswerBody, Mail};
use sc_node_choices::nodes_to;
use sc_node_parts::{answer_command, dismiss_all, ready_at};
use sc_paxos::Leader;
use sc_words::Command;
use std::collections::BTreeMap;

impl Replica {
    /// Runs with the next ballot of its own node, and asks the members of the open slots to promise
    /// it (Paxos Made Simple, section 2.2, phase 1a). Does nothing after the last round, 2^32 - 1.
    /// Mails are appended to those that are there. After `Err(OutOfMemory)` the replica may only be
    /// dropped.
    #[tactic(auto, unfolding(sc_node_table::specs::Election::elected))]
    pub fn elect(&mut self, out: &mut Sequence<Mail>) -> Result<(), OutOfMemory>
        ensures row { OnOk result ((self.new, out.new) ≡ elected (self.old, out.old)) }
        ensures none { (elected (self.old, [])).1 ≡ [] → IsOk result }
    {
        if self.top.round == u32::MAX {
            return Ok(());
        }
        let ballot = Ballot {
            round: self.top.round + 1,
            node: self.me,
        };
        let from_slot = self.next();
        self.top = ballot;
        self.hint = Some(self.me);
        self.running = true;
        self.leader = Leader::elect(self.alloc, ballot, from_slot);
        self.ready = BTreeMap::new(self.alloc);
        self.waits = 0;
        let nodes = nodes_to(self.alloc, MOST_NODES as u16, &self.sets)?;
        self.send_prepares(nodes.as_slice(), ballot, from_slot, out)
    }

    /// Returns the command in flight or ready at a slot.
    pub(crate) fn taken(&self, slot: u32) -> Option<&Command>
        ensures { option_copied result ≡ taken_at self.now slot }
    {
        match self.leader.flight(slot) {
            Some(command) => Some(command),
            None => ready_at(&self.ready, slot),
        }
    }

    /// Sends this answer to the client of a request that is in flight or ready at a slot.
    #[tactic(auto, unfolding(sc_node_table::specs::Mails::answered_all))]
    fn answer_taken(
        &self,
        slot: u32,
        body: &AnswerBody,
        out: &mut Sequence<Mail>,
    ) -> Result<(), OutOfMemory>
        ensures mails { OnOk result
            (out.new
            ≡ answered_all self.now.me (name_of self.now) body.now (listed (taken_at self.now slot))
            out.old) }
        ensures none { answered_all self.now.me (name_of self.now) body.now (listed (taken_at self.now slot)) []
            ≡ [] → IsOk result }
    {
        match self.taken(slot) {
            Some(command) => {
                answer_command(self.alloc, self.me, self.name(), body, command, out)
            }
            None => Ok(()),
        }
    }

    /// Sends this answer to the client of each request that is in flight or ready.
    fn answer_under_way(
        &self,
        body: &AnswerBody,
        out: &mut Sequence<Mail>,
    ) -> Result<(), OutOfMemory>
        ensures mails { OnOk result
            (out.new
            ≡ answered_all self.now.me (name_of self.now) body.now (under_way self.now) out.old) }
        ensures none { answered_all self.now.me (name_of self.now) body.now (under_way self.now) [] ≡ [] →
            IsOk result }
    {
        let next = self.next();
        for i in 0..self.open_slots() {
            self.answer_taken(next + i as u32, body, out)?;
        }
        Ok(())
    }

    /// Ends the run: sends this answer to the client of each request in flight, ready or queued,
    /// and reports to the desk of each queued order that this node does not lead.
    #[tactic(auto, unfolding(sc_node_table::specs::Election::ended))]
    pub(crate) fn end(
        &mut self,
        hint: Option<u16>,
        body: &AnswerBody,
        out: &mut Sequence<Mail>,
    ) -> Result<(), OutOfMemory>
        ensures row { OnOk result ((self.new, out.new) ≡ ended hint body.now (self.old, out.old)) }
        ensures none { (ended hint body.now (self.old, [])).1 ≡ [] → IsOk result }
    {
        self.answer_under_way(body, out)?;
        dismiss_all(
            self.alloc,
            self.me,
            self.name(),
            hint,
            body,
            &self.backlog,
            out,
        )?;
        self.running = false;
        self.leader = Leader::elect(self.alloc, self.leader.ballot(), self.next());
        self.ready = BTreeMap::new(self.alloc);
        self.acts.clear();
        self.backlog.clear();
        self.hint = hint;
        Ok(())
    }

    /// Ends the run with this hint, and answers clients that this node does not lead.
    pub(crate) fn stop(
        &mut self,
        hint: Option<u16>,
        out: &mut Sequence<Mail>,
    ) -> Result<(), OutOfMemory>
        ensures row { OnOk result ((self.new, out.new) ≡ stopped hint (self.old, out.old)) }
        ensures none { (stopped hint (self.old, [])).1 ≡ [] → IsOk result }
    {
        self.end(hint, &AnswerBody::NotLeader { hint }, out)
    }

    /// Notes the ballot of a Prepare, Accept or Nack: raises the greatest ballot seen, and stops a
    /// leader of a lower one.
    #[tactic(auto, unfolding(sc_node_table::specs::Election::saw))]
    pub(crate) fn see(
        &mut self,
        ballot: Ballot,
        out: &mut Sequence<Mail>,
    ) -> Result<(), OutOfMemory>
        ensures row { OnOk result ((self.new, out.new) ≡ saw ballot (self.old, out.old)) }
        ensures none { (saw ballot (self.old, [])).1 ≡ [] → IsOk result }
    {
        if self.top < ballot {
            self.top = ballot;
        }
        if self.running && self.leader.ballot() < ballot {
            let hint = Some(ballot.node);
            return self.stop(hint, out);
        }
        Ok(())
    }
}
