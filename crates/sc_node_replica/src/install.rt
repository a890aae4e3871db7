//! Install: the executed state is sent to a node, and a replica that has executed less takes it
//! over.
ghost use Rattle.std.specs.Prelude.{◌≡◌, ◌≤◌, [], false, true, IfOk, OnOk, IsOk, length, Some, if◌then◌else◌};
ghost use Rattle.sc_node_table.specs.Slots.{slots_ahead};
ghost use Rattle.sc_node_table.specs.Replica.{last_slot, next};
ghost use Rattle.sc_node_table.specs.Election.{stopped};
ghost use Rattle.sc_node_table.specs.Install.{install_to, asked_to_promise, welcomed_all, named, jumped};
ghost use Rattle.sc_node_replica.specs.IdleInputs.{ignores};
ghost use Rattle.sc_node_table.specs.Rows.{looked_up, took_over, install_row, made_by};

use crate::replica::{LAST_SLOT, Replica};
use sc_base::{Draw, Dup, OutOfMemory, Sequence};
use sc_group::Machine;
use sc_mail::{Mail, MailBody};
use sc_node_choices::{Sets, waits_in};
use sc_node_parts::{replica as parts, send};
use sc_words::{Base, MemberSets};
use std::alloc::Global;

/// Returns a copy of a state under this name of its group.
fn named(alloc: Global, group: Draw, base: &Base) -> Result<Base, OutOfMemory>
    ensures { IfOk result (λ made. made ≡ named group base.now) }
{
    let mut base = base.dup(alloc)?;
    base.core.id = group;
    Ok(base)
}

impl Replica {
    /// Appends a mail to a node with the executed state, its last slot and the members of the open
    /// slots.
    #[tactic(auto, unfolding(sc_node_table::specs::Install::install_to))]
    pub(crate) fn send_install(
        &self,
        node: u16,
        out: &mut Sequence<Mail>,
    ) -> Result<(), OutOfMemory>
        ensures { OnOk result ((self.now, out.new) ≡ install_to node (self.now, out.old)) }
    {
        let base = self.machine.base()?;
        let sets = self.sets.list(self.alloc)?;
        let last = self.next() - 1;
        parts::send_install(
            self.alloc,
            self.me,
            self.name(),
            node,
            last,
            base,
            sets,
            out,
        )
    }

    /// Appends a prepare of the leader's ballot to a node that was added as a member. Does nothing
    /// where that is the group's first ballot.
    fn ask_to_promise(&self, node: u16, out: &mut Sequence<Mail>) -> Result<(), OutOfMemory>
        ensures row { OnOk result
            ((self.now, out.new) ≡ asked_to_promise node (self.now, out.old)) }
        ensures first { self.now.leader.is_first ≡ true → IsOk result }
    {
        if self.leader.is_first() {
            return Ok(());
        }
        let body = MailBody::Prepare {
            group: self.name(),
            ballot: self.leader.ballot(),
            from_slot: self.next(),
        };
        send(self.me, node as u32, body, out)
    }

    /// Sends the executed state to each of these nodes, and asks it to promise the leader's ballot.
    #[tactic(auto, unfolding(sc_node_table::specs::Install::welcomed_all))]
    pub(crate) fn welcome_all(
        &self,
        nodes: &[u16],
        out: &mut Sequence<Mail>,
    ) -> Result<(), OutOfMemory>
        ensures row { OnOk result
            ((self.now, out.new) ≡ welcomed_all nodes.now (self.now, out.old)) }
        ensures none { nodes.now ≡ [] → IsOk result }
    {
        for node in nodes {
            self.send_install(*node, out)?;
            self.ask_to_promise(*node, out)?;
        }
        Ok(())
    }

    /// Takes over a state that was sent: state, log and members of the open slots are those after
    /// this slot.
    #[tactic(auto, unfolding(sc_node_table::specs::Install::jumped))]
    fn jump(&mut self, slot: u32, base: &Base, sets: &MemberSets) -> Result<(), OutOfMemory>
        requires later { next self.old ≤ slot }
        requires most { slot ≤ last_slot }
        requires four { length sets.now ≡ slots_ahead }
        ensures { OnOk result (self.new ≡ jumped slot base.now sets.now self.old) }
    {
        let base = named(self.alloc, self.name(), base)?;
        self.waits = waits_in(&base.core.lock, self.waits);
        self.machine = Machine::born(self.alloc, base)?;
        self.log.install(slot);
        self.sets = Sets::of(self.alloc, sets)?;
        self.forget(slot);
        Ok(())
    }

    /// Takes the sender of a state for the leader if it is a member, and looks for a leader
    /// otherwise.
    #[tactic(auto, unfolding(sc_node_table::specs::Rows::looked_up))]
    fn look_up(&mut self, from: u16, out: &mut Sequence<Mail>) -> Result<(), OutOfMemory>
        ensures row { OnOk result ((self.new, out.new) ≡ looked_up from (self.old, out.old)) }
        ensures none { (looked_up from (self.old, [])).1 ≡ [] → IsOk result }
    {
        if self.has_member(from) {
            self.take_hint(from);
            return Ok(());
        }
        self.look(out)
    }

    /// Stops a replica that runs, with the sender as its hint. Does nothing for one that does not
    /// run.
    #[tactic(auto, unfolding(sc_node_table::specs::Election::ended))]
    fn make_way(&mut self, from: u16, out: &mut Sequence<Mail>) -> Result<(), OutOfMemory>
        ensures way { OnOk result
            ((self.new, out.new)
            ≡ (if self.old.running then stopped (Some from) (self.old, out.old) else
            (self.old, out.old))) }
        ensures log { OnOk result (self.new.log ≡ self.old.log) }
        ensures none { self.old.running ≡ false → IsOk result }
    {
        if !self.running {
            return Ok(());
        }
        self.stop(Some(from), out)
    }

    /// Stops a replica that runs, with the sender as its hint, and takes over the state that was
    /// sent.
    #[tactic(auto, unfolding(sc_node_table::specs::Rows::took_over))]
    fn take_over(
        &mut self,
        from: u16,
        slot: u32,
        base: &Base,
        sets: &MemberSets,
        out: &mut Sequence<Mail>,
    ) -> Result<(), OutOfMemory>
        requires later { next self.old ≤ slot }
        requires most { slot ≤ last_slot }
        requires four { length sets.now ≡ slots_ahead }
        ensures { OnOk result
            ((self.new, out.new) ≡ took_over from slot base.now sets.now (self.old, out.old)) }
    {
        self.make_way(from, out)?;
        self.jump(slot, base, sets)?;
        self.look_up(from, out)
    }

    /// Returns whether an Install is ignored: its slot is executed already or is above the last
    /// slot, or it does not have the members of as many slots as are open.
    fn ignores(&self, slot: u32, sets: &MemberSets) -> bool
        ensures same { result ≡ ignores slot sets.now self.now }
        ensures four { length self.now.sets ≡ slots_ahead }
    {
        sets.len() != self.open_slots() || LAST_SLOT < slot || slot < self.next()
    }

    /// Handles an Install: takes over the state that was sent, unless it is ignored.
    #[tactic(auto, unfolding(sc_node_table::specs::Rows::install_row))]
    pub(crate) fn on_install(
        &mut self,
        from: u16,
        slot: u32,
        base: &Base,
        sets: &MemberSets,
        out: &mut Sequence<Mail>,
    ) -> Result<(), OutOfMemory>
        ensures row { OnOk result
            ((self.new, out.new) ≡ install_row from slot base.now sets.now (self.old, out.old)) }
        ensures ignored { ignores slot sets.now self.old ≡ true → IsOk result }
    {
        if self.ignores(slot, sets) {
            return Ok(());
        }
        self.take_over(from, slot, base, sets, out)
    }

    /// Returns a replica of a group that is made of the state after a slot, as a node sent it, and
    /// the mails of an election that it may begin. It holds no entry. The slot is at most 2^32 - 8,
    /// and there is a set of members for each open slot.
    #[tactic(auto, unfolding(sc_node_table::specs::Rows::made_by))]
    pub fn installed(
        alloc: Global,
        me: u16,
        from: u16,
        group: Draw,
        slot: u32,
        base: &Base,
        sets: &MemberSets,
    ) -> Result<(Replica, Sequence<Mail>), OutOfMemory>
        requires most { slot ≤ last_slot }
        requires four { length sets.now ≡ slots_ahead }
        ensures { IfOk result (λ made. made ≡ made_by me from group slot base.now sets.now) }
    {
        let sets = Sets::of(alloc, sets)?;
        let mut replica = Replica::after(alloc, me, slot, named(alloc, group, base)?, sets)?;
        let mut out = Sequence::new(alloc);
        replica.look_up(from, &mut out)?;
        Ok((replica, out))
    }
}
