//! Mails of a replica to several nodes, appended to those that are there.
ghost use Rattle.std.specs.Prelude.{◌≡◌, [], All, OnOk, IsOk};
ghost use Rattle.sc_mail.specs.declared.bodies.MailBody.TheVariants.{Prepare, Accept, Learn};
ghost use Rattle.sc_node_table.specs.Replica.{name_of};
ghost use Rattle.sc_node_table.specs.Mails.{sent_all, sent_others};

use crate::replica::Replica;
use sc_base::{Ballot, OutOfMemory, Sequence};
use sc_mail::Mail;
use sc_node_parts::replica as parts;
use sc_words::Command;

impl Replica {
    /// Appends a prepare of a ballot, from a slot on, to each of these nodes (Paxos Made Simple,
    /// section 2.2, phase 1a).
    pub(crate) fn send_prepares(
        &self,
        nodes: &[u16],
        ballot: Ballot,
        from_slot: u32,
        out: &mut Sequence<Mail>,
    ) -> Result<(), OutOfMemory>
        ensures mails { OnOk result
            (out.new
            ≡ sent_all self.now.me nodes.now (Prepare (name_of self.now) ballot from_slot)
            out.old) }
        ensures none { nodes.now ≡ [] → IsOk result }
    {
        parts::send_prepares(self.me, self.name(), nodes, ballot, from_slot, out)
    }

    /// Appends an accept of a command at a slot, in the leader's ballot, to each of these nodes
    /// (Paxos Made Simple, section 2.2, phase 2a).
    pub(crate) fn send_accepts(
        &self,
        nodes: &[u16],
        slot: u32,
        command: &Command,
        out: &mut Sequence<Mail>,
    ) -> Result<(), OutOfMemory>
        ensures mails { OnOk result
            (out.new
            ≡ sent_all self.now.me nodes.now
            (Accept (name_of self.now) self.now.leader.ballot slot command.now) out.old) }
        ensures none { nodes.now ≡ [] → IsOk result }
    {
        let ballot = self.leader.ballot();
        parts::send_accepts(
            self.alloc,
            self.me,
            self.name(),
            nodes,
            ballot,
            slot,
            command,
            out,
        )
    }

    /// Appends a learn of the chosen command of a slot to each of these nodes but the sender (Paxos
    /// Made Simple, section 2.3).
    pub(crate) fn send_learns(
        &self,
        nodes: &[u16],
        slot: u32,
        command: &Command,
        out: &mut Sequence<Mail>,
    ) -> Result<(), OutOfMemory>
        ensures mails { OnOk result
            (out.new
            ≡ sent_others self.now.me nodes.now (Learn (name_of self.now) slot command.now)
            out.old) }
        ensures alone { All (λ node. node ≡ self.now.me) nodes.now → IsOk result }
    {
        parts::send_learns(self.alloc, self.me, self.name(), nodes, slot, command, out)
    }
}
