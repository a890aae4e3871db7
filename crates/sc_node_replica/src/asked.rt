//! Ask: a replica sends the entries that it holds, or the executed state.
ghost use Rattle.std.specs.Prelude.{◌≡◌, ◌+◌, ◌<◌, ◌≤◌, [], OnOk, IsOk, IfSome};
ghost use Rattle.std.specs.Option.{option_copied};
ghost use Rattle.sc_words.specs.paxos.Logs.{entry_at};
ghost use Rattle.sc_mail.specs.declared.bodies.MailBody.TheVariants.{Learn};
ghost use Rattle.sc_node_table.specs.Mails.{sent};
ghost use Rattle.sc_node_table.specs.Slots.{slots_ahead};
ghost use Rattle.sc_node_table.specs.Replica.{name_of, next, last_slot};
ghost use Rattle.sc_node_table.specs.Rows.{taught, ask_answered, ask_row};

use crate::replica::Replica;
use sc_base::{Dup, OutOfMemory, Sequence};
use sc_mail::{Mail, MailBody};
use sc_node_parts::send;
use sc_node_table::MOST_TAUGHT;
use sc_words::Command;

impl Replica {
    /// Returns the entry of a slot, if it is held.
    pub(crate) fn entry(&self, slot: u32) -> Option<&Command>
        ensures same { option_copied result ≡ entry_at slot self.now.log }
        ensures held { IfSome result (λ _. slot < next self.now) }
        ensures most { next self.now ≤ last_slot + slots_ahead }
    {
        self.log.entry(slot)
    }

    /// Sends a node the entry of a slot.
    fn teach_one(
        &self,
        from: u16,
        slot: u32,
        command: &Command,
        out: &mut Sequence<Mail>,
    ) -> Result<(), OutOfMemory>
        ensures { OnOk result
            (out.new ≡ sent self.now.me from (Learn (name_of self.now) slot command.now) out.old) }
    {
        let group = self.name();
        send(
            self.me,
            from as u32,
            MailBody::Learn {
                group,
                slot,
                command: command.dup(self.alloc)?,
            },
            out,
        )
    }

    /// Sends a node at most `most` entries, from a slot on, as far as they are held.
    #[tactic(auto, unfolding(sc_node_table::specs::Rows::taught))]
    fn teach(
        &self,
        most: u32,
        from: u16,
        slot: u32,
        out: &mut Sequence<Mail>,
    ) -> Result<(), OutOfMemory>
        ensures mails { OnOk result (out.new ≡ taught most self.now from slot out.old) }
        ensures none { taught most self.now from slot [] ≡ [] → IsOk result }
    {
        let mut at = slot;
        for _sent in 0..most {
            let Some(command) = self.entry(at) else {
                return Ok(());
            };
            self.teach_one(from, at, command, out)?;
            at += 1;
        }
        Ok(())
    }

    /// Answers an Ask from an executed slot: with entries where that slot's entry is held, else
    /// with the executed state.
    fn answer_ask(&self, from: u16, slot: u32, out: &mut Sequence<Mail>) -> Result<(), OutOfMemory>
        ensures { OnOk result
            ((self.now, out.new)
            ≡ ask_answered (entry_at slot self.now.log) from slot (self.now, out.old)) }
    {
        if self.entry(slot).is_none() {
            return self.send_install(from, out);
        }
        self.teach(MOST_TAUGHT, from, slot, out)
    }

    /// Handles an Ask. One from a slot that is not executed is ignored.
    #[tactic(auto, unfolding(sc_node_table::specs::Rows::ask_row))]
    pub(crate) fn on_ask(
        &self,
        from: u16,
        slot: u32,
        out: &mut Sequence<Mail>,
    ) -> Result<(), OutOfMemory>
        ensures row { OnOk result ((self.now, out.new) ≡ ask_row from slot (self.now, out.old)) }
        ensures later { next self.now ≤ slot → IsOk result }
    {
        if self.next() <= slot {
            return Ok(());
        }
        self.answer_ask(from, slot, out)
    }
}
