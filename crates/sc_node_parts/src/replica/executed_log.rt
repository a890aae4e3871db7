//! The executed entries of a replica.
ghost use Rattle.std.specs.Prelude.{◌≡◌, ◌+◌, ◌<◌, ◌≤◌, OnOk};
ghost use Rattle.std.specs.Option.{option_copied};
ghost use Rattle.sc_words.specs.paxos.Logs.{empty_log, entry_at, installed, log_cut, next_of};
ghost use Rattle.sc_node_table.specs.Slots.{slots_ahead};
ghost use Rattle.sc_node_table.specs.Replica.{last_slot};
ghost use Rattle.sc_node_table.specs.Execute.{with_entry};

use sc_base::OutOfMemory;
use sc_paxos::Glog;
use sc_words::Command;
use std::alloc::Global;
use std::marker::Model;

/// A log that ends at the last slot that a replica can execute, so that the open slots are numbers
/// of 32 bits.
#[derive(Drop)]
pub struct Entries {
    log: Glog<Command>,
}

impl Model for Entries {
    ghost use Rattle.std.specs.Prelude.{◌+◌, ◌≤◌};
    ghost use Rattle.sc_words.specs.declared.commands.commands.Command.{Command};
    ghost use Rattle.sc_words.specs.paxos.Logs.{LogState, next_of};
    ghost use Rattle.sc_node_table.specs.Slots.{slots_ahead};
    ghost use Rattle.sc_node_table.specs.Replica.{last_slot};

    ghost Value = { LogState Command };

    ghost view = { λ e. e.log };

    ghost invariant = { λ e. next_of e.log ≤ last_slot + slots_ahead };
}

impl Entries {
    /// Returns an empty log.
    pub fn born(alloc: Global) -> Entries
        ensures { result ≡ empty_log }
    {
        Entries {
            log: Glog::born(alloc),
        }
    }

    /// Returns an empty log that starts after a slot.
    pub fn after(alloc: Global, slot: u32) -> Entries
        requires { slot ≤ last_slot }
        ensures { result ≡ installed slot }
    {
        let mut log = Glog::born(alloc);
        if slot > 0 {
            log.install(slot);
        }
        Entries { log }
    }

    /// Returns the slot after the last entry.
    pub fn next(&self) -> u32
        ensures same { result ≡ next_of self.now }
        ensures most { next_of self.now ≤ last_slot + slots_ahead }
    {
        self.log.next()
    }

    /// Returns the entry of a slot, if it is held.
    pub fn entry(&self, slot: u32) -> Option<&Command>
        ensures same { option_copied result ≡ entry_at slot self.now }
        ensures most { next_of self.now ≤ last_slot + slots_ahead }
    {
        self.log.entry(slot)
    }

    /// Appends the entry of the next slot.
    pub fn put(&mut self, command: Command) -> Result<(), OutOfMemory>
        requires { next_of self.old < last_slot + slots_ahead }
        ensures { OnOk result (self.new ≡ with_entry command self.old) }
    {
        let next = self.log.next();
        self.log.learn(next, command)?;
        Ok(())
    }

    /// Starts the log after a slot, and drops its entries.
    pub fn install(&mut self, slot: u32)
        requires least { next_of self.old ≤ slot }
        requires most { slot ≤ last_slot }
        ensures { self.new ≡ installed slot }
    {
        self.log.install(slot);
    }

    /// Drops the entries at slots not above `upto`. It takes no memory.
    pub fn cut(&mut self, upto: u32)
        requires { upto < next_of self.old }
        ensures { self.new ≡ log_cut upto self.old }
    {
        self.log.cut(upto);
    }
}
