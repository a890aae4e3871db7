//! A command that lost its slot goes back to its queue.
ghost use Rattle.std.specs.Prelude.{◌≡◌, OnOk, IsOk};
ghost use Rattle.sc_node_table.specs.Queues.{put_back};
ghost use Rattle.sc_node_replica.specs.IdleInputs.{KeepsQueues};

use crate::replica::Replica;
use sc_base::OutOfMemory;
use sc_node_parts::{push_front, put_request};
use sc_words::Command;

impl Replica {
    /// Puts a command back at the head of its queue. A Noop is dropped; of two requests of a client
    /// the one with the higher number stays.
    #[tactic(auto, unfolding(sc_node_table::specs::Queues::put_back))]
    pub(crate) fn put_back(&mut self, command: Command) -> Result<(), OutOfMemory>
        ensures row { OnOk result (self.new ≡ put_back command self.old) }
        ensures none { KeepsQueues self.old (put_back command self.old) → IsOk result }
    {
        match &command {
            Command::Noop => Ok(()),
            Command::Call { client, seq, .. } => {
                let client = *client;
                let seq = *seq;
                put_request(&mut self.backlog, client, seq, command)
            }
            Command::Join { .. }
            | Command::Leave { .. }
            | Command::Split { .. }
            | Command::Begin { .. } => push_front(&mut self.backlog, command),
            Command::Prepared { .. }
            | Command::RecordVote { .. }
            | Command::GiveUp { .. }
            | Command::Finish { .. }
            | Command::Watched { .. }
            | Command::RecordWatch { .. } => push_front(&mut self.acts, command),
        }
    }
}
