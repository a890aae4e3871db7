//! The entries of a group's log.
use crate::commands::bodies::{Body, Offer, Watch};
use crate::commands::votes::{Outcome, Past, Vote};
use sc_base::{Boxed, Draw, Dup, Op, OutOfMemory, Same};
use std::alloc::Global;

/// An entry of a group's log. An `order` of 0 means that a policy, and not an operator, ordered
/// it.
#[derive(Clone, PartialEq, Eq, Drop)]
pub enum Command {
    /// Nothing: it fills a gap in the log. Paxos Made Simple, section 3.
    Noop,
    /// A client's request.
    Call { client: u16, seq: u32, op: Op },
    /// The node becomes a member.
    Join { node: u16, order: u32 },
    /// The node stops being a member.
    Leave { node: u16, order: u32 },
    /// The part from `at` on becomes the new group `child`: at once where the group is its own
    /// successor, and else by a transaction in which the next group watches.
    Split { at: u32, child: Draw, order: u32 },
    /// The group begins, as the coordinator, a transaction with its successor.
    Begin { tx: Draw, body: Body, order: u32 },
    /// The group votes, as a participant, on another group's offer.
    Prepared { tx: Draw, offer: Boxed<Offer> },
    /// The coordinator records the participant's vote.
    RecordVote { tx: Draw, vote: Vote, by: u16 },
    /// The coordinator gives up a transaction that is not decided.
    GiveUp { tx: Draw },
    /// A participant or a watcher executes what the coordinator decided.
    Finish { tx: Draw, outcome: Outcome },
    /// The group votes on another group's request to be a watcher.
    Watched { tx: Draw, watch: Boxed<Watch> },
    /// The coordinator records the watcher's vote.
    RecordWatch { tx: Draw, vote: Past, by: u16 },
}

impl Dup for Command {
    fn dup(&self, _alloc: Global) -> Result<Command, OutOfMemory> {
        Ok(self.clone()?)
    }
}

impl Same for Command {
    #[tactic(auto, using(sc_base::proofs::EqualityLemmas::told, crate::proofs::CommandsProofs::Exact::command))]
    fn is_same(&self, other: &Command) -> bool {
        self == other
    }
}
