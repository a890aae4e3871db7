//! The transition tables of a replica and of a node: the state after each input, and the mail
//! sent. Definitions, no logic.
#![tactic(auto)]

ghost use Rattle.sc_node_table.specs.Election.{AsksTheOpenSets};
ghost use Rattle.sc_node_table.specs.Pump.{StaysSettled};
ghost use Rattle.sc_node_table.specs.Sameness.{DecidesCommands};

use sc_base::Sequence;
use sc_mail::Mail;
use sc_words::{Base, Link, OrderLine};

/// How many slots of a log are open at a time: the members of each slot are those of the state 4
/// entries before it (Paxos Made Simple, section 3).
pub const OPEN_SLOTS: usize = 4;

/// The unit of slots in which old entries are kept or forgotten.
pub const CUT_UNIT: u32 = 64;

/// The most entries that are sent in answer to an Ask.
pub const MOST_TAUGHT: u32 = 32;

/// An input of a replica: a mail for its group, a tick of its node's clock, or an order to its
/// group.
#[derive(Drop)]
pub enum ReplicaInput {
    Got(Mail),
    Tick,
    Told(OrderLine),
}

/// What a step of a replica leaves for its node to do: to make replicas of these new groups, the
/// children.
#[derive(Drop)]
pub struct Made {
    /// The first states of the new groups of which the node is a member.
    pub children: Sequence<Base>,
}

/// What the mails by an entry's effect need of the group as it was before the entry.
#[derive(Clone, Copy)]
pub struct Before {
    /// Whether the group is its own successor.
    pub alone: bool,
    /// The group's successor.
    pub succ: Link,
    /// The number of the order of the transaction that the group coordinates, or 0 where a policy
    /// ordered it or the group coordinates none.
    pub order: u32,
    /// Whether that transaction is a merge.
    pub merges: bool,
    /// The node that sent the participant's Yes, and the successor of the participant, where a Yes
    /// is recorded.
    pub heard: Option<(u16, Link)>,
}

/// States that the table's test of two commands is true exactly where they are equal.
pub fn commands_are_told_apart()
    ensures { DecidesCommands }
{}

/// States that what a settled replica offers in the pump leaves it settled, so that it is enough
/// to test that once.
pub fn settled_replicas_stay_settled()
    ensures { StaysSettled }
{}

/// States that an election asks the union of the members of the open slots, in ascending order,
/// where all members are nodes 1 to 32.
pub fn elections_ask_the_open_sets()
    ensures { AsksTheOpenSets }
{}
