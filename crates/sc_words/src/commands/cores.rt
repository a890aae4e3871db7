//! The state of a group.
ghost use Rattle.std.specs.Prelude.{◌≡◌};
ghost use Rattle.sc_words.specs.commands.Cores.{is_alone};

use crate::commands::bodies::{Body, Offer, Watch};
use crate::commands::links::{Link, Route};
use crate::commands::votes::{DecidedList, Heard, VotedList};
use sc_base::{
    Draw, Dup, Members, OutOfMemory, Pairs, RingArc, Same, SeenList, Sequence, same_draw,
};
use std::alloc::Global;

/// The transaction that binds a group, if any. A group serves its keys only while it is free or a
/// watcher.
#[derive(Clone, PartialEq, Eq, Drop)]
pub enum Lock {
    /// The group is in no transaction.
    Free,
    /// The group has begun the transaction `tx`. `heard` is the participant's Yes, where it is
    /// recorded and the watcher's vote is still missing.
    Coordinating {
        tx: Draw,
        body: Body,
        order: u32,
        heard: Option<Heard>,
    },
    /// The group has voted Yes as a participant.
    Promised {
        tx: Draw,
        offer: Offer,
    },
    /// The group has voted Yes as a watcher.
    Watching {
        tx: Draw,
        watch: Watch,
    },
}

/// The state of a group without its pairs and its client table.
#[derive(Clone, PartialEq, Eq, Drop)]
pub struct Core {
    /// The group's name.
    pub id: Draw,
    /// The node that leads the group from its creation: its least member at that time.
    pub first: u16,
    /// The group's arc of the ring.
    pub arc: RingArc,
    /// The nodes that are members now.
    pub members: Members,
    /// The group that serves the positions from the end of this arc on.
    pub succ: Link,
    /// The group that serves the positions up to the start of this arc.
    pub pred: Link,
    /// The transaction that binds the group, if any.
    pub lock: Lock,
    /// How many transactions the group has begun.
    pub begun: u32,
    /// The outcomes that the group has decided as a coordinator.
    pub decided: DecidedList,
    /// The votes that the group has cast as a participant or a watcher.
    pub voted: VotedList,
    /// The groups that this group has split off, oldest first.
    pub born: Sequence<Draw>,
    /// The group into which this one was merged, if it was.
    pub gone: Option<Route>,
}

/// The whole state of a group, from which a replica starts.
#[derive(Clone, PartialEq, Eq, Drop)]
pub struct Base {
    /// The group's state without pairs and client table.
    pub core: Core,
    /// The group's keys and values.
    pub pairs: Pairs,
    /// The group's client table.
    pub clients: SeenList,
}

impl Core {
    /// Returns whether the group is its own successor.
    pub fn is_alone(&self) -> bool
        ensures { result ≡ is_alone self.now }
    {
        same_draw(self.succ.group, self.id)
    }
}

impl Dup for Lock {
    fn dup(&self, _alloc: Global) -> Result<Lock, OutOfMemory> {
        Ok(self.clone()?)
    }
}

impl Dup for Core {
    fn dup(&self, _alloc: Global) -> Result<Core, OutOfMemory> {
        Ok(self.clone()?)
    }
}

impl Dup for Base {
    fn dup(&self, _alloc: Global) -> Result<Base, OutOfMemory> {
        Ok(self.clone()?)
    }
}

impl Same for Lock {
    #[tactic(auto, using(sc_base::proofs::EqualityLemmas::told, crate::proofs::CommandsProofs::Exact::lock))]
    fn is_same(&self, other: &Lock) -> bool {
        self == other
    }
}

impl Same for Core {
    #[tactic(auto, using(sc_base::proofs::EqualityLemmas::told, crate::proofs::CommandsProofs::Exact::core))]
    fn is_same(&self, other: &Core) -> bool {
        self == other
    }
}

impl Same for Base {
    #[tactic(auto, using(sc_base::proofs::EqualityLemmas::told, crate::proofs::CommandsProofs::Exact::base))]
    fn is_same(&self, other: &Base) -> bool {
        self == other
    }
}
