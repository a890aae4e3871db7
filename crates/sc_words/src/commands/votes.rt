//! Votes of the parties of a transaction, and its outcome.
ghost use Rattle.std.specs.Prelude.{◌≡◌};

use crate::commands::links::{Link, Route};
use sc_base::{Boxed, Draw, Dup, Members, OutOfMemory, Pairs, RingArc, Same, SeenList, Sequence};
use std::alloc::Global;

/// The record of a participant, which does not change from its Yes to the outcome.
#[derive(Clone, PartialEq, Eq, Drop)]
pub struct Frozen {
    pub arc: RingArc,
    pub members: Members,
    pub succ: Link,
    pub pairs: Pairs,
    pub clients: SeenList,
}

/// A participant's Yes that its coordinator has recorded, and the node that sent it.
#[derive(Clone, PartialEq, Eq, Drop)]
pub struct Heard {
    pub frozen: Frozen,
    pub by: u16,
}

/// The reason why a party votes No.
#[derive(Clone, Copy, PartialEq, Eq)]
pub enum No {
    /// The party is locked in the transaction `tx`.
    Busy { tx: Draw },
    /// The party was merged into another group.
    Gone,
    /// The party is not the neighbour that the coordinator takes it for.
    Apart,
    /// A group would have `n` members, which are too many.
    TooMany { n: u8 },
}

/// A participant's vote.
#[derive(Clone, PartialEq, Eq, Drop)]
pub enum Vote {
    /// A Yes, with the participant's record.
    Yes(Boxed<Frozen>),
    /// A No, with its reason.
    No(No),
}

/// A vote that a group remembers having cast itself, or that the transaction has ended there.
#[derive(Clone, Copy, PartialEq, Eq)]
pub enum Past {
    /// The group has voted Yes.
    Yes,
    /// The group has voted No.
    No(No),
    /// The transaction has ended at this group.
    Ended,
}

/// The pairs and client table that go with a moved boundary to the group that gains the arc.
#[derive(Clone, PartialEq, Eq, Drop)]
pub struct Gift {
    pub pairs: Pairs,
    pub clients: SeenList,
}

/// The outcome that a coordinator has decided.
#[derive(Clone, PartialEq, Eq, Drop)]
pub enum Outcome {
    /// Nothing changes.
    Abort,
    /// The participant is merged into the coordinator, whose new route is `into`.
    Merged { into: Route },
    /// The boundary is now at `at`. The participant gets a gift where it gains the arc.
    Moved { at: u32, gift: Option<Boxed<Gift>> },
    /// The node has left the coordinator and is to join the participant.
    Migrated { node: u16 },
    /// The coordinator has split.
    Divided,
}

/// The outcomes that a group has decided, by transaction, oldest first.
pub type DecidedList = Sequence<(Draw, Outcome)>;

/// The votes that a group has cast, by transaction, oldest first.
pub type VotedList = Sequence<(Draw, Past)>;

impl Dup for Frozen {
    fn dup(&self, _alloc: Global) -> Result<Frozen, OutOfMemory> {
        Ok(self.clone()?)
    }
}

impl Dup for Heard {
    fn dup(&self, _alloc: Global) -> Result<Heard, OutOfMemory> {
        Ok(self.clone()?)
    }
}

impl Dup for No {
    fn dup(&self, _alloc: Global) -> Result<No, OutOfMemory>
        ensures { result ≡ Ok self.now }
    {
        Ok(*self)
    }
}

impl Dup for Vote {
    fn dup(&self, _alloc: Global) -> Result<Vote, OutOfMemory> {
        Ok(self.clone()?)
    }
}

impl Dup for Past {
    fn dup(&self, _alloc: Global) -> Result<Past, OutOfMemory>
        ensures { result ≡ Ok self.now }
    {
        Ok(*self)
    }
}

impl Dup for Gift {
    fn dup(&self, _alloc: Global) -> Result<Gift, OutOfMemory> {
        Ok(self.clone()?)
    }
}

impl Dup for Outcome {
    fn dup(&self, _alloc: Global) -> Result<Outcome, OutOfMemory> {
        Ok(self.clone()?)
    }
}

impl Same for Frozen {
    #[tactic(auto, using(sc_base::proofs::EqualityLemmas::told, crate::proofs::CommandsProofs::Exact::frozen))]
    fn is_same(&self, other: &Frozen) -> bool {
        self == other
    }
}

impl Same for Heard {
    #[tactic(auto, using(sc_base::proofs::EqualityLemmas::told, crate::proofs::CommandsProofs::Exact::heard))]
    fn is_same(&self, other: &Heard) -> bool {
        self == other
    }
}

impl Same for No {
    fn is_same(&self, other: &No) -> bool {
        self == other
    }
}

impl Same for Vote {
    #[tactic(auto, using(sc_base::proofs::EqualityLemmas::told, crate::proofs::CommandsProofs::Exact::vote))]
    fn is_same(&self, other: &Vote) -> bool {
        self == other
    }
}

impl Same for Past {
    fn is_same(&self, other: &Past) -> bool {
        self == other
    }
}

impl Same for Gift {
    #[tactic(auto, using(sc_base::proofs::EqualityLemmas::told, crate::proofs::CommandsProofs::Exact::gift))]
    fn is_same(&self, other: &Gift) -> bool {
        self == other
    }
}

impl Same for Outcome {
    #[tactic(auto, using(sc_base::proofs::EqualityLemmas::told, crate::proofs::CommandsProofs::Exact::outcome))]
    fn is_same(&self, other: &Outcome) -> bool {
        self == other
    }
}
