//! What a transaction between groups does, and what its coordinator asks of its parties. Scatter,
//! SOSP 2011, multi-group operations.
ghost use Rattle.std.specs.Prelude.{◌≡◌};

use crate::commands::links::Link;
use sc_base::{Draw, Dup, Members, OutOfMemory, RingArc, Same};
use std::alloc::Global;

/// What a transaction changes.
#[derive(Clone, Copy, PartialEq, Eq)]
pub enum Body {
    /// The coordinator takes over the arc and the members of its successor, which is gone then.
    Merge,
    /// The boundary between the coordinator and its successor moves to `at`.
    Repart { at: u32 },
    /// `node` leaves the coordinator and joins its successor.
    Migrate { node: u16 },
    /// The coordinator's part from `at` on becomes the new group `child`.
    Split { at: u32, child: Draw },
}

/// The request of a coordinator to its participant, to vote on a change.
#[derive(Clone, Copy, PartialEq, Eq)]
pub struct Offer {
    /// The coordinator.
    pub coord: Draw,
    /// The participant, which is the coordinator's successor.
    pub part: Draw,
    /// The coordinator's arc.
    pub arc: RingArc,
    /// The coordinator's members.
    pub members: Members,
    /// The change that the transaction makes.
    pub body: Body,
    /// The node of the coordinator that asks.
    pub by: u16,
}

/// The request of a coordinator to its watcher, to vote on the replacement of its predecessor. A
/// watcher is a group whose predecessor a transaction replaces.
#[derive(Clone, Copy, PartialEq, Eq)]
pub struct Watch {
    /// The coordinator.
    pub coord: Draw,
    /// The coordinator's members.
    pub members: Members,
    /// The watcher.
    pub part: Draw,
    /// The watcher's predecessor, which is to be replaced.
    pub old: Draw,
    /// The watcher's next predecessor.
    pub next: Link,
    /// The node of the coordinator that asks, one of `members`.
    pub by: u16,
}

impl Dup for Body {
    fn dup(&self, _alloc: Global) -> Result<Body, OutOfMemory>
        ensures { result ≡ Ok self.now }
    {
        Ok(*self)
    }
}

impl Dup for Offer {
    fn dup(&self, _alloc: Global) -> Result<Offer, OutOfMemory>
        ensures { result ≡ Ok self.now }
    {
        Ok(*self)
    }
}

impl Dup for Watch {
    fn dup(&self, _alloc: Global) -> Result<Watch, OutOfMemory>
        ensures { result ≡ Ok self.now }
    {
        Ok(*self)
    }
}

impl Same for Body {
    fn is_same(&self, other: &Body) -> bool {
        self == other
    }
}

impl Same for Offer {
    fn is_same(&self, other: &Offer) -> bool {
        self == other
    }
}

impl Same for Watch {
    fn is_same(&self, other: &Watch) -> bool {
        self == other
    }
}
