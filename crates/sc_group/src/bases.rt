//! The record that a group begins with, and the route by which a client comes to know it.
ghost use Rattle.std.specs.Prelude.{◌≡◌};
ghost use Rattle.sc_group.specs.Births.{base_born, route_born};

use sc_base::{Draw, Members, Pairs, RingArc, SeenList, Sequence};
use sc_words::{Base, Core, Link, Lock, Route};
use std::alloc::Global;

/// A group at its creation: its name, its arc, its members and its neighbours on the ring. A group
/// that is alone on the ring is its own neighbour on both sides.
#[derive(Clone, Copy)]
pub struct GroupBirth {
    pub group: Draw,
    pub arc: RingArc,
    pub members: Members,
    /// The group that serves the positions from the end of this arc on.
    pub succ: Link,
    /// The group that serves the positions up to the start of this arc.
    pub pred: Link,
}

impl GroupBirth {
    /// Returns the whole record of the group: its least member leads, it is in no transaction, and
    /// it has no pairs and knows no clients. Allocates nothing.
    pub fn base(&self, alloc: Global) -> Base
        ensures { result ≡ base_born self.now }
    {
        Base {
            core: Core {
                id: self.group,
                first: self.members.least(),
                arc: self.arc,
                members: self.members,
                succ: self.succ,
                pred: self.pred,
                lock: Lock::Free,
                begun: 0,
                decided: Sequence::new(alloc),
                voted: Sequence::new(alloc),
                born: Sequence::new(alloc),
                gone: None,
            },
            pairs: Pairs::new(alloc),
            clients: SeenList::new(alloc),
        }
    }

    /// Returns the route by which a client knows the group: its name, where its arc starts, and
    /// its members.
    pub fn route(&self) -> Route
        ensures { result ≡ route_born self.now }
    {
        Route {
            group: self.group,
            lo: self.arc.lo(),
            members: self.members,
        }
    }
}
