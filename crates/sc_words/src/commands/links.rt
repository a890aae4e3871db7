//! Where a group is, as another group or a client knows it.
ghost use Rattle.std.specs.Prelude.{◌≡◌};

use sc_base::{Draw, Dup, Members, OutOfMemory, Same, Sequence};
use std::alloc::Global;

/// A neighbour group. The name is exact; the member list is a hint.
#[derive(Clone, Copy, PartialEq, Eq)]
pub struct Link {
    pub group: Draw,
    pub members: Members,
}

/// A group, the position at which its arc starts, and its members as far as they are known.
#[derive(Clone, Copy, PartialEq, Eq)]
pub struct Route {
    pub group: Draw,
    pub lo: u32,
    pub members: Members,
}

/// Member sets, one for each slot.
pub type MemberSets = Sequence<Members>;

impl Dup for Link {
    fn dup(&self, _alloc: Global) -> Result<Link, OutOfMemory>
        ensures { result ≡ Ok self.now }
    {
        Ok(*self)
    }
}

impl Dup for Route {
    fn dup(&self, _alloc: Global) -> Result<Route, OutOfMemory>
        ensures { result ≡ Ok self.now }
    {
        Ok(*self)
    }
}

impl Same for Link {
    fn is_same(&self, other: &Link) -> bool {
        self == other
    }
}

impl Same for Route {
    fn is_same(&self, other: &Route) -> bool {
        self == other
    }
}
