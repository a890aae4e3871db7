//! What a client knows of one group.
ghost use Rattle.std.specs.Prelude.{◌≡◌};
ghost use Rattle.sc_client_table.specs.lookup.Ways.{far, new_way, next_target, target_of};

use sc_base::{Dup, Members, OutOfMemory};
use std::alloc::Global;

/// What a client knows of one group: where its arc starts, its members, which may be out of date,
/// and the node that the client prefers to ask instead of the least member.
#[derive(Clone, Copy)]
pub struct Way {
    pub lo: u32,
    pub members: Members,
    pub preferred: Option<u16>,
}

impl Way {
    pub(crate) fn new(lo: u32, members: Members) -> Way
        ensures { result ≡ new_way lo members }
    {
        Way {
            lo,
            members,
            preferred: None,
        }
    }

    /// Returns the node that is asked: the preferred one, or else the least member.
    pub fn target(&self) -> u16
        ensures { result ≡ target_of self.now }
    {
        match self.preferred {
            Some(node) => node,
            None => self.members.least(),
        }
    }

    /// Returns the member after the node that is asked.
    pub fn next(&self) -> u16
        ensures { result ≡ next_target self.now }
    {
        self.members.after(self.target())
    }

    /// Returns how far a position lies after the start of the group's arc, round the ring.
    pub fn far(&self, p: u32) -> u32
        ensures { result ≡ far p self.now }
    {
        p.wrapping_sub(self.lo)
    }
}

impl Dup for Way {
    fn dup(&self, _alloc: Global) -> Result<Way, OutOfMemory>
        ensures { result ≡ Ok self.now }
    {
        Ok(*self)
    }
}
