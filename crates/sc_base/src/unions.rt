//! The union of two sets of nodes.
ghost use Rattle.std.specs.Prelude.{◌≡◌, ◌≤◌, not, filter, length};
ghost use Rattle.sc_base.specs.Roster.{IsRoster, is_member};
ghost use Rattle.sc_base.specs.Union.{with_any, united};

use crate::sets::Members;

impl Members {
    /// Returns how many nodes are in this set or the other, 1 to 18.
    pub fn count_with(&self, other: &Members) -> u8
        ensures { result ≡ length (united self.now other.now) }
    {
        self.len() + self.count_strangers(other.as_slice())
    }

    /// Returns the nodes that are in this set or the other. They are at most nine, which the
    /// caller has found by `count_with`.
    pub fn union(&self, other: &Members) -> Members
        requires { length (united self.now other.now) ≤ 9 }
        ensures { result ≡ united self.now other.now }
    {
        let mut all = *self;
        for node in other.as_slice() {
            all.put(*node);
        }
        all
    }

    fn count_strangers(&self, nodes: &[u16]) -> u8
        requires { length nodes.now ≤ 9 }
        ensures count { result ≡ length (filter (λ node. not (is_member self.now node)) nodes.now) }
        ensures few { result ≤ 9 }
    {
        let count = nodes.iter().filter(|node| !self.has(**node)).count();
        count as u8
    }

    // Adds a node to the set, if it is not there already.
    fn put(&mut self, node: u16)
        requires { length (with_any self.old node) ≤ 9 }
        ensures { self.new ≡ with_any self.old node }
    {
        if self.has(node) {
            return;
        }
        match self.add(node) {
            Ok(()) => {}
            Err(_) => unreachable!(),
        }
    }
}
