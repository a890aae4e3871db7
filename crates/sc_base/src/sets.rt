//! Sets of one to nine nodes.
ghost use Rattle.std.specs.Prelude.{◌≡◌, ◌<◌, ◌≤◌, ◌∷◌, [], IsTrue, length, slice_index, MatchResult, Some, None, find, nat_eq, nat_lt};
ghost use Rattle.std.specs.Cmp.{partial_equiv_from_equiv};
ghost use Rattle.std.specs.Cmp.Lexicographic.{pointwise, nat_list_eq_equiv};
ghost use Rattle.sc_base.specs.Roster.{IsRoster, is_member, with_member, without_member, least_of, next_after};
ghost use Rattle.sc_base.specs.Errors.{add_error, remove_error};
ghost use Rattle.sc_base.specs.Majority.{is_majority, votes_of};

use crate::dups::{Dup, OutOfMemory};
use crate::nodes::Nodes;
use crate::sames::Same;
use std::alloc::Global;
use std::marker::Model;

/// The reason why a set is not changed.
#[derive(Clone, Copy, Debug, PartialEq, Eq)]
pub enum MemberError {
    /// The node is in the set.
    Present,
    /// The node is not in the set, and the set has nine.
    Full,
    /// The node is not in the set.
    Absent,
    /// The node is the only member.
    Last,
}

/// A set of one to nine nodes. Contracts see it as the ascending list of its members.
#[derive(Clone, Copy, Debug)]
pub struct Members {
    nodes: Nodes,
}

impl Model for Members {
    ghost use Rattle.std.specs.Prelude.{List, ℕ};
    ghost use Rattle.sc_base.specs.Roster.{IsRoster};

    ghost Value = { List ℕ };

    ghost view = { λ m. m.nodes };

    ghost invariant = { λ m. IsRoster m.nodes };

    ghost inverse = { λ l. record { nodes = l } };
}

impl Members {
    /// Returns the set of one node.
    pub fn one(node: u16) -> Members
        ensures { result ≡ node ∷ [] }
    {
        let mut nodes = Nodes::new();
        nodes.push(node);
        Members { nodes }
    }

    /// Adds a node to the set. Refuses with `Present` or `Full`, and then the set is unchanged.
    pub fn add(&mut self, node: u16) -> Result<(), MemberError>
        ensures { MatchResult result
            (λ _. (add_error self.old node ≡ None) × (self.new ≡ with_member self.old node))
            (λ error. (add_error self.old node ≡ Some error) × (self.new ≡ self.old)) }
    {
        if self.has(node) {
            return Err(MemberError::Present);
        }
        if self.len() == 9 {
            return Err(MemberError::Full);
        }
        self.nodes = placed(self.as_slice(), node);
        Ok(())
    }

    /// Removes a node from the set. Refuses with `Absent` or `Last`, and then the set is
    /// unchanged.
    pub fn remove(&mut self, node: u16) -> Result<(), MemberError>
        ensures { MatchResult result
            (λ _. (remove_error self.old node ≡ None) × (self.new ≡ without_member self.old node))
            (λ error. (remove_error self.old node ≡ Some error) × (self.new ≡ self.old)) }
    {
        if !self.has(node) {
            return Err(MemberError::Absent);
        }
        if self.len() == 1 {
            return Err(MemberError::Last);
        }
        self.nodes = left_by(self.as_slice(), node);
        Ok(())
    }

    /// Returns the members, ascending.
    pub fn as_slice(&self) -> &[u16]
        ensures same { result.now ≡ self.now }
        ensures set { IsRoster self.now }
    {
        let _ = &self.nodes;
        self.nodes.as_slice()
    }

    /// Returns the number of members, 1 to 9.
    pub fn len(&self) -> u8
        ensures same { result ≡ length self.now }
        ensures some { 1 ≤ length self.now }
        ensures most { length self.now ≤ 9 }
    {
        self.as_slice().len() as u8
    }

    /// Returns whether the node is a member.
    pub fn has(&self, node: u16) -> bool
        ensures { result ≡ is_member self.now node }
    {
        occurs(self.as_slice(), node)
    }

    /// Returns the least member.
    pub fn least(&self) -> u16
        ensures { result ≡ least_of self.now }
    {
        self.as_slice()[0]
    }

    /// Returns the least member greater than the node, or the least of all where none is greater.
    pub fn after(&self, node: u16) -> u16
        ensures { result ≡ next_after self.now node }
    {
        match first_above(self.as_slice(), node) {
            Some(next) => next,
            None => self.least(),
        }
    }

    /// Returns whether more than half of the members occur among the voters. Voters that are no
    /// members, and voters that occur twice, add nothing. Paxos Made Simple, section 2.2.
    pub fn is_majority(&self, voters: &[u16]) -> bool
        ensures { result ≡ is_majority self.now voters.now }
    {
        let votes = count_votes(self.as_slice(), voters);
        self.as_slice().len() < 2 * votes
    }
}

impl Dup for Members {
    fn dup(&self, _alloc: Global) -> Result<Members, OutOfMemory>
        ensures { result ≡ Ok self.now }
    {
        Ok(*self)
    }
}

// Sets are compared as their lists, so that `==` is exact.
impl PartialEq for Members {
    ghost eq = { pointwise nat_eq };

    ghost laws = { partial_equiv_from_equiv nat_list_eq_equiv };

    fn eq(&self, other: &Members) -> bool {
        self.as_slice() == other.as_slice()
    }
}

impl Eq for Members {
    ghost laws = { nat_list_eq_equiv };
}

impl Same for Members {
    fn is_same(&self, other: &Members) -> bool {
        self == other
    }
}

fn occurs(nodes: &[u16], node: u16) -> bool
    ensures { result ≡ is_member nodes.now node }
{
    nodes.iter().any(|other| *other == node)
}

fn first_above(nodes: &[u16], node: u16) -> Option<u16>
    ensures { result ≡ find (λ member. nat_lt node member) nodes.now }
{
    nodes.iter().copied().find(|member| node < *member)
}

fn count_votes(members: &[u16], voters: &[u16]) -> usize
    ensures votes { result ≡ votes_of members.now voters.now }
    ensures few { result ≤ length members.now }
{
    members
        .iter()
        .filter(|member| occurs(voters, **member))
        .count()
}

/// Returns the members with the node added in its place.
fn placed(members: &[u16], node: u16) -> Nodes
    requires { length members.now < 9 }
    ensures { result ≡ with_member members.now node }
{
    let mut nodes = Nodes::new();
    for member in members {
        if *member < node {
            nodes.push(*member);
        }
    }
    nodes.push(node);
    for above in members {
        if node < *above {
            nodes.push(*above);
        }
    }
    nodes
}

/// Returns the members without the node.
fn left_by(members: &[u16], node: u16) -> Nodes
    requires { length members.now ≤ 9 }
    ensures { result ≡ without_member members.now node }
{
    let mut nodes = Nodes::new();
    for member in members {
        if *member != node {
            nodes.push(*member);
        }
    }
    nodes
}
