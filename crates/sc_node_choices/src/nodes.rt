//! Lists of nodes.
ghost use Rattle.std.specs.Prelude.{◌≡◌, ◌≤◌, [], filter, not, true, All, IfOk, IsOk};
ghost use Rattle.sc_base.specs.Limits.{most_nodes};
ghost use Rattle.sc_base.specs.Roster.{is_member};
ghost use Rattle.sc_words.specs.paxos.Votes.{has_counted};
ghost use Rattle.sc_node_table.specs.Election.{nodes_to};

use crate::open_sets::Sets;
use sc_base::{Members, OutOfMemory};
use sc_paxos::Leader;
use std::alloc::Global;

/// Returns the nodes that are not in a set.
pub fn not_among(alloc: Global, nodes: &[u16], set: &Members) -> Result<Vec<u16>, OutOfMemory>
    ensures others { IfOk result
        (λ others. others.items ≡ filter (λ node. not (is_member set.now node)) nodes.now) }
    ensures none { All (λ node. is_member set.now node ≡ true) nodes.now → IsOk result }
{
    let mut others = Vec::new(alloc);
    for node in nodes {
        if !set.has(*node) {
            others.push(*node)?;
        }
    }
    Ok(others)
}

/// Returns the members of a slot whose votes were not counted.
pub fn uncounted<V>(
    alloc: Global,
    leader: &Leader<V>,
    slot: u32,
    set: &Members,
) -> Result<Vec<u16>, OutOfMemory>
    ensures nodes { IfOk result
        (λ nodes.
        nodes.items ≡ filter (λ node. not (has_counted slot node leader.now)) set.now) }
    ensures none { All (λ node. has_counted slot node leader.now ≡ true) set.now
        → IsOk result }
{
    let mut nodes = Vec::new(alloc);
    for node in set.as_slice() {
        if !leader.voted(slot, *node) {
            nodes.push(*node)?;
        }
    }
    Ok(nodes)
}

/// Returns the nodes, from 1 to the given number, that are in one of these sets.
#[tactic(auto, unfolding(sc_node_table::specs::Election::nodes_to))]
pub fn nodes_to(alloc: Global, most: u16, sets: &Sets) -> Result<Vec<u16>, OutOfMemory>
    requires { most ≤ most_nodes }
    ensures nodes { IfOk result (λ nodes. nodes.items ≡ nodes_to most sets.now) }
    ensures none { nodes_to most sets.now ≡ [] → IsOk result }
{
    let mut nodes = Vec::new(alloc);
    for node in 1..most + 1 {
        if sets.has(node) {
            nodes.push(node)?;
        }
    }
    Ok(nodes)
}
