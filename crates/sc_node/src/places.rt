//! The place of a group's replica.
ghost use Rattle.std.specs.Prelude.{◌≡◌, is_some};
ghost use Rattle.sc_node_table.specs.Node.{replica_of};
ghost use Rattle.sc_node.specs.Places.{place_from, IsPlaceOf};

use crate::node::NodeCore;
use sc_base::{Draw, same_draw};
use sc_node_replica::Replica;

/// Returns the first place with a replica of a group, if there is one.
fn first_at(replicas: &[Replica], group: Draw) -> Option<usize>
    ensures { result ≡ place_from 0 group replicas.now }
{
    for i in 0..replicas.len() {
        if same_draw(replicas[i].name(), group) {
            return Some(i);
        }
    }
    None
}

impl NodeCore {
    /// Returns the place of a group's replica, if there is one.
    #[tactic(auto, using(crate::proofs::PlacesStanding::place_is))]
    pub(crate) fn replica_place(&self, group: Draw) -> Option<usize>
        ensures { IsPlaceOf group self.now.replicas result }
    {
        first_at(self.replicas(), group)
    }

    /// Returns whether there is a replica of a group.
    #[tactic(auto, using(crate::proofs::PlacesStanding::known_by))]
    pub(crate) fn has_replica(&self, group: Draw) -> bool
        ensures { result ≡ is_some (replica_of group self.now.replicas) }
    {
        first_at(self.replicas(), group).is_some()
    }
}
