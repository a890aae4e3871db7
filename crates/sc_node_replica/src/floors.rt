//! What a replica forgets: the entries and the accepted commands that are not above its floor.
ghost use Rattle.std.specs.Prelude.{◌≡◌, ◌<◌};
ghost use Rattle.sc_node_table.specs.Replica.{forgotten, next};

use crate::replica::Replica;
use sc_node_choices::floor_of;

impl Replica {
    /// Forgets what is not above the floor of the last executed slot. It takes no memory.
    #[tactic(auto, unfolding(sc_node_table::specs::Replica::forgotten))]
    pub(crate) fn forget(&mut self, last: u32)
        requires { last < next self.old }
        ensures { self.new ≡ forgotten last self.old }
    {
        let floor = floor_of(last);
        self.log.cut(floor);
        self.acceptor.cut(floor);
    }
}
