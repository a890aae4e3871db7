//! Laws of splits and merges.
ghost use Rattle.sc_group_parts.specs.transactions.SplitLaws.{SplitsKeepTheWhole, SplitsShareThePairs, MergesKeepTheTotal};

use sc_base::arcs_are_sound;

/// States that the arcs of the two parts of a split join exactly to the group's arc, and that
/// their members are together the group's.
pub fn splits_keep_the_whole()
    ensures { SplitsKeepTheWhole }
{
    arcs_are_sound();
}

/// States that the pairs of the two parts of a split are together the group's, each on the side
/// whose arc holds it, that the child has its parent's client table, and that the parent keeps it.
pub fn splits_share_the_pairs()
    ensures { SplitsShareThePairs }
{}

/// States that a merged group has the arcs, the pairs and the client tables of both, also where
/// the two make the ring, and then it has all of the ring; and that the group that is gone has no
/// pair and no client.
pub fn merges_keep_the_total()
    ensures { MergesKeepTheTotal }
{}
