//! Laws of majorities.
ghost use Rattle.sc_base.specs.MajorityLaws.{MajoritiesMeet, NeighboursMeet};

/// States that two majorities of one set share a member.
pub fn majorities_meet()
    ensures { MajoritiesMeet }
{}

/// States that a majority of a set and a majority of the set with one more node share a member of
/// the set.
pub fn neighbours_meet()
    ensures { NeighboursMeet }
{}
