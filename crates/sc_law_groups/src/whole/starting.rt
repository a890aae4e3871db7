//! What a lawful journal begins with: groups in place under names of their own, to which nothing
//! has happened, and players that are seated; and the law that every valid scenario begins so.
//! Definitions and laws; no code that runs.
ghost use Rattle.sc_law_groups.specs.whole.StartLaws.{ValidScenariosBeginWell};

/// Shows that every valid scenario begins well: it has at least one group; each has a name of its
/// own, a roster of members, no pairs and no lock, vote or decision; the groups' arcs cover the
/// ring, and each group names its neighbours, a lone one itself. Its nodes and clients are seated,
/// each under a number of its own, and its clients know the first group and ask what their sections
/// say. The law holds for any owners of names, where no name of the scenario's groups has an owner,
/// and where as many slots are open as a created child has.
pub fn valid_scenarios_begin_well()
    ensures { ValidScenariosBeginWell }
{}
