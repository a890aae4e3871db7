//! The law of routes.
ghost use Rattle.sc_client_table.specs.lookup.Choice.{ChoosesNearest};

/// States that the chosen group is the one whose start is nearest at or before the position, and
/// of several at one distance the last in the list.
pub fn choices_are_nearest()
    ensures { ChoosesNearest }
{}
