//! The law of a boundary that moves.
ghost use Rattle.sc_group_parts.specs.transactions.RepartLaws.{GivingKeepsTheTotal, TakingKeepsTheTotal};

/// States that a boundary that moves between neighbours leaves their arcs and pairs together
/// unchanged, with each pair on the side whose arc holds it, and that the side that gains joins
/// the other's client table to its own.
pub fn reparts_keep_the_total()
    ensures gives { GivingKeepsTheTotal }
    ensures takes { TakingKeepsTheTotal }
{}
