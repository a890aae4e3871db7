//! Laws of ballots, choices and acceptors.
ghost use Rattle.sc_words.specs.paxos.BallotLaws.{BallotsAreOrdered, ChoiceIsFirstHighest, NoChoiceWithoutReport, PromisesNeverFall, AcceptedBallotsNeverFall, AcceptorsStayWhole};

/// States that ballots are in one strict total order.
pub fn ballots_are_ordered()
    ensures { BallotsAreOrdered }
{}

/// States that the chosen report is one of the slot, that no report of the slot before it has its
/// ballot or a higher one, and none after it a higher one. There is no choice only where no report
/// names the slot.
pub fn choice_is_first_highest<V>()
    ensures some { ChoiceIsFirstHighest V }
    ensures none { NoChoiceWithoutReport V }
{}

/// States that an acceptor's promise never falls, nor does the ballot of what it accepted at a
/// slot, and that an acceptor stays well-formed.
pub fn acceptors_never_fall<V>()
    ensures promises { PromisesNeverFall V }
    ensures accepted { AcceptedBallotsNeverFall V }
    ensures whole { AcceptorsStayWhole V }
{}
