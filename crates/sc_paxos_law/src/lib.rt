//! One value per slot, over any steps of proposers and acceptors, for any values and any rule that
//! gives a slot's members from the earlier entries.
#![tactic(auto)]

ghost use Rattle.std.specs.Prelude.{◌≡◌, [], ◌∷◌};
ghost use Rattle.sc_paxos_law.specs.Lawful.{IsLawfulHistory};
ghost use Rattle.sc_paxos_law.specs.Decided.{log_of};
ghost use Rattle.sc_paxos_law.specs.Example.{three, first, example_steps};
ghost use Rattle.sc_paxos_law.specs.Laws.{OneValuePerSlot, LogsAgree, LogIsLongest, LogOnlyGrows, LeastBallotStands, AcceptorsAreLawful, LeadersAreLawful, StrangersDoNotCount};

/// States that no two values are chosen at one slot, and that any two logs agree as far as both go
/// (Paxos Made Simple, section 2.2).
pub fn one_value_per_slot<V>()
    ensures value { OneValuePerSlot V }
    ensures logs { LogsAgree V }
{}

/// States that the computed log is the longest list whose entries are chosen, that each other such
/// list is a prefix of it, and that it only grows with more steps. If two values were chosen at a
/// slot, the log would have that of the least ballot.
pub fn one_log<V>()
    ensures longest { LogIsLongest V }
    ensures grows { LogOnlyGrows V }
    ensures least { LeastBallotStands V }
{}

/// States that an acceptor's answers to prepares and accepts, and its cuts, are lawful steps.
pub fn acceptors_are_lawful<V>()
    ensures { AcceptorsAreLawful V }
{}

/// States that a leader that a majority of a slot's members promised, and that proposes what it
/// must, is elected in the law's sense, and that votes of nodes that are no members change
/// nothing.
pub fn leaders_are_lawful<V>()
    ensures elected { LeadersAreLawful V }
    ensures strangers { StrangersDoNotCount }
{}

/// Shows that the law is not empty: a lawful history with a lost message and an election, and its
/// log.
pub fn a_lawful_history()
    ensures lawful { IsLawfulHistory three first example_steps }
    ensures log { log_of three example_steps ≡ 7 ∷ 8 ∷ [] }
{}
