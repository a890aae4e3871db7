//! What every lawful journal says of each of its groups: its steps are a lawful history of Paxos,
//! its replicas have executed prefixes of its log, and what they and the clients hold and send is
//! true of it. These laws are lemmas, which the law of all groups together uses; the two functions
//! here compute journals to which they apply. Definitions and laws; no code that runs.
ghost use Rattle.std.specs.Prelude.{◌≡◌, [], ◌∷◌, Some};
ghost use Rattle.sc_actor.specs.System.{no_words};
ghost use Rattle.sc_meaning.specs.sound.Example.{four, alone};
ghost use Rattle.sc_meaning.specs.sound.Logs.{decided_log, decided_state};
ghost use Rattle.sc_meaning.specs.sound.Histories.{decided_row};
ghost use Rattle.sc_meaning.specs.sound.Requests.{issue_row};
ghost use Rattle.sc_meaning.specs.sound.Players.{Lawful};
ghost use Rattle.sc_law_groups.specs.group.ElectionExample.{three_nodes, election_scenario, election_example, example_call};
ghost use Rattle.sc_law_groups.specs.group.JoinExample.{join_scenario, join_example, join};

/// Shows a lawful journal of three nodes in which two of them decide a request, and then another
/// node is elected and offers it again: so the law of one group applies to some journal with an
/// election.
pub fn a_journal_with_an_election()
    ensures lawful { Lawful four no_words election_scenario election_example }
    ensures log { decided_log four three_nodes election_example ≡ example_call ∷ [] }
    ensures decided { decided_row four three_nodes 0 election_example ≡ Some 4 }
    ensures issued { issue_row 1 1 election_example ≡ Some 1 }
{}

/// Shows a lawful journal in which the one member of a group decides that another joins, and sends
/// it the state: so the law of one group applies to some journal whose members change.
pub fn a_journal_with_a_join()
    ensures lawful { Lawful four no_words join_scenario join_example }
    ensures log { decided_log four alone join_example ≡ join ∷ [] }
    ensures decided { decided_row four alone 0 join_example ≡ Some 2 }
    ensures members { (decided_state four alone join_example).core.members ≡ 1 ∷ 2 ∷ [] }
{}
