//! What lawful journals say of all their groups, whatever these order: which commands may be queued
//! and which mails of transactions are true, by the stories of all logs, and that each row decides
//! in turn. So lawful journals of valid scenarios are sound. Definitions and laws; no code that
//! runs.
mod starting;

ghost use Rattle.std.specs.Prelude.{◌≡◌, [], ◌∷◌, Some};
ghost use Rattle.sc_actor.specs.System.{no_words};
ghost use Rattle.sc_meaning.specs.sound.Players.{Lawful};
ghost use Rattle.sc_scenario.specs.scenario.Grammar.{scenario_of};
ghost use Rattle.sc_meaning.specs.sound.Example.{four};
ghost use Rattle.sc_meaning.specs.sound.GroupsOf.{groups_at, ring_at};
ghost use Rattle.sc_meaning.specs.sound.Logs.{decided_log};
ghost use Rattle.sc_meaning.specs.sound.Soundness.{IsSound};
ghost use Rattle.sc_law_groups.specs.group.ElectionExample.{election_example, election_scenario};
ghost use Rattle.sc_law_groups.specs.group.JoinExample.{join_example, join_scenario};
ghost use Rattle.sc_law_groups.specs.whole.WholeJournalLaws.{LawfulJournalsAreSound, LawfulJournalsDecideInTurn, LawfulJournalsHoldBeside, MembersStayRosters};
ghost use Rattle.sc_law_groups.specs.whole.SplitExample.{lone_call, kid, pair, parts, lone_split, split_example, split_scenario};
ghost use Rattle.sc_law_groups.specs.whole.Texts.{election_text, join_text, split_text, two_text};
ghost use Rattle.sc_law_groups.specs.whole.TwoGroups.{lower_group, put_it_call, two_example, two_scenario, upper_group};
ghost use Rattle.sc_law_groups.specs.whole.Valid.{ValidEntriesAreLogs, ValidJournalsAreSound};
ghost use Rattle.sc_law_groups.specs.whole.WellFormed.{BoundedScenariosAreWellFormed, WellFormedJournalsAreSound};

use crate::group::{a_journal_with_a_join, a_journal_with_an_election};
pub use starting::valid_scenarios_begin_well;

/// Shows that the members of a group stay one to nine nodes, ascending, after every log, whatever
/// stands in it.
pub fn members_stay_rosters()
    ensures { MembersStayRosters }
{}

/// Shows that each row of a lawful journal decides in turn, whatever its groups order, split, merge
/// and move, where the scenario begins well (`BeginsWell`) and what its orders queue is allowed
/// (`OrdersAreAllowed`): the logs go on, each entry is allowed by the stories that the entries
/// before the row leave, and a group that a row creates begins with no entry. So a replica queues
/// no command, and sends no mail of a transaction, that the logs of the groups before it did not
/// make allowed.
pub fn lawful_journals_decide_in_turn()
    ensures { LawfulJournalsDecideInTurn }
{}

/// Shows that, in a lawful journal of a scenario that begins well, where what its orders queue is
/// allowed, each group has one value per slot, each replica has executed a prefix of its group's
/// log, each call was issued before the row that decides it, and each reply that a client keeps was
/// decided before the row in which the client takes it.
pub fn lawful_journals_hold_beside()
    ensures { LawfulJournalsHoldBeside }
{}

/// Shows that each prefix of a lawful journal is sound, whatever its groups order, where the
/// scenario begins well with groups that hold nothing, and what its orders queue is allowed.
pub fn lawful_journals_are_sound()
    ensures { LawfulJournalsAreSound }
{}

/// Shows that each prefix of a lawful journal of a well formed scenario is sound, as that of a valid
/// one is (`valid_journals_are_sound`), and that each scenario within its bounds is well formed. A
/// well formed scenario may have any number of requests and of lines.
pub fn well_formed_journals_are_sound()
    ensures formed { BoundedScenariosAreWellFormed }
    ensures sound { WellFormedJournalsAreSound }
{}

/// Shows that each prefix of a lawful journal of a valid scenario is sound, whatever its orders
/// join, leave, split, merge or move, whatever is lost, repeated, late or crashed, and with no
/// majority alive. Each group has one log, which only grows (Paxos Made Simple, sections 2.2 and
/// 3); each replica of each node has executed a prefix of its group's log; the ring covers, and the
/// group of each range has its place in it and holds its part of the map; the history is legal
/// (Herlihy and Wing, 1990), with the replies that clients keep; and each entry is decided after
/// its issue and before its answer, whichever group decides it. As many slots are open as a created
/// child has: else its log would be read by other members than its replicas count.
pub fn valid_journals_are_sound()
    ensures { ValidJournalsAreSound }
{}

/// Shows that the entries of a lawful journal of a valid scenario, row by row, are the logs of its
/// groups, and make of each the state after its log.
pub fn valid_entries_are_logs()
    ensures { ValidEntriesAreLogs }
{}

/// Shows that the law applies to a journal of a text's scenario in which a request is decided and
/// another node is elected.
pub fn an_election_is_sound()
    ensures text { scenario_of election_text ≡ Some election_scenario }
    ensures sound { IsSound four election_scenario election_example [] }
{
    a_journal_with_an_election();
    valid_journals_are_sound();
}

/// Shows that the law applies to a journal of a text's scenario in which the one member of a group
/// decides that another node joins, and sends it the state.
pub fn a_join_is_sound()
    ensures text { scenario_of join_text ≡ Some join_scenario }
    ensures sound { IsSound four join_scenario join_example [] }
{
    a_journal_with_a_join();
    valid_journals_are_sound();
}

/// Shows that the law applies to a journal of two groups on one node, in which a client asks the
/// first and is sent on to the second, and the node's tick goes through both.
pub fn a_journal_of_two_groups()
    ensures text { scenario_of two_text ≡ Some two_scenario }
    ensures lawful { Lawful four no_words two_scenario two_example }
    ensures sound { IsSound four two_scenario two_example [] }
    ensures first { decided_log four lower_group two_example ≡ [] }
    ensures second { decided_log four upper_group two_example ≡ put_it_call ∷ [] }
{
    valid_journals_are_sound();
}

/// Shows that the law applies to a journal of two nodes in which a lone group splits, the second
/// node makes the child, and the child decides a request that its parent sends on.
pub fn a_journal_with_a_split()
    ensures text { scenario_of split_text ≡ Some split_scenario }
    ensures lawful { Lawful four no_words split_scenario split_example }
    ensures sound { IsSound four split_scenario split_example [] }
    ensures groups { groups_at four (pair ∷ []) split_example ≡ pair ∷ kid ∷ [] }
    ensures log { decided_log four pair split_example ≡ lone_split ∷ [] }
    ensures kid_log { decided_log four kid split_example ≡ lone_call ∷ [] }
    ensures ring { ring_at four (pair ∷ []) split_example ≡ parts }
{
    valid_journals_are_sound();
}
