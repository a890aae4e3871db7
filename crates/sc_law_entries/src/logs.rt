//! The law of entries and the law of histories together, and what the rows of a journal decide,
//! entry by entry, with the groups that entries create: the bridge from decided logs to these laws.
//! Of mail it uses only what a decided log is. Definitions and laws; no code that runs.
ghost use Rattle.sc_law_entries.specs.logs.LogExample.{ExampleInTurn};
ghost use Rattle.sc_law_entries.specs.logs.LogLaws.{AllowedStaysAllowed, EntriesAreAllowed, EntriesAreLogs, EntriesMakeOneMap, PrefixesAllow, GroupsAllowOthers, GroupsAreFound, GroupsAreOldOrNew, HistoryIsDecided, JournalsInTurnAreSound, RowsDecideForOne, RowsGoOn, StatesAllow, DecidingRowsStay};
ghost use Rattle.sc_law_entries.specs.logs.OneMap.{AllowedEntriesMakeOneMap};

/// Shows that after every list of allowed entries, from groups in place that hold nothing, the ring
/// covers, a group that serves a key is that of its range, the requests that took effect are one
/// legal history, and the map after it is the pairs of the ranges' groups, each on its range. What
/// any group's log ever made it note has its entry in the history.
pub fn allowed_entries_make_one_map()
    ensures { AllowedEntriesMakeOneMap }
{}

/// Shows that each row decides for one group at most, whatever rows stand before it: a group of
/// another name keeps its log. Rows that decide in turn may be followed by one more that does.
pub fn rows_decide_for_one_group()
    ensures one { RowsDecideForOne }
    ensures more { RowsGoOn }
{}

/// Shows that, where each row decides in turn, the groups of a journal are those of its scenario
/// and the children that their logs create, and no others, however many generations there are. They
/// have names of their own, and each is known by its name, with its own log and state. A group that
/// a row adds is a child that the row's own entries create; its name was nobody's, and its log is
/// empty.
pub fn groups_are_born_under_new_names()
    ensures found { GroupsAreFound }
    ensures new { GroupsAreOldOrNew }
{}

/// Shows that the entries of a journal whose rows decide in turn are the logs of its groups, make
/// of each group the state after its log, and are each allowed by the stories that the entries
/// before them leave.
pub fn entries_are_allowed_logs()
    ensures logs { EntriesAreLogs }
    ensures allowed { EntriesAreAllowed }
{}

/// Shows that what is allowed stays allowed with more rows. A command that an entry of a group's
/// log makes allowed, or that the group's state after a prefix of its log makes allowed, is allowed
/// from then on, whichever groups have learned of it.
pub fn what_logs_allow_stays_allowed()
    ensures stays { AllowedStaysAllowed }
    ensures prefixes { PrefixesAllow }
    ensures states { StatesAllow }
{}

/// Shows that a coordinator's lock makes its offer and its question to a watcher allowed at the
/// groups that it asks, that a promise makes the promised Yes allowed, and that the entries by
/// which a watcher votes Yes and a transaction is decided make the vote and the end allowed.
pub fn groups_allow_others()
    ensures { GroupsAllowOthers }
{}

/// Shows that the entries of a journal whose rows decide in turn make one map: the ring covers, a
/// group that serves a key is that of its range, the history is legal, and the map after it, on
/// each range, is the pairs of the range's group. What a group's log made it note, after each
/// prefix of it, has its entry in the history.
pub fn entries_make_one_map()
    ensures { EntriesMakeOneMap }
{
    allowed_entries_make_one_map();
}

/// Shows that each entry of the history is decided by one row, as a call in the log of a group that
/// was there before the row.
pub fn history_is_decided_by_rows()
    ensures { HistoryIsDecided }
{}

/// Shows that with more rows the groups stay, their logs, the entries and the history go on, and
/// each entry of the history is decided by the same row.
pub fn deciding_rows_stay()
    ensures { DecidingRowsStay }
{}

/// Shows that a journal whose rows decide in turn is sound, whatever its groups order, split and
/// merge, where four facts hold: each group has one value per slot, each replica has executed a
/// prefix of its group's log, each call was issued before the row that decides it, and each reply
/// was decided before the row that takes it.
pub fn journals_in_turn_are_sound()
    ensures { JournalsInTurnAreSound }
{}

/// Shows a journal whose rows decide in turn: a group is split, and its child decides a call.
pub fn a_split_decides_in_turn()
    ensures { ExampleInTurn }
{}
