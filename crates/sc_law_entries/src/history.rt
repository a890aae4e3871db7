//! The law of histories. Of one group: what its log makes of the store. Of all groups: moves of
//! what they hold (arcs, pairs and client tables) keep one legal history, and the map after it is
//! the groups' pairs. No mail is in it. Definitions and laws; no code that runs.
ghost use Rattle.sc_law_entries.specs.history.HistoryExample.{ExampleOfEntries, ExampleOfMoves};
ghost use Rattle.sc_law_entries.specs.history.HistoryPrefixes.{PrefixesAnswerByHistory, LogsMakeStates};
ghost use Rattle.sc_law_entries.specs.history.LogHistories.{LogsMakeHistories};
ghost use Rattle.sc_law_entries.specs.history.Moves.{MovesKeepHistories, MovesMakeHistories};
ghost use Rattle.sc_law_entries.specs.history.PlanMoves.{PlansAreMoves};
ghost use Rattle.sc_law_entries.specs.history.AppliedEntries.{EntriesMakeMoves, AppliedEntriesMakeHistory};
ghost use Rattle.sc_law_entries.specs.history.Worlds.{MovingEntriesMakeHistory, QuietEntriesMakeHistory};

/// Shows that, whatever requests, joins and leaves a group executes from an empty start, the
/// requests that took effect are a legal history, and the group's pairs are the map after it. The
/// group's table notes the last of each client's requests. Joins and leaves change neither.
pub fn logs_make_histories()
    ensures { LogsMakeHistories }
{}

/// Shows that, whatever moves (requests, divisions, merges and moved boundaries) are made between
/// groups that hold nothing at first, the requests that took effect are a legal history. On each
/// group's arc the map after it is the pairs that the group holds; each request is noted where its
/// key lies, at no lower number; and what any table ever noted has its entry in the history. Each
/// request, a client's number, is one operation.
pub fn moves_make_histories()
    ensures one { MovesKeepHistories }
    ensures all { MovesMakeHistories }
{}

/// Shows that, whatever requests, joins and leaves the groups of a scenario execute, entry by
/// entry, the requests that took effect are one legal history. The effective record of each range's
/// group has the map after it on that range, and what any group's log ever made it note has its
/// entry in the history. No request takes effect twice, whichever groups it reaches.
pub fn quiet_entries_make_a_legal_history()
    ensures { QuietEntriesMakeHistory }
{}

/// Shows that entries, each of which makes a move of what the effective records hold, make a legal
/// history that matches what all groups hold. A range's group has its part of the map where its
/// record has the range's arc, and the notes of all logs stay in the history.
pub fn entries_that_move_make_a_legal_history()
    ensures { MovingEntriesMakeHistory }
{}

/// Shows that what a request, a split, a merge, a moved boundary either way, or a member that is
/// handed over makes of its groups by the machine's table is a move of what they hold.
pub fn plans_are_moves()
    ensures { PlansAreMoves }
{}

/// Shows that, whatever the entries are, each group is after them as its own log makes it. Where
/// the notes of all logs stay in the history, the notes after each prefix of a group's log do: so a
/// replica that lags answers by the history of all entries.
pub fn prefixes_of_logs_answer_by_history()
    ensures states { LogsMakeStates }
    ensures prefixes { PrefixesAnswerByHistory }
{}

/// Shows moves that may be made from an empty start, with their history: a group is divided, serves
/// a put and gives its key to the child, which serves a get.
pub fn an_example_of_moves()
    ensures { ExampleOfMoves }
{}

/// Shows that entries of every kind (requests, orders, votes, decisions and ends) each make a move
/// of what the effective records hold, where what they need holds: a transaction is its
/// coordinator's and not yet committed, its participant is as it handed over and has the next arc,
/// a child is new. So they make a legal history, and a range's record has the map after it on that
/// range where it has the range's arc.
pub fn applied_entries_make_a_legal_history()
    ensures each { EntriesMakeMoves }
    ensures all { AppliedEntriesMakeHistory }
{}

/// Shows entries that may be applied from an empty start, with their history: a group serves a put
/// and is split, and its child serves a get.
pub fn an_example_of_entries()
    ensures { ExampleOfEntries }
{}
