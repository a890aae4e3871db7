//! What it means that a journal is sound. The players of a scenario (its nodes and clients, as
//! values of their tables), the journals that the scenario allows, and what a journal shows: chosen
//! commands, decided logs, the ring, the history, and where requests are issued and answered.
//! Definitions, and one function of code.
ghost use Rattle.std.specs.Prelude.{◌≡◌, [], ◌∷◌, Some, None};
ghost use Rattle.sc_words.specs.declared.commands.commands.Command.TheVariants.{Call};
ghost use Rattle.sc_meaning.specs.sound.Logs.{decided_log};
ghost use Rattle.sc_meaning.specs.sound.Histories.{history, decided_row};
ghost use Rattle.sc_meaning.specs.sound.Requests.{issue_row};
ghost use Rattle.sc_meaning.specs.sound.Example.{four, alone, example_rows, example_history, put_it, get_it};

mod summaries;

pub use summaries::got_by;

/// Shows the definitions on a small journal: the log and the history of a put and a get, the rows
/// that decide the two entries, and the row that issues the second request.
pub fn a_journal_and_its_history()
    ensures log { decided_log four alone example_rows ≡ Call 1 1 put_it ∷ Call 1 2 get_it ∷ [] }
    ensures first { decided_row four alone 0 example_rows ≡ Some 3 }
    ensures second { decided_row four alone 1 example_rows ≡ Some 7 }
    ensures third { decided_row four alone 2 example_rows ≡ None }
    ensures issued { issue_row 1 2 example_rows ≡ Some 5 }
    ensures history { history four (alone ∷ []) example_rows ≡ example_history }
{}
