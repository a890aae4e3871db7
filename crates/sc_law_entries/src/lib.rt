//! The entries of all logs: `history`, what they make of the store; `ring`, what they make of the
//! groups and of the ring, where each entry is allowed; `logs`, the two together and what the rows
//! of a journal decide; `names`, that each name that nodes draw is drawn once. Definitions and
//! laws; no code that runs.
#![tactic(auto)]

pub mod history;
pub mod logs;
pub mod names;
pub mod ring;

pub use history::{
    an_example_of_entries, an_example_of_moves, applied_entries_make_a_legal_history,
    entries_that_move_make_a_legal_history, logs_make_histories, moves_make_histories,
    plans_are_moves, prefixes_of_logs_answer_by_history, quiet_entries_make_a_legal_history,
};
pub use logs::{
    a_split_decides_in_turn, allowed_entries_make_one_map, deciding_rows_stay,
    entries_are_allowed_logs, entries_make_one_map, groups_allow_others,
    groups_are_born_under_new_names, history_is_decided_by_rows, journals_in_turn_are_sound,
    rows_decide_for_one_group, what_logs_allow_stays_allowed,
};
pub use names::{
    a_journal_that_draws, counters_part_names, drawn_names_are_new, logs_name_what_was_drawn,
    names_have_one_owner, orders_are_allowed,
};
pub use ring::{
    allowed_entries_stay_allowed, allowed_lists_append, draws_are_of_one_log,
    entries_keep_the_promises, entries_keep_the_ring, merge_is_allowed, split_is_allowed,
};
