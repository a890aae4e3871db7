//! What every lawful journal says of its groups: `group`, of each by itself, whoever joins or
//! leaves it; `whole`, of all together, whatever they order. So lawful journals of valid scenarios
//! are sound. Definitions and laws; no code that runs.
#![tactic(auto)]

pub mod group;
pub mod whole;

pub use group::{a_journal_with_a_join, a_journal_with_an_election};
pub use whole::{
    a_join_is_sound, a_journal_of_two_groups, a_journal_with_a_split, an_election_is_sound,
    lawful_journals_are_sound, lawful_journals_decide_in_turn, lawful_journals_hold_beside,
    members_stay_rosters, valid_entries_are_logs, valid_journals_are_sound,
    valid_scenarios_begin_well, well_formed_journals_are_sound,
};
