//! Scenarios: the runs to be made, and the parser of their texts.
mod drafts;
mod groups;
mod orders;
mod places;
mod reading;
mod scenarios;
mod schedules;
mod statements;
mod taking;

pub use drafts::GroupLine;
pub use groups::bases_of;
pub use reading::{
    INPUT_LIMIT, LINE_LIMIT, ScenarioError, first_bytes_decide, read_scenario,
    valid_scenarios_are_bounded,
};
pub use sc_texts::Reason;
pub use scenarios::{Asks, ClientList, GroupList, Scenario, SchedLine, Schedule};
