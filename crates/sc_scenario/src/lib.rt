//! Scenarios, with the parser of their texts (`scenario`), and what a report says, with its text
//! (`report`).
#![tactic(auto)]

pub mod report;
pub mod scenario;

pub use report::{Asked, Progress, ReportLine, Summary, lines};
pub use scenario::{
    Asks, ClientList, GroupLine, GroupList, INPUT_LIMIT, LINE_LIMIT, Reason, Scenario,
    ScenarioError, SchedLine, Schedule, bases_of, first_bytes_decide, read_scenario,
    valid_scenarios_are_bounded,
};
