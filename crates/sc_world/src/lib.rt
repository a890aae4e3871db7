//! The nodes and clients of a scenario, and what a journal of theirs shows: whether it is lawful,
//! what it leaves of each node and client, each group's decided log, the decided ring, the history,
//! each group's effective record, and the summary for the report.
#![tactic(auto)]

mod counting;
mod laws;
mod orders;
mod party;
mod replaying;
mod seating;
mod shown;
mod summing;
mod worlds;

pub use laws::valid_scenarios_can_play;
pub use party::Party;
pub use replaying::{ReplayError, replay_rows};
pub use seating::{MOST_ACTOR, births, has_few_requests, schedule};
pub use shown::{decided_log, decided_ring, effective, history};
pub use summing::{sum_up, summary};
pub use worlds::World;
