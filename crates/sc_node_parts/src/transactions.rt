//! What a replica sends in transactions (Scatter, SOSP 2011, multi-group operations): questions,
//! votes, outcomes and reports to the desk. All of it comes from the group's state and from what an
//! executed command did to it; nothing here changes a replica.
mod endings;
mod progress;
mod questions;
mod reminders;
mod reports;
mod votes;

pub use progress::{before_of, speak};
pub use questions::ask_next;
pub use reminders::{has_waited, one_tick_more, remind};
pub use reports::{pass_on, send_outcome};
pub use sc_node_choices::{awaits_vote, awaits_watch, is_bound, noted_outcome, standing_vote};
pub use votes::{report_vote, report_watch};
