//! A schedule driven through a company: the network's port and the shells of its actors.
#![tactic(auto)]

mod actor_lines;
mod acts;
mod company;
mod conditions;
mod end;
mod free_lines;
mod gathering;
mod network_lines;
mod schedules;
mod settle_lines;
mod single_lines;
mod start;
mod storm_lines;
mod ways;

pub use company::{Company, Score};
pub use conditions::goers_are_spared;
pub use end::close;
pub use schedules::drive;
pub use start::open;
