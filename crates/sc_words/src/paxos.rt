//! The definitions of Paxos that acceptors, leaders, logs and the law of one value per slot share:
//! the order of ballots, reports, the choice from reports, and the states and answers of
//! acceptors, leaders and logs.
mod answers;
mod flights;
mod laws;
mod reports;

pub use answers::{AcceptAnswer, Counted, Learnt, Must, PrepareAnswer};
pub use flights::Flight;
pub use laws::{acceptors_never_fall, ballots_are_ordered, choice_is_first_highest};
pub use reports::Report;
