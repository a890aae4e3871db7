//! Why a replica turns a client away: `queue`, a leader's queue has at most one request of each
//! client; `refusal`, each answer that refuses has its cause in the state that was executed when
//! the answer was made; `results`, what is reported of an order has happened. Definitions and laws;
//! no code that runs.
#![tactic(auto)]

pub mod queue;
pub mod refusal;
pub mod results;

pub use queue::{queues_keep_one_call, steps_keep_one_call};
pub use refusal::{
    nodes_have_causes, refusals_have_causes, running_replicas_take_requests,
    valid_journals_refuse_with_cause,
};
pub use results::reports_are_decided;
