//! A replica: one group on one node, which steps as its table says.
#![tactic(auto)]

mod asked;
mod election;
mod execute;
mod floors;
mod install;
mod mails;
mod pump;
mod queues;
mod replica;
mod rows;
mod voting;
mod waiting;

pub use replica::{LAST_SLOT, Replica};
pub use sc_node_table::ReplicaInput;
