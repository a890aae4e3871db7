//! A node: its replicas, one a group, which step as the node's table says. It also has the rows of
//! a replica's table that execute, and those of transactions, orders and ticks.
#![tactic(auto)]

mod absent;
mod arrivals;
mod births;
mod counts;
mod execute;
mod node;
mod ordered;
mod orders;
mod places;
mod rows;
mod speech;
mod ticks;
mod transactions;
mod wishes;

pub use node::{NodeCore, are_in_order};
pub use orders::on_order;
pub use rows::{step_replica, take_mail};
pub use ticks::on_tick;
