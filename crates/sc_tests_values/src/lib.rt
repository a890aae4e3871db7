//! Tests of values and of the parts of step machines, by public calls alone: values, commands,
//! mail, scenarios, reports; members, sources and sinks, histories, actors, stores, client tables,
//! acceptors, leaders, logs, the types of Paxos, routes, clients, the refusals of orders and the
//! plans of splits. They are in a crate of their own, since a crate with tests is proved twice.
#![tactic(auto)]

#[cfg(test)]
mod acceptor_tests;
#[cfg(test)]
mod actor_tests;
#[cfg(test)]
mod base_tests;
#[cfg(test)]
mod choice_tests;
#[cfg(test)]
mod client_table_tests;
#[cfg(test)]
mod client_tests;
#[cfg(test)]
mod command_tests;
#[cfg(test)]
mod edge_tests;
#[cfg(test)]
mod entry_tests;
#[cfg(test)]
mod groups;
#[cfg(test)]
mod leader_tests;
#[cfg(test)]
mod log_tests;
#[cfg(test)]
mod mail_tests;
#[cfg(test)]
mod member_tests;
#[cfg(test)]
mod order_tests;
#[cfg(test)]
mod report_tests;
#[cfg(test)]
mod route_tests;
#[cfg(test)]
mod scenario_tests;
#[cfg(test)]
mod split_tests;
#[cfg(test)]
mod store_tests;
#[cfg(test)]
mod values;
mod vectors;

pub use vectors::{REFUSED, Refused};
