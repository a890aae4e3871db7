//! Tests of the step machines, by public calls alone. They are in a crate of their own, since a
//! crate with tests is proved twice.
#![tactic(auto)]

#[cfg(test)]
mod asks;
#[cfg(test)]
mod line_tests;
#[cfg(test)]
mod machine_tests;
#[cfg(test)]
mod node_tests;
#[cfg(test)]
mod outside_tests;
#[cfg(test)]
mod plan_tests;
#[cfg(test)]
mod replica_tests;
#[cfg(test)]
mod samples;
#[cfg(test)]
mod starts;
#[cfg(test)]
mod transaction_tests;
#[cfg(test)]
mod wish_tests;
