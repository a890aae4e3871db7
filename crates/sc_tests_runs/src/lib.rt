//! Tests of runs, of the journals that they leave, and of replays of these. They stand apart, since
//! a crate with tests is proved twice.
#![tactic(auto)]

#[cfg(test)]
mod decided_tests;
#[cfg(test)]
mod gates;
#[cfg(test)]
mod hostile_tests;
#[cfg(test)]
mod journal_tests;
#[cfg(test)]
mod replay_tests;
#[cfg(test)]
mod run_tests;
#[cfg(test)]
mod scan_tests;
#[cfg(test)]
mod thread_tests;
#[cfg(test)]
mod transaction_tests;
