//! Tests of what threads share and work with: turns, ledgers, ports, shells, lent work, rounds, the
//! pool, schedules, storms, and the check of rows.
#![tactic(auto)]

#[cfg(test)]
mod checker_tests;
#[cfg(test)]
mod drive_tests;
#[cfg(test)]
mod ends_tests;
#[cfg(test)]
mod exchange_tests;
#[cfg(test)]
mod ledger_tests;
#[cfg(test)]
mod lend_tests;
#[cfg(test)]
mod notes;
#[cfg(test)]
mod players;
#[cfg(test)]
mod pool_tests;
#[cfg(test)]
mod queue_tests;
#[cfg(test)]
mod rounds_tests;
#[cfg(test)]
mod shell_tests;
#[cfg(test)]
mod storm_tests;
#[cfg(test)]
mod turn_tests;
#[cfg(test)]
mod watches;
