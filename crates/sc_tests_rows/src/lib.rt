//! Tests of rows, and of lists of entries: which texts are rows and files, which rows of ticks, and
//! of nodes and clients that are stepped by hand, are lawful; what entries make of all groups, what
//! is known of a group of which no row says anything, and how arcs, pairs and pages of a scan are
//! cut. They are in a crate of their own, since a crate with tests is proved twice.
#![tactic(auto)]

#[cfg(test)]
mod file_tests;
#[cfg(test)]
mod hand_tests;
#[cfg(test)]
mod known_tests;
#[cfg(test)]
mod ring_tests;
#[cfg(test)]
mod row_tests;
#[cfg(test)]
mod scan_tests;
#[cfg(test)]
mod scenarios;
#[cfg(test)]
mod tick_tests;
