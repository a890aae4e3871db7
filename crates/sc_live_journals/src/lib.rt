//! From rows to the journals of calm scenarios: `rows`, each row as one between a leader and its
//! nodes; `mail`, replicas and mail; `logs`, what a group's log says of them; `groups`, that a
//! group is well led; `scenes`, the stages of an order; `charts`, by which what is owed is counted.
//! Definitions and laws; no function.
#![tactic(auto)]

pub mod charts;
pub mod groups;
pub mod logs;
pub mod mail;
pub mod rows;
pub mod scenes;
