//! The ledger of one exchange: the rows so far, their counted bytes, and the mail that is pending.
//! It has no handle and no lock.
#![tactic(auto)]

mod copies;
mod counting;
mod errors;
mod finding;
mod ledger;
mod picking;
mod plain;
mod queues;
mod spots;

pub use errors::{PostError, Unkept};
pub use ledger::Ledger;
pub use spots::{Glance, Look, Spot};
