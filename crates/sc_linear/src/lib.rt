//! Just-in-time search for an order of the requests on one key.
#![tactic(auto)]

mod places;
mod registers;
mod searches;
mod seen;
mod steps;
mod trail;

pub use searches::{Finding, search};
