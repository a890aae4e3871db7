//! What one row does in a calm scenario (clients go, orders are given one at a time, mail is only
//! delivered): `pump`, to what waits at a leader; `following`, between a leader and its nodes;
//! `orders`, to the stages of an order; `calm`, to what is owed; `entries`, what an order's entry
//! needs to be counted. Definitions and laws; no function.
#![tactic(auto)]

pub mod calm;
pub mod entries;
pub mod following;
pub mod orders;
pub mod pump;
