//! Threads append to one list, one at a time (`turn`): the ports of the actors and of the network
//! to one journal (`exchange`).
#![tactic(auto)]

pub mod exchange;
pub mod turn;

pub use exchange::{
    BareRow, Exchange, Fate, Fetched, Glance, Journal, Look, Port, PostError, Spot, Unposted,
};
pub use turn::{Listed, TurnSeat, Turning, View};
