//! One journal, and ports to it. Each actor posts its rows by a port of its own, and any number of
//! threads may do so at the same time.
mod answers;
mod fates;
mod ports;
mod shared;
mod turns;

pub use answers::{Fetched, Unposted};
pub use fates::Fate;
pub use ports::Port;
pub use sc_actor::Journal;
pub use sc_thread_ledger::{Glance, Look, PostError, Spot};
pub use shared::{BareRow, Exchange};
