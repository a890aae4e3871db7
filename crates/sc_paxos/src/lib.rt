//! The parts of one Paxos replica: the acceptor, the log as far as it was learnt, and the leader
//! with the votes that it counts and the value that it must propose.
#![tactic(auto)]

mod acceptor;
mod flights;
mod leader;
mod log;
mod picking;
mod voters;

pub use acceptor::Acceptor;
pub use leader::Leader;
pub use log::Glog;
pub use picking::pick;
pub use sc_words::{AcceptAnswer, Counted, Learnt, Must, PrepareAnswer};
