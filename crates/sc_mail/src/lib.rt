//! Mail between nodes, clients and the desk, its weight in the journal's bytes, and the actors
//! that send it: nodes and clients.
#![tactic(auto)]

mod bodies;
mod roles;
mod weights;

pub use bodies::{AnswerBody, DESK, Mail, MailBody, Reports, client_number};
pub use roles::Role;
