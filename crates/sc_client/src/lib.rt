//! A client: it sends its requests one after another, and follows what answers say of groups.
#![tactic(auto)]

mod answers;
mod client;
mod requests;

pub use client::ClientCore;
