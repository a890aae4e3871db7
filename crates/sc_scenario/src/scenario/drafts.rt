//! What was read of a scenario's lines so far.
use crate::scenario::scenarios::{Asks, ClientList, Schedule};
use sc_base::{Members, Sequence};

/// The line of a group: where its arc begins, and its members.
#[derive(Drop)]
pub struct GroupLine {
    pub lo: u32,
    pub members: Members,
}

/// The lines of the groups, in order.
pub type GroupLines = Sequence<GroupLine>;

/// The part of a scenario that was read so far. `nodes` is 0 before its line, `clients` are those
/// whose sections have ended, by number, and `orders` is the number of orders in `lines`.
#[derive(Drop)]
pub struct Draft {
    pub version: u8,
    pub nodes: u16,
    pub groups: GroupLines,
    pub policy: bool,
    pub clients: ClientList,
    pub lines: Schedule,
    pub orders: u32,
}

/// The state of the parser.
#[derive(Drop)]
pub enum Reading {
    /// Nothing was read: the header is missing.
    Fresh,
    /// No section is open. It has what was read.
    Outside(Draft),
    /// The section of a client is open. It has what was read before, and its requests so far.
    Within(Draft, Asks),
}
