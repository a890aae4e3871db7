//! A node or a client, as it runs.
use sc_client::ClientCore;
use sc_mail::Role;
use sc_node::NodeCore;

/// An actor of a scenario, a node or a client. Contracts see it as the player that it is, and it
/// keeps to that player's table.
pub type Party = Role<NodeCore, ClientCore>;
