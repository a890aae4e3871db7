//! The limits of a scenario.

/// The most bytes of a key.
pub(crate) const LONGEST_KEY: usize = 64;

/// The most bytes of a value.
pub(crate) const LONGEST_VALUE: usize = 256;

/// The most nodes, which is the greatest number of a node. The actor of client C has the number 32
/// + C.
pub const MOST_NODES: u32 = 32;

/// The greatest number of a client.
pub const MOST_CLIENTS: u32 = 64;

/// The most requests of a client.
pub const MOST_REQUESTS: usize = 1000;
