//! The answers of rounds, and the two ways in which they are played.

/// How rounds end.
#[derive(Clone, Copy, Debug, PartialEq, Eq)]
pub enum Rounds {
    /// Nothing is pending for the shells' actors. `used` deliveries were made.
    Quiet { used: u32 },
    /// All deliveries were used, and mail is pending. `used` deliveries were made.
    Limit { used: u32 },
    /// A row was refused, since with it the journal would pass its limit. `bytes` are its counted
    /// bytes.
    Full { bytes: u64 },
    /// Memory ran out.
    OutOfMemory,
}

/// How the shells take their turns.
#[derive(Clone, Copy, Debug, PartialEq, Eq)]
pub enum Way {
    /// In rounds: each shell takes one turn, runs of neighbours at the same time.
    Runs,
    /// In phases: each shell is put into one queue, from which workers take, and takes up to 16
    /// turns.
    Queue,
}
