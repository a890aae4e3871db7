//! The answers of a shell.

/// The answer of a turn or an event.
#[derive(Clone, Copy, Debug, PartialEq, Eq)]
pub enum Turn {
    /// A row was posted, at the place `at` of the journal, counted from 1.
    Did { at: u32 },
    /// Fewer mails were pending than the turn asked for, when the journal had `seen` rows.
    Empty { seen: u32 },
    /// The row of this turn would pass the limit; the counted bytes are `bytes`. The shell is spent
    /// now.
    Full { bytes: u64 },
    /// The shell was spent before: it has posted a Crash, or has answered `Full` or `OutOfMemory`.
    Spent,
    /// Memory ran out. The shell is spent now.
    OutOfMemory,
}
