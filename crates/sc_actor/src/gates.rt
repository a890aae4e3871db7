//! A hook between the input that an actor gets and the row that records what it made of it.

/// A hook that each actor passes between reading its mail and writing the row for it.
pub trait Gate: Sync {
    /// Runs once between each fetch of a mail and the post of its row, with the actor's number. It
    /// returns in every case.
    fn pass(&self, who: u32);
}
