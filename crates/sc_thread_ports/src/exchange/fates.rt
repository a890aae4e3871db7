//! What the network does to a mail.

/// What a row of the network does to a mail.
#[derive(Clone, Copy, Debug, PartialEq, Eq)]
pub enum Fate {
    /// A pending copy is lost.
    Lost,
    /// The mail has one more copy.
    Repeated,
}
