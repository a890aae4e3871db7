//! Proposals in flight.
use sc_base::Members;

/// A proposal in flight: a value that a leader has proposed at a slot, and the members that have
/// accepted it, if any have.
#[derive(Drop)]
pub struct Flight<V> {
    /// The slot of the log, counted from 1.
    pub slot: u32,
    /// The value proposed.
    pub value: V,
    /// The nodes whose votes are kept.
    pub voters: Option<Members>,
}
