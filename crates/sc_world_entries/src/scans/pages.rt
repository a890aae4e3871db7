//! Pages of a list of pairs.
use sc_base::{Key, Value};

/// A page of a list of pairs, and the key behind which the next page begins, if there is a next
/// page.
#[derive(Drop)]
pub struct Page {
    /// The pairs of the page, in the order of the list.
    pub pairs: Vec<(Key, Value)>,
    /// The last key of the page, where more pairs follow.
    pub next: Option<Key>,
}
