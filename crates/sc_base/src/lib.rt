//! Keys, values, arcs, ballots, names and operations, lists of them, and how they are copied and
//! compared; sets of one to nine nodes, and their majorities.
#![tactic(auto)]

mod arcs;
mod boxed;
mod dups;
mod limits;
mod lists;
mod majorities;
mod names;
mod nodes;
mod numbers;
mod ops;
mod ordered;
mod sames;
mod sets;
mod texts;
mod unions;

pub use arcs::{BadBoundary, BadLen, NotAdjacent, RingArc, arcs_are_sound};
pub use boxed::Boxed;
pub use dups::{Dup, OutOfMemory, dup_found};
pub use limits::{MOST_CLIENTS, MOST_NODES, MOST_REQUESTS};
pub use lists::Sequence;
pub use majorities::{majorities_meet, neighbours_meet};
pub use names::{Ballot, Draw, Draws, draws_are_apart, same_ballot, same_draw};
pub use numbers::read_number;
pub use ops::{Noted, Op, Pairs, Reply, SeenList};
pub use ordered::Ordered;
pub use sames::{Same, are_same};
pub use sets::{MemberError, Members};
pub use texts::{Key, KeyError, Value};
