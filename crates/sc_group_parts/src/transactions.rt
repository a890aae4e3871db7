//! Transactions of groups: whether an order is refused and why, the plans of splits, merges, moved
//! boundaries and handed-over members for both sides, how a group votes, what it has decided, and
//! which locks hold requests back.
mod calls;
mod checks;
mod deciding;
mod decisions;
mod merges;
mod migration_laws;
mod migrations;
mod moved_arcs;
mod repart_laws;
mod reparts;
mod split_laws;
mod splits;
mod votes;

pub use calls::held_back_by;
pub use checks::{check, has_named, has_voted};
pub use deciding::decides_alone;
pub use decisions::note_decision;
pub use merges::{can_merge, plan_merge};
pub use migration_laws::migrations_keep_all;
pub use migrations::{can_migrate, plan_migrate, welcomed_members};
pub use moved_arcs::{gained_arc, lost_arc};
pub use repart_laws::reparts_keep_the_total;
pub use reparts::{can_repart, plan_repart};
pub use split_laws::{merges_keep_the_total, splits_keep_the_whole, splits_share_the_pairs};
pub use splits::{can_split, plan_split};
pub use votes::{Decision, decide, vote, watch_vote};
