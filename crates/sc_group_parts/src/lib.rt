//! The parts of one group: what it stores (`store`), and its transactions with other groups
//! (`transactions`).
#![tactic(auto)]

pub mod store;
pub mod transactions;

pub use store::{ClientTable, Seen, Store, take_over};
pub use transactions::{
    Decision, can_merge, can_migrate, can_repart, can_split, check, decide, decides_alone,
    gained_arc, has_named, has_voted, held_back_by, lost_arc, merges_keep_the_total,
    migrations_keep_all, note_decision, plan_merge, plan_migrate, plan_repart, plan_split,
    reparts_keep_the_total, splits_keep_the_whole, splits_share_the_pairs, vote, watch_vote,
    welcomed_members,
};
