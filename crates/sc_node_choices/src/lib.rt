//! What a replica chooses from a part of what it keeps: why a request is not taken, the members of
//! the open slots, which nodes are asked, and what a group has noted of transactions. Nothing here
//! drops a mail or a command.
#![tactic(auto)]

mod acts;
mod choices;
mod commands;
mod heard;
mod nodes;
mod noted;
mod open_sets;

pub use acts::{has_kind, is_of_kind};
pub use choices::{floor_of, is_at_rest, request_refusal, turned_down, waits, waits_in};
pub use commands::{is_act, same_command};
pub use heard::record_of;
pub use nodes::{nodes_to, not_among, uncounted};
pub use noted::{awaits_vote, awaits_watch, is_bound, noted_outcome, standing_vote};
pub use open_sets::Sets;
