//! The contents of groups' logs: commands, the records that they carry, the state of a group, and
//! orders.
mod bodies;
mod commands;
mod cores;
mod effects;
mod links;
mod orders;
mod votes;
mod weights;

pub use bodies::{Body, Offer, Watch};
pub use commands::Command;
pub use cores::{Base, Core, Lock};
pub use effects::Effect;
pub use links::{Link, MemberSets, Route};
pub use orders::{Order, OrderLine, OrderRefusal, OrderResult};
pub use votes::{DecidedList, Frozen, Gift, Heard, No, Outcome, Past, Vote, VotedList};
pub use weights::{
    base_weight, command_weight, op_weight, outcome_weight, reply_weight, vote_weight,
};
