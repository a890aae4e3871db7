//! The words that the protocol is written in: the ideal store and legal histories (`ideal`),
//! commands of logs and the record of a group (`commands`), and what acceptors, leaders and logs
//! hold (`paxos`).
#![tactic(auto)]

pub mod commands;
pub mod ideal;
pub mod paxos;

pub use commands::{
    Base, Body, Command, Core, DecidedList, Effect, Frozen, Gift, Heard, Link, Lock, MemberSets,
    No, Offer, Order, OrderLine, OrderRefusal, OrderResult, Outcome, Past, Route, Vote, VotedList,
    Watch, base_weight, command_weight, op_weight, outcome_weight, reply_weight, vote_weight,
};
pub use ideal::{Entry, Seen, an_example_is_legal, parts_are_apart, tables_join_by_number};
pub use paxos::{
    AcceptAnswer, Counted, Flight, Learnt, Must, PrepareAnswer, Report, acceptors_never_fall,
    ballots_are_ordered, choice_is_first_highest,
};
