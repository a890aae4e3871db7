//! The parts of a node's replica: executed entries, queues and mails (`replica`), and what it says
//! in transactions (`transactions`).
#![tactic(auto)]

pub mod replica;
pub mod transactions;

pub use replica::{
    Entries, add_request, answer, answer_command, dismiss_all, drop_ready, drop_request, head,
    is_empty, order_number, push_back, push_front, put_ready, put_request, queued_number, ready_at,
    report_order, send, send_accepts, send_install, send_learns, send_prepares, send_result,
    take_head,
};
pub use transactions::{
    ask_next, awaits_vote, awaits_watch, before_of, has_waited, is_bound, noted_outcome,
    one_tick_more, pass_on, remind, report_vote, report_watch, send_outcome, speak, standing_vote,
};
