//! Parts of a replica: the executed entries, queued and ready commands, and the mails that it
//! sends.
mod executed_log;
mod mails;
mod queues;
mod ready;
mod rounds;

pub use executed_log::Entries;
pub use mails::{
    answer, answer_command, dismiss_all, order_number, report_order, send, send_result,
};
pub use queues::{
    add_request, drop_request, head, is_empty, push_back, push_front, put_request, queued_number,
    take_head,
};
pub use ready::{drop_ready, put_ready, ready_at};
pub use rounds::{send_accepts, send_install, send_learns, send_prepares};
