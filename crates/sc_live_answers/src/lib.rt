//! Calm scenarios are answered within their budget: no line of deliveries is cut off, and every
//! request is answered of a client whose `go` line is followed by a line of deliveries, while
//! orders reshape the ring. Definitions and laws, no logic.
#![tactic(auto)]

mod answered_laws;

pub use answered_laws::{
    calm_journals_go_on, calm_lines_settle, calm_requests_are_answered, last_lines_answer,
    orders_in_quiet_are_answered, plain_journals_are_answered, settled_orders_are_reported,
    settled_requests_are_answered,
};
