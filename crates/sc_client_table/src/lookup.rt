//! The routes of a client: which group it asks for a position, and which of the group's nodes.
mod laws;
mod routes;
mod ways;

pub use laws::choices_are_nearest;
pub use routes::Routes;
pub use ways::Way;
