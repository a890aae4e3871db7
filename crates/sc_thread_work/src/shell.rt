//! An actor with its port: what it does at a turn, and at an event.
mod shells;
mod turns;

pub use shells::Shell;
pub use turns::Turn;
