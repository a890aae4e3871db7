//! Random words that a number seeds, two for each step.
mod words;

pub use words::Chance;
