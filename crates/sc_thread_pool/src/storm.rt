//! Storms: what each of their steps does after a look at the journal.
mod deeds;
mod laws;
mod storms;

pub use deeds::Deed;
pub use laws::deeds_are_rows_of_the_walk;
pub use storms::{Storm, deed_at};
