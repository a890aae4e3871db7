//! What each row of a journal decided, in lines of JSON.
mod adding;
mod changes;
mod counts;
mod explaining;
mod following;
mod groups;
mod places;
mod said;
mod taking;

pub use explaining::explain;
