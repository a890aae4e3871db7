//! A run, from the arguments and bytes that come in to the bytes that go out. The program has
//! nothing else but its real input and output.
#![tactic(auto)]

mod answering;
mod auditing;
mod begun;
mod done;
mod drawing;
mod explaining;
mod making;
mod played;
mod reporting;
mod running;
mod saying;
mod showing;
mod texts;

pub use auditing::{audit, lawful_journals_are_confirmed};
pub use begun::begin;
pub use done::{Done, Text};
pub use explaining::explain_stored;
pub use making::made_scenario;
pub use played::{play, play_pool};
pub use reporting::{Left, play_whole, report, store};
pub use running::run;
pub use showing::show;
pub use texts::full_text;
