//! What threads work on: an actor with its port (`shell`), a list over one queue (`queue`), and
//! work lent to threads that are kept (`lend`).
#![tactic(auto)]

pub mod lend;
pub mod queue;
pub mod shell;

pub use lend::{Clerk, Closed, Helper, Labour, Lender, Loan, Office, help_all, open};
pub use queue::{Hand, Holder, Item, WorkedOff, work_off};
pub use shell::{Shell, Turn};
