//! Work that is lent to threads which stay alive, and that comes back.
mod lender;
mod office;
mod rule;

pub use lender::Lender;
pub use office::{Closed, Helper, Office, help_all, open};
pub use rule::{Clerk, Labour, Loan};
