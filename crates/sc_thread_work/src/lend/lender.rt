//! The lender of an office.
ghost use Rattle.std.specs.Prelude.{◌≡◌, true, length};
ghost use Rattle.crossbeam_queue.specs.Passes.{view};

use crate::lend::rule::{Clerk, Loan};
use crossbeam_queue::Pass;

/// The lender of an office, with its pass and the number of its next loan.
#[derive(Drop)]
pub struct Lender<T> {
    pub(crate) pass: Pass<Loan<T>, Clerk<T>>,
    pub(crate) next: u64,
    pub ghost lends: { (view pass).lends ≡ true },
    pub ghost counted: { next ≡ length (view pass).lent },
}
