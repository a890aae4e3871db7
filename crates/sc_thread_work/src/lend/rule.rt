//! The rule of a queue of loans, and what the holders of its passes know.
use crossbeam_queue::protocol::{Lesson, Outcome, Protocol, Split};
use std::collections::LinkedList;
use std::marker::PhantomData;

/// Work that can be lent.
pub trait Labour: Drop {
    /// Whether the second value is what working may leave of the first.
    ghost leaves: { Self → Self → Type 0 };
}

/// A piece of work that was lent, with its number among all that were lent, counted from 0, and
/// whether it was worked.
#[derive(Drop)]
pub struct Loan<T> {
    /// The number of the loan, from 0.
    pub number: u64,
    /// Whether it was worked.
    pub done: bool,
    /// The piece of work, or what working has left of it.
    pub work: T,
}

/// What the holder of a pass to the queue knows. No value of this type exists at run time;
/// contracts speak of it.
pub struct Clerk<T> {
    /// Whether this is the pass that lends.
    pub lends: bool,
    /// The work that the pass has lent, in the order of the numbers.
    pub lent: LinkedList<T>,
    /// The loans that the pass has taken, and so may give back.
    pub held: LinkedList<Loan<T>>,
    /// The number of loans that the pass has taken and not given back.
    pub out: u64,
}

/// The rule of the queue: between any two steps each loan in it is what was lent under its number,
/// or, where it is done, what working may leave of that. The loans in the queue and those that were
/// taken and not given back are as many as were lent.
pub struct Lending<T> {
    marker: PhantomData<T>,
}

impl<T: Labour> Protocol<Loan<T>, Clerk<T>> for Lending<T> {
    ghost use Rattle.sc_thread_work.specs.lend.Lending.{Lent, lender};

    ghost holds = { Lent T.leaves };

    ghost first = { lender };
}

/// The step that splits off a new pass, which does not lend.
pub struct Hire<T> {
    marker: PhantomData<T>,
}

impl<T> Split<Clerk<T>> for Hire<T> {
    ghost use Rattle.sc_thread_work.specs.lend.Lending.{helper};

    ghost left = { λ v. v };

    ghost right = { λ _. helper };
}

/// The step that lends. The queue then holds at most what this pass has lent and not taken back.
pub struct Lends<T> {
    marker: PhantomData<T>,
}

impl<T> Outcome<Loan<T>, Clerk<T>> for Lends<T> {
    ghost use Rattle.std.specs.Prelude.{◌≡◌};
    ghost use Rattle.sc_thread_work.specs.lend.Lending.{with_lent};

    ghost then = { λ v x w. w ≡ with_lent v x.work };
}

impl<T> Lesson<Loan<T>, Clerk<T>> for Lends<T> {
    ghost use Rattle.sc_thread_work.specs.lend.Lending.{IsOut};

    ghost fact = { IsOut };
}

/// The step that takes a loan. To the pass that lends it is a loan of what it has lent.
pub struct Takes<T> {
    marker: PhantomData<T>,
}

impl<T: Labour> Outcome<Loan<T>, Clerk<T>> for Takes<T> {
    ghost use Rattle.sc_thread_work.specs.lend.Lending.{Taken};

    ghost then = { Taken T.leaves };
}

impl<T: Labour> Lesson<Loan<T>, Clerk<T>> for Takes<T> {
    ghost use Rattle.std.specs.Prelude.{⊤};

    ghost fact = { λ _ _. ⊤ };
}

/// The step that gives a loan back.
pub struct GivesBack<T> {
    marker: PhantomData<T>,
}

impl<T> Outcome<Loan<T>, Clerk<T>> for GivesBack<T> {
    ghost use Rattle.std.specs.Prelude.{◌≡◌};
    ghost use Rattle.sc_thread_work.specs.lend.Lending.{with_back};

    ghost then = { λ v _ w. w ≡ with_back v };
}

impl<T> Lesson<Loan<T>, Clerk<T>> for GivesBack<T> {
    ghost use Rattle.std.specs.Prelude.{⊤};

    ghost fact = { λ _ _. ⊤ };
}
