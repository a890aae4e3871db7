//! The atomic steps of a turn, each with what it does to a seat's view.
ghost use Rattle.std.specs.Prelude.{ℕ, []};
ghost use Rattle.sc_thread_ports.specs.turn.Turn.{acquire_returns, look_returns, read_returns, append_returns, release_returns, with_given, newcomer, note, informed, merged};

use crate::turn::listed::Listed;
use crate::turn::rule::View;
use atomic_table::{Join, Play, Split};
use std::marker::{Brand, PhantomData};

/// The attempt to take the turn: word 0 goes from 0 to 1 where it is 0.
pub(crate) struct Acquire<T> {
    marker: PhantomData<T>,
}

impl<T: Listed> Play<Option<T>, View<T::Entry>> for Acquire<T> {
    ghost then = { acquire_returns T.entries };
}

/// The load of the number of rows after which the seat has seen all rows so far.
pub(crate) struct Look<T> {
    marker: PhantomData<T>,
}

impl<T: Listed> Play<Option<T>, View<T::Entry>> for Look<T> {
    ghost then = { look_returns T.entries };
}

/// The load of the number of rows after which the seat has seen no more than before.
pub(crate) struct Read<T> {
    marker: PhantomData<T>,
}

impl<T: Listed> Play<Option<T>, View<T::Entry>> for Read<T> {
    ghost then = { read_returns T.entries };
}

/// The addition of 1 to the number of rows, for the row that the value in the slot has beyond the
/// counted ones.
pub(crate) struct Append<T> {
    marker: PhantomData<T>,
}

impl<T: Listed> Play<Option<T>, View<T::Entry>> for Append<T> {
    ghost then = { append_returns T.entries };
}

/// The step that gives the turn back: word 0 is set to 0.
pub(crate) struct Release<T> {
    marker: PhantomData<T>,
}

impl<T: Listed> Play<Option<T>, View<T::Entry>> for Release<T> {
    ghost then = { release_returns T.entries };
}

/// The number of a new seat, as a type. The call that makes the seat chooses it.
pub(crate) trait Number {
    ghost number: { ℕ };
}

impl Number for Brand {
    ghost number = { 0 };
}

/// The step that splits off a new seat with the number of `J`.
pub(crate) struct SplitOff<J> {
    marker: PhantomData<J>,
}

impl<E, J: Number> Split<View<E>> for SplitOff<J> {
    ghost left = { λ v. with_given v J.number };

    ghost right = { λ v. newcomer J.number v.seen };
}

/// The step that splits off a view without a number, and the one by which another seat takes it in:
/// it carries what was seen from one seat to another.
pub(crate) struct Note;

impl<E> Split<View<E>> for Note {
    ghost left = { λ v. v };

    ghost right = { λ v. note v.seen };
}

impl<E> Join<View<E>> for Note {
    ghost both = { informed };

    ghost spent = { note [] };
}

/// The step by which the first seat takes in another.
pub(crate) struct Merge;

impl<E> Join<View<E>> for Merge {
    ghost both = { merged };

    ghost spent = { note [] };
}
