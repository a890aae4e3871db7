//! What each seat knows, and the rule of the table.
//!
//! Word 0 is 1 while a seat has the turn, and else 0. Word 1 is the number of rows. The one slot
//! has the value while the turn is free.
use crate::turn::listed::Listed;
use atomic_table::TableRule;
use std::collections::LinkedList;
use std::marker::PhantomData;

/// What a seat knows. No value of this type exists at run time; contracts speak of it.
pub struct View<E> {
    /// The number of the seat, which no other seat carries while `live` is true.
    pub who: u32,
    /// Whether the view carries a number: false for a note.
    pub live: bool,
    /// Whether the seat has the turn.
    pub turn: bool,
    /// The rows that the seat has seen, each with the number of its maker.
    pub seen: LinkedList<(E, u32)>,
    /// The rows that another seat has sent it and that it has not yet compared with the list.
    pub received: LinkedList<(E, u32)>,
    /// The rows that the seat has made.
    pub made: LinkedList<E>,
    /// The numbers that the seat has split off.
    pub given: LinkedList<u32>,
    /// The numbers of the seats that it has joined, each with the rows that were made under it.
    pub joined: LinkedList<(u32, LinkedList<E>)>,
}

/// The rule of the table: `Kept` holds between any two atomic steps.
pub struct Turning<T> {
    marker: PhantomData<T>,
}

impl<T: Listed> TableRule<Option<T>, View<T::Entry>, ()> for Turning<T> {
    ghost use Rattle.sc_thread_ports.specs.turn.Turn.{Kept, opener};

    ghost holds = { λ _. Kept T.entries };

    ghost first = { λ _. opener };
}
