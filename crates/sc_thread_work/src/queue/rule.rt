//! The rule of a queue, and what the holders of its passes know.
use crossbeam_queue::protocol::{Join, Lesson, Outcome, Protocol, Split};
use std::collections::LinkedList;
use std::marker::PhantomData;

/// An element of the list, with its place there, counted from 0.
#[derive(Drop)]
pub struct Item<T> {
    /// The place in the list, from 0.
    pub place: usize,
    /// The element.
    pub work: T,
}

/// What the holder of a pass to the queue knows. No value of this type exists at run time;
/// contracts speak of it.
pub struct Hand<T> {
    /// The parts that the pass has of the right to know the whole queue, of 32 in all.
    pub parts: u64,
    /// Whether this is the pass that puts.
    pub puts: bool,
    /// The items that the pass has put.
    pub put: LinkedList<Item<T>>,
    /// The items that the pass has taken.
    pub taken: LinkedList<Item<T>>,
    /// The number of passes that the pass has taken in.
    pub passes: u64,
}

/// The rule of the queue: between any two steps each item that was put is in the queue or was taken
/// by one pass, once, and has the place at which it was put.
pub struct OneHolder<T> {
    marker: PhantomData<T>,
}

impl<T> Protocol<Item<T>, Hand<T>> for OneHolder<T> {
    ghost use Rattle.sc_thread_work.specs.queue.Hands.{Kept, opener};

    ghost holds = { Kept };

    ghost first = { opener };
}

/// The step that splits off a new pass, which has put and taken nothing, and the one by which a
/// pass takes in another.
pub struct Cut<T> {
    marker: PhantomData<T>,
}

impl<T> Split<Hand<T>> for Cut<T> {
    ghost use Rattle.sc_thread_work.specs.queue.Hands.{less, taker};

    ghost left = { less };

    ghost right = { λ _. taker };
}

impl<T> Join<Hand<T>> for Cut<T> {
    ghost use Rattle.sc_thread_work.specs.queue.Hands.{joined, idle};

    ghost both = { joined };

    ghost spent = { idle };
}

/// The step that puts an item. The queue then holds at most what this pass has put.
pub struct Puts<T> {
    marker: PhantomData<T>,
}

impl<T> Outcome<Item<T>, Hand<T>> for Puts<T> {
    ghost use Rattle.std.specs.Prelude.{◌≡◌};
    ghost use Rattle.sc_thread_work.specs.queue.Hands.{with_put};

    ghost then = { λ v x w. w ≡ with_put v x };
}

impl<T> Lesson<Item<T>, Hand<T>> for Puts<T> {
    ghost use Rattle.sc_thread_work.specs.queue.Hands.{HasRoom};

    ghost fact = { HasRoom };
}

/// The step that takes an item. A pass that puts and has all parts knows the whole queue then.
pub struct Takes<T> {
    marker: PhantomData<T>,
}

impl<T> Outcome<Item<T>, Hand<T>> for Takes<T> {
    ghost use Rattle.std.specs.Prelude.{◌≡◌};
    ghost use Rattle.sc_thread_work.specs.queue.Hands.{with_taken};

    ghost then = { λ v x w. w ≡ with_taken v x };
}

impl<T> Lesson<Item<T>, Hand<T>> for Takes<T> {
    ghost use Rattle.sc_thread_work.specs.queue.Hands.{KnowsWhole};

    ghost fact = { KnowsWhole };
}
