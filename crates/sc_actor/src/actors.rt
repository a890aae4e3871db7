//! Actors, the step machines of a run, and their mail.
ghost use Rattle.std.specs.Prelude.{◌≡◌, ℕ, ◌-◌, ◌^◌, List, IfOk, min};
ghost use Rattle.sc_actor.specs.declared.rows.Input.{Input};

use crate::rows::Input;
use sc_base::{Dup, OutOfMemory, Sequence};
use std::alloc::Global;

/// A mail: a message that one actor sends to another, or to the desk. The desk, number 0, is the
/// outside that gives orders and gets their outcomes.
pub trait Parcel: Dup {
    /// The number of the actor that the mail goes to, 0 for the desk.
    ghost receiver: { Self → ℕ };

    /// The mail's weight, in counted bytes, without an upper bound.
    ghost weighs: { Self → ℕ };

    /// Returns the number of the actor that the mail goes to, 0 for the desk.
    fn to(&self) -> u32
        ensures { result ≡ receiver self.now };

    /// Returns the mail's weight in counted bytes, or 2^64 - 1 where the weight is above that.
    fn weight(&self) -> u64
        ensures { result ≡ min (weighs self.now) (2 ^ 64 - 1) };
}

/// A deterministic state machine: an input changes it, and it sends mail in answer.
pub trait Actor: Sized + Drop + Send {
    /// The mail that the actor receives and sends.
    type Mail: Parcel + Drop + Send;

    /// The orders that the actor may get from the outside.
    type Order: Dup + Drop + Send;

    /// The actor's transition table: the actor after an input, and the mail that it sends.
    ghost table: { Self → Input Self.Mail Self.Order → Self × List Self.Mail };

    /// Applies an input as the table says, and returns the mail that is sent. After
    /// `Err(OutOfMemory)` the contract says nothing of the actor, so it may only be dropped.
    fn step(
        &mut self,
        alloc: Global,
        input: &Input<Self::Mail, Self::Order>,
    ) -> Result<Sequence<Self::Mail>, OutOfMemory>
        ensures { IfOk result (λ sent. table self.old input.now ≡ (self.new, sent)) };
}

/// An actor with its number.
#[derive(Drop)]
pub struct Seat<A> {
    pub who: u32,
    pub actor: A,
}
