//! The seats, from which threads take turns at one value.
ghost use Rattle.std.specs.Prelude.{◌≡◌, ◌≢◌, ℕ, ◌+◌, ◌<◌, ◌^◌, ◌⊎◌, true, false, [], ◌∷◌, ◌++◌, length, Contains, IfOk, OnOk, OnErr, IsOk, None, if◌then◌else◌};
ghost use Rattle.std.specs.Arc.{arc_value};
ghost use Rattle.sc_thread_ports.specs.turn.Turn.{opener, newcomer, with_given, with_seen, entered_with, left_with, merged_seen, StartsWith, IsTrueOf, IsTrueLater, IsTrueOver, CanLeave, rows_by};

use crate::turn::listed::Listed;
use crate::turn::plays::{Look, Merge, Note, Number, Read, Release, SplitOff};
use crate::turn::rule::{Turning, View};
use crate::turn::steps::{acquire, count_row};
use atomic_table::{Seat, Table};
use sc_base::OutOfMemory;
use std::alloc::Global;
use std::marker::Brand;
use std::sync::atomic::{AtomicU32, Ordering};
use std::sync::{Arc, Wait};

// What the seats share: the table, and a count of those that sleep until the turn is free. No
// contract speaks of the count: it only saves the call that would wake nobody.
#[derive(Drop)]
struct Desk<T: Listed> {
    table: Table<Option<T>, View<T::Entry>, (), Turning<T>, Global>,
    sleepers: AtomicU32,
}

/// A seat at the table, by which one thread takes turns at the shared value. Its meaning is its
/// view: its number, the rows that it has seen, the rows that were made under its number, and
/// whether it has the turn.
#[derive(Drop)]
pub struct TurnSeat<T: Listed> {
    desk: Arc<Desk<T>>,
    place: Seat<Option<T>, View<T::Entry>>,
    ghost seated: { place.table_id ≡ (arc_value desk).table.shared.table_id },
    ghost sized: { (place.table_id.words ≡ 2) × (place.table_id.slots ≡ 1) },
    ghost carries: { place.me.1 ≡ (if place.me.0.turn then (0, None) ∷ [] else []) },
    ghost numbered: { (place.me.0.live ≡ true) × (place.me.0.received ≡ []) },
}

impl<T: Listed> TurnSeat<T> {
    ghost use Rattle.sc_thread_ports.specs.turn.Seats.{known, OfOneStart, AllJoined};

    /// Returns the first seat, number 0, of a new table. The value must stand for the empty list.
    /// `Err(OutOfMemory)`: there is no table, and the value is dropped.
    pub fn start(alloc: Global, value: T) -> Result<TurnSeat<T>, OutOfMemory>
        requires { T.entries value ≡ [] }
        ensures { IfOk result (λ s. known s ≡ opener) }
    {
        let mut slots = Vec::new(alloc);
        slots.push(Some(value))?;
        let (table, place) = Table::new(alloc, &[0, 0], slots, &()).map_err(|_| OutOfMemory)?;
        let sleepers = AtomicU32::new(0);
        let desk = Arc::new(alloc, Desk { table, sleepers })?;
        Ok(TurnSeat { desk, place })
    }

    /// Takes the turn and the value, and sleeps while another seat has the turn. The value's list
    /// begins with all that this seat has seen, and has the rows of the seat's number, and of each
    /// number that it joined, as they were made. It may block for ever: no clause says that a turn
    /// is ever got.
    pub fn enter<R: Wait>(&mut self, rt: &R) -> T
        requires { (known self.old).turn ≡ false }
        ensures start { OfOneStart self.old self.new }
        ensures view { known self.new ≡ entered_with (known self.old) (T.entries result) }
        ensures later { StartsWith (T.entries result) (known self.old).seen }
        ensures facts { IsTrueOf (known self.old) (T.entries result) }
    {
        let desk = &self.desk;
        let shared = &desk.table.shared;
        acquire(rt, shared, &desk.sleepers, &mut self.place);
        shared.exchange(&mut self.place, 0, None).unwrap()
    }

    /// Gives the value and the turn back, and wakes one seat that sleeps, if any does. The value's
    /// list has to be the one that `enter` gave, or that list and one more row with this seat's
    /// number.
    pub fn leave(&mut self, value: T)
        requires turn { (known self.old).turn ≡ true }
        requires list { CanLeave (known self.old) (T.entries value) }
        requires fits { length (T.entries value) + 1 < 2 ^ 64 }
        ensures start { OfOneStart self.old self.new }
        ensures view { known self.new ≡ left_with (known self.old) (T.entries value) }
    {
        let desk = &self.desk;
        let shared = &desk.table.shared;
        let rows = value.count();
        shared.exchange(&mut self.place, 0, Some(value));
        count_row(shared, &mut self.place, rows);
        shared.store::<Release<T>>(&mut self.place, 0, 0);
        // These steps and those of `acquire` are sequentially consistent, so a thread that is not
        // yet counted here finds the turn free before it sleeps.
        if 0 < desk.sleepers.load(Ordering::SeqCst) {
            shared.wake_one(0);
        }
    }

    // Splits off a new seat of the number `who`, under a type `J` that the caller makes for it.
    fn split_as<J: Number>(&mut self, who: u32) -> Result<TurnSeat<T>, OutOfMemory>
        requires start { ((known self.old).who ≡ 0) × ((known self.old).turn ≡ false) }
        requires picked { J.number ≡ who }
        requires number { who ≢ 0 }
        requires fresh { ¬ Contains (known self.old).given who }
        ensures start { OfOneStart self.old self.new }
        ensures ok { IfOk result
            (λ s. OfOneStart self.old s × (known s ≡ newcomer who (known self.old).seen)) }
        ensures facts { IfOk result (λ s. IsTrueLater (known s)) }
        ensures given { OnOk result (known self.new ≡ with_given (known self.old) who) }
        ensures err { OnErr result (known self.new ≡ known self.old) }
    {
        let desk = Arc::try_clone(&self.desk)?;
        let shared = &desk.table.shared;
        let mut place = shared.split_seat::<SplitOff<J>>(&mut self.place);
        shared.load::<Read<T>>(&mut place, 1);
        Ok(TurnSeat { desk, place })
    }

    /// Returns a new seat of the number `who`, which has seen what this seat has seen and has made
    /// nothing. Only the first seat may split others off, each number once. `Err(OutOfMemory)`: no
    /// seat was made, and the number is still free.
    pub fn split(&mut self, who: u32) -> Result<TurnSeat<T>, OutOfMemory>
        requires start { ((known self.old).who ≡ 0) × ((known self.old).turn ≡ false) }
        requires number { who ≢ 0 }
        requires fresh { ¬ Contains (known self.old).given who }
        ensures start { OfOneStart self.old self.new }
        ensures ok { IfOk result
            (λ s. OfOneStart self.old s × (known s ≡ newcomer who (known self.old).seen)) }
        ensures facts { IfOk result (λ s. IsTrueLater (known s)) }
        ensures given { OnOk result (known self.new ≡ with_given (known self.old) who) }
        ensures err { OnErr result (known self.new ≡ known self.old) }
    {
        self.split_as::<Brand>(who)
    }

    // Sends what the other seat has seen to this seat, which then sees every row counted so far.
    fn hear(&mut self, other: &mut TurnSeat<T>)
        requires { OfOneStart self.old other.old }
        ensures start { OfOneStart self.old self.new × OfOneStart other.old other.new }
        ensures view { known self.new ≡ with_seen (known self.old) (known self.new).seen }
        ensures other { known other.new ≡ known other.old }
        ensures later { StartsWith (known self.new).seen (known self.old).seen }
        ensures received { StartsWith (known self.new).seen (known other.old).seen }
        ensures facts { IsTrueOf (known self.new) (known self.new).seen }
    {
        let desk = &self.desk;
        let shared = &desk.table.shared;
        let note = shared.split_seat::<Note>(&mut other.place);
        shared.join_seat::<Note>(&mut self.place, note);
        shared.load::<Look<T>>(&mut self.place, 1);
    }

    /// Shows that there is one list which begins both with what this seat has seen and with what
    /// `other` has seen, and in which the rows of this seat's number are those that were made under
    /// it. Neither seat sees more rows afterwards.
    pub fn vouch(&mut self, other: &mut TurnSeat<T>)
        requires one_start { OfOneStart self.old other.old }
        requires turn { ((known self.old).turn ≡ false) × ((known other.old).turn ≡ false) }
        ensures start { OfOneStart self.old self.new × OfOneStart other.old other.new }
        ensures same { (known self.new ≡ known self.old) × (known other.new ≡ known other.old) }
        ensures over { IsTrueOver (known self.new) (known other.new).seen }
    {
        let desk = &self.desk;
        let shared = &desk.table.shared;
        let note = shared.split_seat::<Note>(&mut other.place);
        shared.join_seat::<Note>(&mut self.place, note);
        shared.load::<Read<T>>(&mut self.place, 1);
    }

    /// Lets two seats of one start exchange what they have seen. Afterwards what each has seen
    /// begins with what both had seen before, and what `other` has seen begins with what this seat
    /// has seen. It takes no memory and never returns `OutOfMemory`.
    pub fn meet<R: Wait>(&mut self, _rt: &R, other: &mut TurnSeat<T>) -> Result<(), OutOfMemory>
        requires one_start { OfOneStart self.old other.old }
        requires turn { ((known self.old).turn ≡ false) × ((known other.old).turn ≡ false) }
        ensures start { OfOneStart self.old self.new × OfOneStart other.old other.new }
        ensures view { (known self.new ≡ with_seen (known self.old) (known self.new).seen)
            × (known other.new ≡ with_seen (known other.old) (known other.new).seen) }
        ensures mine { StartsWith (known self.new).seen (known self.old).seen
            × StartsWith (known self.new).seen (known other.old).seen }
        ensures theirs { StartsWith (known other.new).seen (known self.old).seen
            × StartsWith (known other.new).seen (known other.old).seen }
        ensures last { StartsWith (known other.new).seen (known self.new).seen }
        ensures facts { IsTrueOf (known self.new) (known self.new).seen
            × IsTrueOf (known other.new) (known other.new).seen }
        ensures none { IsOk result }
    {
        self.hear(other);
        other.hear(self);
        Ok(())
    }

    /// Takes another seat of the same start into the first seat, which from then on knows the rows
    /// that the other had made. It keeps the longer of the two lists that they have seen, which
    /// begins with the shorter.
    pub fn join(&mut self, other: TurnSeat<T>)
        requires start { (known self.old).who ≡ 0 }
        requires one_start { OfOneStart self.old other }
        requires turn { ((known self.old).turn ≡ false) × ((known other).turn ≡ false) }
        ensures start { OfOneStart self.old self.new }
        ensures view { known self.new ≡ merged_seen (known self.old) (known other) }
        ensures later { StartsWith (known self.new).seen (known self.old).seen
            × StartsWith (known self.new).seen (known other).seen }
        ensures facts { IsTrueLater (known self.new) }
        ensures others { (n : ℕ) → n ≢ 0 → ¬ Contains (known self.new).given n →
            rows_by n (known self.new).seen ≡ [] }
    {
        let TurnSeat { desk: _, place } = other;
        let desk = &self.desk;
        let shared = &desk.table.shared;
        shared.join_seat::<Merge>(&mut self.place, place);
        shared.load::<Read<T>>(&mut self.place, 1);
    }

    /// Waits for the turn and returns the value; the turn is never given back. Each seat that was
    /// split off must have been joined. It may block for ever.
    pub fn close<R: Wait>(self, rt: &R) -> T
        requires start { ((known self).who ≡ 0) × ((known self).turn ≡ false) }
        requires joined { AllJoined (known self) }
        ensures later { StartsWith (T.entries result) (known self).seen }
        ensures facts { IsTrueOf (known self) (T.entries result) }
    {
        let mut last = self;
        last.enter(rt)
    }
}
