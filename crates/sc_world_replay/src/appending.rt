//! Appending of a row to a stage, with all that is kept beside the rows.
ghost use Rattle.std.specs.Prelude.{◌≡◌, ℕ, ◌<◌, ◌≤◌, ◌+◌, ◌^◌, ◌++◌, ◌∷◌, [], ◌||◌, ◌&&◌, ◌==◌, nat_lt, true, false, length, replicate, Contains, OnOk, IsOk};
ghost use Rattle.std.specs.List.{list_any, prefix_len};
ghost use Rattle.sc_actor.specs.Mail.{mails, numbered, is_crash};
ghost use Rattle.sc_actor.specs.System.{numbers_of, is_go};
ghost use Rattle.sc_world_replay.specs.Actions.{holds_of};
ghost use Rattle.sc_world_replay.specs.Opens.{opens, opened, reopened, runs, without, with_copy, without_to};
ghost use Rattle.sc_world_replay.specs.Stages.{IsUpToDate};

use crate::pending::{is_crash, is_go, runs};
use crate::stages::{OpenCopy, Stage};
use sc_actor::{Event, Parcel, Row, Seat};
use sc_base::{Dup, OutOfMemory};
use std::alloc::Global;

// Returns the number of copies at the beginning that have lower numbers.
fn lower(pending: &[OpenCopy], number: u32) -> usize
    ensures place { result ≡ prefix_len (λ copy. nat_lt copy.number number) pending.now }
    ensures bound { result ≤ length pending.now }
{
    for i in 0..pending.len() {
        if pending[i].number >= number {
            return i;
        }
    }
    pending.len()
}

// Removes a pending copy of a mail, if there is one.
fn close_one(pending: &mut Vec<OpenCopy>, number: u32)
    ensures { pending.new.items ≡ without pending.old.items number }
{
    let place = lower(pending, number);
    if place < pending.len() && pending[place].number == number {
        pending.remove(place);
    }
}

// Adds one more pending copy.
fn open_one(pending: &mut Vec<OpenCopy>, copy: OpenCopy) -> Result<(), OutOfMemory>
    ensures { OnOk result (pending.new.items ≡ with_copy pending.old.items copy) }
{
    let place = lower(pending, copy.number);
    pending.insert(place, copy)?;
    Ok(())
}

// Removes the pending copies for an actor that crashed.
fn close_all(pending: &mut Vec<OpenCopy>, who: u32)
    ensures { pending.new.items ≡ without_to pending.old.items who }
{
    pending.retain(|copy| copy.to != who);
}

// Adds a pending copy of a mail that is repeated, if it was sent to an actor that has not crashed.
fn repeat<A, M: Parcel>(
    seats: &[Seat<A>],
    crashed: &[u32],
    mails: &[M],
    pending: &mut Vec<OpenCopy>,
    mail: u32,
) -> Result<(), OutOfMemory>
    ensures pending { OnOk result
        (pending.new.items
        ≡ reopened M.receiver (runs (numbers_of seats.now) crashed.now) pending.old.items mail
        (numbered mails.now mail)) }
    ensures none { holds_of (λ m. runs (numbers_of seats.now) crashed.now (M.receiver m))
        (numbered mails.now mail)
        ≡ false → IsOk result }
{
    if mail == 0 || mail as usize > mails.len() {
        return Ok(());
    }
    let to = mails[mail as usize - 1].to();
    if runs(seats, crashed, to) {
        open_one(pending, OpenCopy { number: mail, to })?;
    }
    Ok(())
}

// Changes the pending copies by an event.
fn note_event<A, M: Parcel, O>(
    seats: &[Seat<A>],
    crashed: &[u32],
    mails: &[M],
    pending: &mut Vec<OpenCopy>,
    who: u32,
    event: &Event<O>,
) -> Result<(), OutOfMemory>
    ensures pending { OnOk result
        (pending.new.items
        ≡ opened M.receiver (runs (numbers_of seats.now) crashed.now) mails.now pending.old.items who
        event.now) }
    ensures none { ((mail : ℕ) → event.now ≡ Event.Again mail →
        holds_of (λ m. runs (numbers_of seats.now) crashed.now (M.receiver m))
        (numbered mails.now mail)
        ≡ false) → IsOk result }
{
    match event {
        Event::Deliver(mail) | Event::Drop(mail) => close_one(pending, *mail),
        Event::Again(mail) => repeat(seats, crashed, mails, pending, *mail)?,
        Event::Crash => close_all(pending, who),
        Event::Tick | Event::Go | Event::Told(_) => {}
    }
    Ok(())
}

// Adds the actor of a Go to those that have started.
fn note_go<O>(started: &mut Vec<u32>, who: u32, event: &Event<O>) -> Result<(), OutOfMemory>
    ensures started { OnOk result
        ((number : ℕ) → list_any (λ n. n == number) started.new.items
        ≡ (list_any (λ n. n == number) started.old.items || (who == number && is_go event.now))) }
    ensures none { is_go event.now ≡ false → IsOk result }
{
    if is_go(event) {
        started.push(who)?;
    }
    Ok(())
}

// Adds the actor of a Crash to the crashed ones.
fn note_crash<O>(crashed: &mut Vec<u32>, who: u32, event: &Event<O>) -> Result<(), OutOfMemory>
    ensures crashed { OnOk result
        ((number : ℕ) → list_any (λ n. n == number) crashed.new.items
        ≡ (list_any (λ n. n == number) crashed.old.items || (who == number && is_crash event.now))) }
    ensures none { is_crash event.now ≡ false → IsOk result }
{
    if is_crash(event) {
        crashed.push(who)?;
    }
    Ok(())
}

// Adds a pending copy for each of these mails whose receiver is an actor that has not crashed. The
// first mail has the number `first`.
fn add_open<A, M: Parcel>(
    seats: &[Seat<A>],
    crashed: &[u32],
    pending: &mut Vec<OpenCopy>,
    first: u32,
    sent: &[M],
) -> Result<(), OutOfMemory>
    requires few { first + length sent.now < 2 ^ 32 }
    ensures pending { OnOk result
        (pending.new.items
        ≡ pending.old.items
        ++ opens M.receiver (runs (numbers_of seats.now) crashed.now) first sent.now
        (replicate (length sent.now) 1)) }
    ensures none { ((mail : M) → runs (numbers_of seats.now) crashed.now (M.receiver mail) ≡ true →
        Contains sent.now mail → ⊥) → IsOk result }
{
    for i in 0..sent.len() {
        let to = sent[i].to();
        if runs(seats, crashed, to) {
            let number = first + i as u32;
            pending.push(OpenCopy { number, to })?;
        }
    }
    Ok(())
}

/// Appends copies of the mails that are sent.
pub(crate) fn add_mails<M: Dup + Drop>(
    alloc: Global,
    mails: &mut Vec<M>,
    sent: &[M],
) -> Result<(), OutOfMemory>
    ensures mails { OnOk result (mails.new.items ≡ mails.old.items ++ sent.now) }
    ensures none { sent.now ≡ [] → IsOk result }
{
    for mail in sent {
        mails.push(mail.dup(alloc)?)?;
    }
    Ok(())
}

/// Appends a row to the stage, and updates what is kept beside the rows. `Err(OutOfMemory)`: the
/// actors and the counts of lines are unchanged.
pub(crate) fn append<A, M: Parcel + Drop, O: Drop>(
    alloc: Global,
    stage: &mut Stage<A, M, O>,
    row: Row<M, O>,
) -> Result<(), OutOfMemory>
    requires kept { IsUpToDate M.receiver stage.old }
    requires rows { length stage.old.rows + 1 < 2 ^ 31 }
    requires mails { length (mails stage.old.rows) + length row.sent < 2 ^ 31 }
    ensures kept { OnOk result (IsUpToDate M.receiver stage.new) }
    ensures rows { OnOk result (stage.new.rows ≡ stage.old.rows ++ row ∷ []) }
    ensures seats { stage.new.seats.items ≡ stage.old.seats.items }
    ensures skipped { stage.new.skipped ≡ stage.old.skipped }
    ensures unsettled { stage.new.unsettled ≡ stage.old.unsettled }
{
    let first = stage.mails.len() as u32 + 1;
    note_event(
        &stage.seats,
        &stage.crashed,
        &stage.mails,
        &mut stage.pending,
        row.who,
        &row.event,
    )?;
    note_go(&mut stage.started, row.who, &row.event)?;
    note_crash(&mut stage.crashed, row.who, &row.event)?;
    add_open(
        &stage.seats,
        &stage.crashed,
        &mut stage.pending,
        first,
        row.sent.as_slice(),
    )?;
    add_mails(alloc, &mut stage.mails, row.sent.as_slice())?;
    stage.rows.push(row)?;
    Ok(())
}
