//! Plain functions that read a journal from its start.
ghost use Rattle.std.specs.Prelude.{◌≡◌, ◌<◌, ◌-◌, ◌^◌, ◌++◌, [], All, replicate, length, IfOk, IsOk, OnOk, if◌then◌else◌};
ghost use Rattle.sc_actor.specs.Mail.{mails, copies, counts_at, has_crashed, may_get, is_for, pending};
ghost use Rattle.sc_actor.specs.System.{numbers_of};

use crate::appending::add_mails;
use crate::pending::{is_actor, is_crash};
use sc_actor::{Event, Parcel, Row, Seat};
use sc_base::{Dup, OutOfMemory, Sequence};
use std::alloc::Global;

// Counts an event: a delivery or a drop removes a copy of its mail, and a repeat adds one.
fn count<O>(copies: &mut Vec<u32>, event: &Event<O>)
    requires { All (λ count. count < 2 ^ 32 - 1) copies.old.items }
    ensures { copies.new.items ≡ counts_at copies.old.items event.now }
{
    match event {
        Event::Deliver(mail) | Event::Drop(mail) => {
            let mail = *mail as usize;
            if mail != 0 && mail <= copies.len() {
                copies[mail - 1] = copies[mail - 1].saturating_sub(1);
            }
        }
        Event::Again(mail) => {
            let mail = *mail as usize;
            if mail != 0 && mail <= copies.len() {
                copies[mail - 1] += 1;
            }
        }
        _ => {}
    }
}

// Appends a count of one copy for each of `n` mails that are sent.
fn add_copies(copies: &mut Vec<u32>, n: usize) -> Result<(), OutOfMemory>
    ensures copies { OnOk result (copies.new.items ≡ copies.old.items ++ replicate n 1) }
    ensures none { n ≡ 0 → IsOk result }
{
    for i in 0..n {
        let _ = i;
        copies.push(1)?;
    }
    Ok(())
}

fn has_crashed<M, O>(rows: &[Row<M, O>], who: u32) -> bool
    ensures { result ≡ has_crashed rows.now who }
{
    rows.iter()
        .any(|row| row.who == who && is_crash(&row.event))
}

// Returns whether there is an actor with this number that has not crashed.
fn may_get<A, M, O>(seats: &[Seat<A>], rows: &[Row<M, O>], who: u32) -> bool
    ensures { result ≡ may_get (numbers_of seats.now) rows.now who }
{
    is_actor(seats, who) && !has_crashed(rows, who)
}

// Returns whether the mail is for this actor, or for any where `whose` is `None`, and the receiver
// may get it.
fn is_for<A, M: Parcel, O>(
    seats: &[Seat<A>],
    rows: &[Row<M, O>],
    whose: Option<u32>,
    mail: &M,
) -> bool
    ensures { result ≡ is_for M.receiver (numbers_of seats.now) rows.now whose mail.now }
{
    match whose {
        None => may_get(seats, rows, mail.to()),
        Some(who) => mail.to() == who && may_get(seats, rows, who),
    }
}

// Returns the copies of a mail that count, 0 where the receiver does not. The receiver is checked
// only where there are copies.
fn open_copies<A, M: Parcel, O>(
    seats: &[Seat<A>],
    rows: &[Row<M, O>],
    whose: Option<u32>,
    mail: &M,
    count: u32,
) -> u32
    ensures { result
        ≡ (if is_for M.receiver (numbers_of seats.now) rows.now whose mail.now then count else 0) }
{
    if count > 0 && is_for(seats, rows, whose, mail) {
        count
    } else {
        0
    }
}

// Returns for each mail, in order of number, how many copies are under way.
fn copies_of<M, O>(alloc: Global, rows: &[Row<M, O>]) -> Result<Vec<u32>, OutOfMemory>
    requires { length rows.now < 2 ^ 31 }
    ensures counts { IfOk result (λ counts. counts.items ≡ copies rows.now) }
    ensures none { rows.now ≡ [] → IsOk result }
{
    let mut counts = Vec::new(alloc);
    for row in rows {
        count(&mut counts, &row.event);
        add_copies(&mut counts, row.sent.len())?;
    }
    Ok(counts)
}

// Returns all mail that was sent, in order.
fn mails_of<M: Dup + Drop, O>(alloc: Global, rows: &[Row<M, O>]) -> Result<Vec<M>, OutOfMemory>
    ensures mails { IfOk result (λ sent. sent.items ≡ mails rows.now) }
    ensures none { rows.now ≡ [] → IsOk result }
{
    let mut sent = Vec::new(alloc);
    for row in rows {
        add_mails(alloc, &mut sent, row.sent.as_slice())?;
    }
    Ok(sent)
}

// Appends a number `times` times.
fn add_number(found: &mut Sequence<u32>, number: u32, times: u32) -> Result<(), OutOfMemory>
    ensures found { OnOk result (found.new ≡ found.old ++ replicate times number) }
    ensures none { times ≡ 0 → IsOk result }
{
    for i in 0..times {
        let _ = i;
        found.push(number)?;
    }
    Ok(())
}

/// Returns the numbers of the pending mail of one actor, or of all where `whose` is `None`, in
/// ascending order. It goes through all rows, and is slow.
///
/// There must be fewer than 2^31 rows and mails.
pub fn pending_of<A, M: Parcel + Drop, O>(
    alloc: Global,
    seats: &[Seat<A>],
    rows: &[Row<M, O>],
    whose: Option<u32>,
) -> Result<Sequence<u32>, OutOfMemory>
    requires few_rows { length rows.now < 2 ^ 31 }
    requires few_mails { length (mails rows.now) < 2 ^ 31 }
    ensures found { IfOk result
        (λ found. found ≡ pending M.receiver (numbers_of seats.now) rows.now whose) }
    ensures none { rows.now ≡ [] → IsOk result }
{
    let sent = mails_of(alloc, rows)?;
    let counts = copies_of(alloc, rows)?;
    let mut found = Sequence::new(alloc);
    for i in 0..sent.len() {
        let times = open_copies(seats, rows, whose, &sent[i], counts[i]);
        add_number(&mut found, i as u32 + 1, times)?;
    }
    Ok(found)
}
