//! Pending mail, by what a stage keeps.
ghost use Rattle.std.specs.Prelude.{◌≡◌, ◌<◌, ◌%◌, ◌==◌, length, map, filter, is_none, None, IfSome, IsSomeAnd, true};
ghost use Rattle.std.specs.List.{list_any};
ghost use Rattle.sc_actor.specs.Mail.{numbered, may_get, is_crash, is_for, pending};
ghost use Rattle.sc_actor.specs.System.{kth, numbers_of, has_started, is_go};
ghost use Rattle.sc_world_replay.specs.Actions.{is_number, picked_mail};
ghost use Rattle.sc_world_replay.specs.Opens.{runs};
ghost use Rattle.sc_world_replay.specs.Stages.{IsUpToDate};

use crate::stages::{OpenCopy, Stage};
use sc_actor::{Event, Parcel, Seat};

/// Returns whether the event is a crash.
pub(crate) fn is_crash<O>(event: &Event<O>) -> bool
    ensures { result ≡ is_crash event.now }
{
    match event {
        Event::Crash => true,
        _ => false,
    }
}

/// Returns whether the event is a Go.
pub(crate) fn is_go<O>(event: &Event<O>) -> bool
    ensures { result ≡ is_go event.now }
{
    match event {
        Event::Go => true,
        _ => false,
    }
}

/// Returns whether the number is among these.
fn is_among(numbers: &[u32], who: u32) -> bool
    ensures { result ≡ list_any (λ number. number == who) numbers.now }
{
    numbers.iter().any(|number| *number == who)
}

fn has_seat<A>(seats: &[Seat<A>], who: u32) -> bool
    ensures { result ≡ list_any (λ seat. seat.who == who) seats.now }
{
    seats.iter().any(|seat| seat.who == who)
}

/// Returns whether there is an actor with this number.
pub(crate) fn is_actor<A>(seats: &[Seat<A>], who: u32) -> bool
    ensures { result ≡ is_number (numbers_of seats.now) who }
{
    has_seat(seats, who)
}

/// Returns whether there is an actor with this number that is not among the crashed.
pub(crate) fn runs<A>(seats: &[Seat<A>], crashed: &[u32], who: u32) -> bool
    ensures { result ≡ runs (numbers_of seats.now) crashed.now who }
{
    is_actor(seats, who) && !is_among(crashed, who)
}

/// Returns whether the actor has a Go row.
pub(crate) fn has_started<A, M: Parcel, O>(stage: &Stage<A, M, O>, who: u32) -> bool
    requires { IsUpToDate M.receiver stage.now }
    ensures { result ≡ has_started stage.now.rows who }
{
    is_among(&stage.started, who)
}

/// Returns whether there is an actor with this number that has not crashed.
pub(crate) fn may_get<A, M: Parcel, O>(stage: &Stage<A, M, O>, who: u32) -> bool
    requires { IsUpToDate M.receiver stage.now }
    ensures { result ≡ may_get (numbers_of stage.now.seats.items) stage.now.rows who }
{
    runs(&stage.seats, &stage.crashed, who)
}

// Returns the number of the k-th copy, counted from 1.
fn kth_of_all(copies: &[OpenCopy], k: u64) -> Option<u32>
    ensures { result ≡ kth (map (λ copy. copy.number) copies.now) k }
{
    if k == 0 || k > copies.len() as u64 {
        return None;
    }
    Some(copies[k as usize - 1].number)
}

// Returns the number of the k-th copy for one receiver, counted from 1.
fn kth_for(copies: &[OpenCopy], who: u32, k: u64) -> Option<u32>
    requires { 0 < k }
    ensures { result
        ≡ kth (map (λ copy. copy.number) (filter (λ copy. copy.to == who) copies.now)) k }
{
    let mut left = k;
    for copy in copies {
        if copy.to == who {
            if left == 1 {
                return Some(copy.number);
            }
            left -= 1;
        }
    }
    None
}

/// Returns the number of the k-th pending mail of a stage, counted from 1, of one actor, or of all
/// where `whose` is `None`.
pub(crate) fn waiting<A, M: Parcel, O>(
    stage: &Stage<A, M, O>,
    whose: Option<u32>,
    k: u64,
) -> Option<u32>
    requires { IsUpToDate M.receiver stage.now }
    ensures number { result
        ≡ kth (pending M.receiver (numbers_of stage.now.seats.items) stage.now.rows whose) k }
    ensures mail { IfSome result (λ number. IsSomeAnd (numbered stage.now.mails.items number)
        (λ mail.
        is_for M.receiver (numbers_of stage.now.seats.items) stage.now.rows whose mail ≡ true)) }
{
    if k == 0 {
        return None;
    }
    match whose {
        None => kth_of_all(&stage.pending, k),
        Some(who) => kth_for(&stage.pending, who, k),
    }
}

/// Returns whether a stage has no pending mail.
pub(crate) fn is_quiet<A, M: Parcel, O>(stage: &Stage<A, M, O>) -> bool
    requires { IsUpToDate M.receiver stage.now }
    ensures { result
        ≡ is_none
        (kth (pending M.receiver (numbers_of stage.now.seats.items) stage.now.rows None) 1) }
{
    waiting(stage, None, 1).is_none()
}

// Returns the number of pending mails.
fn count_pending<A, M: Parcel, O>(stage: &Stage<A, M, O>) -> usize
    requires { IsUpToDate M.receiver stage.now }
    ensures { result
        ≡ length (pending M.receiver (numbers_of stage.now.seats.items) stage.now.rows None) }
{
    stage.pending.len()
}

/// Returns the number of the pending mail at the place `word` modulo their number, counted from 0,
/// or `None` where none is pending.
pub(crate) fn picked<A, M: Parcel, O>(stage: &Stage<A, M, O>, word: u32) -> Option<u32>
    requires { IsUpToDate M.receiver stage.now }
    ensures number { result
        ≡ picked_mail M.receiver (numbers_of stage.now.seats.items) stage.now.rows word }
    ensures mail { IfSome result (λ number. IsSomeAnd (numbered stage.now.mails.items number)
        (λ mail.
        is_for M.receiver (numbers_of stage.now.seats.items) stage.now.rows None mail ≡ true)) }
{
    let many = count_pending(stage);
    if many == 0 {
        return None;
    }
    waiting(stage, None, (word as usize % many) as u64 + 1)
}
