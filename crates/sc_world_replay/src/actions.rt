//! The action that a line or a step of a storm allows next.
ghost use Rattle.std.specs.Prelude.{◌≡◌, true, ℕ, IfOk, IfSome, IsOk};
ghost use Rattle.sc_actor.specs.System.{numbers_of};
ghost use Rattle.sc_world_replay.specs.Actions.{line_action, lowest_action, may_come_again, when, can_act, storm_action};
ghost use Rattle.sc_world_replay.specs.Stages.{IsUpToDate};

use crate::pending::{has_started, is_actor, may_get, picked, waiting};
use crate::stages::{Action, Stage};
use sc_actor::{Event, Line, Parcel};
use sc_base::{Dup, OutOfMemory};
use std::alloc::Global;

// Returns whether the mail was sent to an actor that has not crashed.
fn may_come_again<A, M: Parcel, O>(stage: &Stage<A, M, O>, mail: u32) -> bool
    requires { IsUpToDate M.receiver stage.now }
    ensures { result
        ≡ may_come_again M.receiver (numbers_of stage.now.seats.items) stage.now.rows mail }
{
    if mail == 0 || mail as usize > stage.mails.len() {
        return false;
    }
    let receiver = stage.mails[mail as usize - 1].to();
    may_get(stage, receiver)
}

// Returns the action, if it may come.
fn when_may<O: Drop>(may: bool, who: u32, event: Event<O>) -> Option<Action<O>>
    ensures { result ≡ when may (record { who = who; event = event }) }
{
    if may {
        Some(Action { who, event })
    } else {
        None
    }
}

fn go<A, M: Parcel, O: Drop>(stage: &Stage<A, M, O>, who: u32) -> Option<Action<O>>
    requires { IsUpToDate M.receiver stage.now }
    ensures { result
        ≡ line_action M.receiver (numbers_of stage.now.seats.items) stage.now.rows (Line.Go who) }
{
    let may = is_actor(&stage.seats, who) && !has_started(stage, who);
    when_may(may, who, Event::Go)
}

/// Returns the action of a line of one row, or `None` where the line is skipped. Does not fail on a
/// line that gives no order.
pub(crate) fn line_action<A, M: Parcel, O: Dup + Drop>(
    alloc: Global,
    stage: &Stage<A, M, O>,
    line: &Line<O>,
) -> Result<Option<Action<O>>, OutOfMemory>
    requires { IsUpToDate M.receiver stage.now }
    ensures action { IfOk result
        (λ action.
        action
        ≡ line_action M.receiver (numbers_of stage.now.seats.items) stage.now.rows line.now) }
    ensures can { IfOk result
        (λ found. IfSome found
        (λ action. can_act (numbers_of stage.now.seats.items) action ≡ true)) }
    ensures none { ((who : ℕ) (order : O) → line.now ≡ Line.Told who order → ⊥) → IsOk result }
{
    Ok(match line {
        Line::Go { who } => go(stage, *who),
        Line::Deliver { who, k } => {
            waiting(stage, Some(*who), u64::from(*k)).map(|mail| Action {
                who: *who,
                event: Event::Deliver(mail),
            })
        }
        Line::Drop { who, k } => waiting(stage, Some(*who), u64::from(*k)).map(|mail| Action {
            who: 0,
            event: Event::Drop(mail),
        }),
        Line::Again { mail } => when_may(may_come_again(stage, *mail), 0, Event::Again(*mail)),
        Line::Tick { who } => when_may(may_get(stage, *who), *who, Event::Tick),
        Line::Crash { who } => when_may(may_get(stage, *who), *who, Event::Crash),
        Line::Told { who, order } => {
            let order = order.dup(alloc)?;
            when_may(may_get(stage, *who), *who, Event::Told(order))
        }
        Line::Settle { .. } | Line::Free { .. } | Line::Storm { .. } => None,
    })
}

/// Returns the delivery of the lowest-numbered pending mail of all, or `None` where no mail is
/// pending.
pub(crate) fn lowest_action<A, M: Parcel, O>(stage: &Stage<A, M, O>) -> Option<Action<O>>
    requires { IsUpToDate M.receiver stage.now }
    ensures action { result
        ≡ lowest_action M.receiver (numbers_of stage.now.seats.items) stage.now.rows }
    ensures can { IfSome result
        (λ action. can_act (numbers_of stage.now.seats.items) action ≡ true) }
{
    match waiting(stage, None, 1) {
        None => None,
        Some(mail) => Some(Action {
            who: stage.mails[mail as usize - 1].to(),
            event: Event::Deliver(mail),
        }),
    }
}

/// Returns the delivery of the first pending mail of an actor, or `None` where no mail is pending
/// for it.
pub(crate) fn first_action<A, M: Parcel, O>(stage: &Stage<A, M, O>, who: u32) -> Option<Action<O>>
    requires { IsUpToDate M.receiver stage.now }
    ensures action { result
        ≡ line_action M.receiver (numbers_of stage.now.seats.items) stage.now.rows
        (Line.Deliver who 1) }
    ensures can { IfSome result
        (λ action. can_act (numbers_of stage.now.seats.items) action ≡ true) }
{
    match waiting(stage, Some(who), 1) {
        None => None,
        Some(mail) => Some(Action {
            who,
            event: Event::Deliver(mail),
        }),
    }
}

// Returns the repeat of the mail that the word picks, if its receiver may get it.
fn repeated<A, M: Parcel, O: Drop>(stage: &Stage<A, M, O>, word: u32) -> Option<Action<O>>
    requires { IsUpToDate M.receiver stage.now }
    ensures { result
        ≡ storm_action M.receiver (numbers_of stage.now.seats.items) stage.now.rows 1 word }
{
    if stage.mails.is_empty() {
        return None;
    }
    let mail = 1 + word % stage.mails.len() as u32;
    when_may(may_come_again(stage, mail), 0, Event::Again(mail))
}

// Returns the tick of the actor that the word picks, unless it has crashed.
fn ticked<A, M: Parcel, O: Drop>(stage: &Stage<A, M, O>, word: u32) -> Option<Action<O>>
    requires { IsUpToDate M.receiver stage.now }
    ensures { result
        ≡ storm_action M.receiver (numbers_of stage.now.seats.items) stage.now.rows 2 word }
{
    if stage.seats.is_empty() {
        return None;
    }
    let who = stage.seats[word as usize % stage.seats.len()].who;
    let may = may_get(stage, who);
    when_may(may, who, Event::Tick)
}

// Returns the delivery of the pending mail that the word picks, if any is pending.
fn delivered<A, M: Parcel, O>(stage: &Stage<A, M, O>, word: u32) -> Option<Action<O>>
    requires { IsUpToDate M.receiver stage.now }
    ensures { result
        ≡ storm_action M.receiver (numbers_of stage.now.seats.items) stage.now.rows 3 word }
{
    match picked(stage, word) {
        None => None,
        Some(mail) => Some(Action {
            who: stage.mails[mail as usize - 1].to(),
            event: Event::Deliver(mail),
        }),
    }
}

/// Returns the action of a step of a storm, by its first word modulo 16, `kind`, and by its second,
/// `word`; `None` where it does nothing.
pub(crate) fn storm_action<A, M: Parcel, O: Drop>(
    stage: &Stage<A, M, O>,
    kind: u32,
    word: u32,
) -> Option<Action<O>>
    requires { IsUpToDate M.receiver stage.now }
    ensures { result
        ≡ storm_action M.receiver (numbers_of stage.now.seats.items) stage.now.rows kind word }
{
    match kind {
        0 => match picked(stage, word) {
            None => None,
            Some(mail) => Some(Action {
                who: 0,
                event: Event::Drop(mail),
            }),
        },
        1 => repeated(stage, word),
        2 => ticked(stage, word),
        _ => delivered(stage, word),
    }
}
