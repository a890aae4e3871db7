//! The step of an action: what it makes of its actor, and its row.
ghost use Rattle.std.specs.Prelude.{◌≡◌, ◌<◌, ◌⊎◌, length, None, IfSome, IfOk, OnOk, IsOk, true};
ghost use Rattle.sc_actor.specs.Replay.{acted, input_of};
ghost use Rattle.sc_actor.specs.System.{numbers_of};
ghost use Rattle.sc_world_replay.specs.Actions.{is_of_network, can_act};
ghost use Rattle.sc_world_replay.specs.Stages.{place_of, Makes};

use crate::stages::Action;
use sc_actor::{Actor, Event, Input, Row, Seat};
use sc_base::{Dup, OutOfMemory, Sequence};
use std::alloc::Global;

// Returns the place of the actor with this number, if there is one.
fn place_of<A>(seats: &[Seat<A>], who: u32) -> Option<usize>
    ensures place { result ≡ place_of seats.now who }
    ensures bound { IfSome result (λ i. i < length seats.now) }
{
    for i in 0..seats.len() {
        if seats[i].who == who {
            return Some(i);
        }
    }
    None
}

// Returns the input of the actor at an event.
fn input_of<M: Dup, O: Dup>(
    alloc: Global,
    mails: &[M],
    event: &Event<O>,
) -> Result<Option<Input<M, O>>, OutOfMemory>
    ensures input { IfOk result (λ input. input ≡ input_of mails.now event.now) }
    ensures none { (input_of mails.now event.now ≡ None) ⊎ (event.now ≡ Event.Tick)
        ⊎ (event.now ≡ Event.Go) → IsOk result }
{
    match event {
        Event::Deliver(mail) => {
            let mail = *mail as usize;
            if mail == 0 || mail > mails.len() {
                return Ok(None);
            }
            Ok(Some(Input::Got(mails[mail - 1].dup(alloc)?)))
        }
        Event::Tick => Ok(Some(Input::Tick)),
        Event::Go => Ok(Some(Input::Go)),
        Event::Told(order) => Ok(Some(Input::Told(order.dup(alloc)?))),
        Event::Crash => Ok(None),
        Event::Drop(_) => Ok(None),
        Event::Again(_) => Ok(None),
    }
}

// Lets the actor step at an event, and returns what it sends.
fn respond<A: Actor>(
    alloc: Global,
    actor: &mut A,
    mails: &[A::Mail],
    event: &Event<A::Order>,
) -> Result<Sequence<A::Mail>, OutOfMemory>
    ensures acted { IfOk result
        (λ sent. acted A.table actor.old (input_of mails.now event.now) ≡ (actor.new, sent)) }
    ensures none { input_of mails.now event.now ≡ None → IsOk result }
{
    match input_of(alloc, mails, event)? {
        None => Ok(Sequence::new(alloc)),
        Some(input) => actor.step(alloc, &input),
    }
}

fn is_of_network<O>(event: &Event<O>) -> bool
    ensures { result ≡ is_of_network event.now }
{
    match event {
        Event::Drop(_) => true,
        Event::Again(_) => true,
        _ => false,
    }
}

/// Does an action: lets its actor step, and returns its row. Does not fail on an event that gives
/// the actor no input.
pub(crate) fn make_row<A: Actor>(
    alloc: Global,
    seats: &mut Vec<Seat<A>>,
    mails: &[A::Mail],
    action: Action<A::Order>,
) -> Result<Row<A::Mail, A::Order>, OutOfMemory>
    requires { can_act (numbers_of seats.old.items) action ≡ true }
    ensures makes { IfOk result
        (λ row. Makes A.table mails.now seats.old.items seats.new.items action row) }
    ensures numbers { OnOk result (numbers_of seats.new.items ≡ numbers_of seats.old.items) }
    ensures none { input_of mails.now action.event ≡ None → IsOk result }
{
    let Action { who, event } = action;
    if is_of_network(&event) {
        return Ok(Row {
            who: 0,
            event,
            sent: Sequence::new(alloc),
        });
    }
    let Some(place) = place_of(seats, who) else {
        unreachable!()
    };
    let sent = respond(alloc, &mut seats[place].actor, mails, &event)?;
    Ok(Row { who, event, sent })
}
