//! Lines of one row, which an actor makes.
ghost use Rattle.std.specs.Prelude.{◌≡◌, IfSome, None};
ghost use Rattle.sc_actor.specs.System.{acts};
ghost use Rattle.sc_actor.specs.Walk.{line_row};
ghost use Rattle.sc_thread_work.specs.shell.Answers.{MayHappen};
ghost use Rattle.sc_thread_drive.specs.Stepping.{IsPlace, IsNowhere, unless_crashed};
ghost use Rattle.sc_thread_drive.specs.CompanyRows.{AreTogether, MayTakeEvent, RowEnds};

use crate::acts::{act_by_turn, act_on_event};
use crate::company::{Company, row_made};
use sc_actor::{Actor, Event, Gate, Line};
use sc_base::Dup;
use sc_thread_ports::PostError;
use sc_thread_work::Shell;
use std::alloc::Global;
use std::sync::Wait;

/// Returns the place of the shell of an actor, or `None` where it has no shell.
pub(crate) fn place_of<A: Actor>(shells: &[Shell<A>], who: u32) -> Option<usize>
    ensures some { IfSome result (λ place. IsPlace shells.now who place) }
    ensures none { result ≡ None → IsNowhere shells.now who }
{
    for (i, shell) in shells.iter().enumerate() {
        if shell.who() == who {
            return Some(i);
        }
    }
    None
}

/// Lets an event happen to an actor, unless it has crashed or has no shell. Returns whether a row
/// was made.
pub(crate) fn happen<A: Actor, R: Wait>(
    rt: &R,
    alloc: Global,
    company: &mut Company<A>,
    who: u32,
    event: Event<A::Order>,
) -> Result<bool, PostError>
    requires together { AreTogether company.old }
    requires event { MayHappen event }
    ensures { RowEnds (λ s rows. unless_crashed s rows who event) company.old company.new result }
{
    let Some(place) = place_of(company.shells.as_slice(), who) else {
        return Ok(false);
    };
    let turn = act_on_event(rt, alloc, company, place, event);
    row_made(turn)
}

/// Lets an order be given to an actor, unless it has crashed or has no shell. Returns whether a row
/// was made.
pub(crate) fn give_order<A: Actor, R: Wait>(
    rt: &R,
    alloc: Global,
    company: &mut Company<A>,
    who: u32,
    order: &A::Order,
) -> Result<bool, PostError>
    requires together { AreTogether company.old }
    ensures { RowEnds (λ s rows. unless_crashed s rows who (Event.Told order.now))
        company.old company.new result }
{
    let Some(place) = place_of(company.shells.as_slice(), who) else {
        return Ok(false);
    };
    if company.shells[place].has_crashed() {
        return Ok(false);
    }
    let Ok(order) = order.dup(alloc) else {
        return Err(PostError::OutOfMemory);
    };
    let turn = act_on_event(rt, alloc, company, place, Event::Told(order));
    row_made(turn)
}

/// Lets an actor that has not crashed go. Returns whether a row was made.
pub(crate) fn go<A: Actor, R: Wait>(
    rt: &R,
    alloc: Global,
    company: &mut Company<A>,
    who: u32,
) -> Result<bool, PostError>
    requires together { AreTogether company.old }
    requires runs { MayTakeEvent who company.old }
    ensures { RowEnds (λ s rows. acts s rows who Event.Go) company.old company.new result }
{
    let Some(place) = place_of(company.shells.as_slice(), who) else {
        return Ok(false);
    };
    let turn = act_on_event(rt, alloc, company, place, Event::Go);
    row_made(turn)
}

/// Delivers the k-th pending mail of an actor. Returns whether a row was made.
pub(crate) fn deliver<A: Actor, G: Gate, R: Wait>(
    rt: &R,
    alloc: Global,
    company: &mut Company<A>,
    who: u32,
    k: u32,
    gate: &G,
) -> Result<bool, PostError>
    requires together { AreTogether company.old }
    ensures { RowEnds (λ s rows. line_row s rows (Line.Deliver who k))
        company.old company.new result }
{
    if k == 0 {
        return Ok(false);
    }
    let Some(place) = place_of(company.shells.as_slice(), who) else {
        return Ok(false);
    };
    let (turn, _) = act_by_turn(rt, alloc, company, place, k, gate);
    row_made(turn)
}
