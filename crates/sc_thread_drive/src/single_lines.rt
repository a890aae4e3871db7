//! Lines of one row.
ghost use Rattle.std.specs.Prelude.{◌≡◌, ◌+◌, ◌<◌, ◌^◌, [], ◌∷◌, IsOk, OnOk};
ghost use Rattle.sc_actor.specs.Walk.{Once, line_row};
ghost use Rattle.sc_thread_drive.specs.Numbers.{is_in};
ghost use Rattle.sc_thread_drive.specs.Goings.{IsCalm};
ghost use Rattle.sc_thread_drive.specs.Rows.{OnFull};
ghost use Rattle.sc_thread_drive.specs.CompanyRows.{AreTogether, LineEnded, LineRefused, MayTakeEvent, RowEnds};

use crate::actor_lines::{deliver, give_order, go, happen};
use crate::company::{Company, Score};
use crate::network_lines::{again, lose};
use sc_actor::{Actor, Event, Gate, Line};
use sc_thread_ports::PostError;
use std::alloc::Global;
use std::sync::Wait;

// Counts one more line that made no row. `Err`: the count would not fit.
fn skip(score: &mut Score) -> Result<(), PostError>
    ensures skipped { OnOk result (score.new.skipped ≡ score.old.skipped + 1) }
    ensures kept { (score.new.unsettled ≡ score.old.unsettled)
        × (score.new.started.items ≡ score.old.started.items) }
    ensures why { OnFull result ⊥ }
    ensures none { score.old.skipped + 1 < 2 ^ 64 → IsOk result }
{
    let Some(count) = score.skipped.checked_add(1) else {
        return Err(PostError::OutOfMemory);
    };
    score.skipped = count;
    Ok(())
}

/// Runs a line of one row that is no `go` line. Returns whether a row was made.
pub(crate) fn step_line<A: Actor, G: Gate, R: Wait>(
    rt: &R,
    alloc: Global,
    company: &mut Company<A>,
    line: &Line<A::Order>,
    gate: &G,
) -> Result<bool, PostError>
    requires together { AreTogether company.old }
    requires calm { IsCalm line.now }
    ensures { RowEnds (λ s rows. line_row s rows line.now) company.old company.new result }
{
    match line {
        Line::Deliver { who, k } => deliver(rt, alloc, company, *who, *k, gate),
        Line::Drop { who, k } => lose(rt, company, *who, *k),
        Line::Again { mail } => again(rt, company, *mail),
        Line::Tick { who } => happen(rt, alloc, company, *who, Event::Tick),
        Line::Crash { who } => happen(rt, alloc, company, *who, Event::Crash),
        Line::Told { who, order } => give_order(rt, alloc, company, *who, order),
        _ => unreachable!(),
    }
}

/// Runs a line of one row that is no `go` line, and counts it where it makes no row.
pub(crate) fn run_once<A: Actor, G: Gate, R: Wait>(
    rt: &R,
    alloc: Global,
    company: &mut Company<A>,
    line: &Line<A::Order>,
    gate: &G,
) -> Result<(), PostError>
    requires together { AreTogether company.old }
    requires calm { IsCalm line.now }
    ensures goes { OnOk result (LineEnded (Once line.now ∷ []) [] company.old company.new) }
    ensures fills { OnFull result
        (LineRefused (Once line.now ∷ []) company.old company.new) }
{
    if step_line(rt, alloc, company, line, gate)? {
        return Ok(());
    }
    skip(&mut company.score)
}

// Returns whether the number is in the list.
fn is_listed(list: &[u32], who: u32) -> bool
    ensures { result ≡ is_in who list.now }
{
    list.iter().any(|number| who == *number)
}

/// Runs a `go` line of an actor that has not crashed. Where the actor has started before, no row is
/// made, and the line is counted as skipped.
pub(crate) fn run_go<A: Actor, R: Wait>(
    rt: &R,
    alloc: Global,
    company: &mut Company<A>,
    who: u32,
) -> Result<(), PostError>
    requires together { AreTogether company.old }
    requires runs { MayTakeEvent who company.old }
    ensures goes { OnOk result
        (LineEnded (Once (Line.Go who) ∷ []) [] company.old company.new) }
    ensures fills { OnFull result
        (LineRefused (Once (Line.Go who) ∷ []) company.old company.new) }
{
    if is_listed(company.score.started.as_slice(), who) {
        return skip(&mut company.score);
    }
    if go(rt, alloc, company, who)? {
        let Ok(()) = company.score.started.push(who) else {
            return Err(PostError::OutOfMemory);
        };
        return Ok(());
    }
    skip(&mut company.score)
}
