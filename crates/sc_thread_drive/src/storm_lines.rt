//! A `storm` line: steps of one row each, which words draw.
ghost use Rattle.std.specs.Prelude.{◌≡◌, [], ◌∷◌, option_and_then, IfOk, IfSome, IsOk, OnOk};
ghost use Rattle.sc_actor.specs.Walk.{Storms, line_row, storm_steps};
ghost use Rattle.sc_texts.specs.chance.KeyStream.{two_words, after_step};
ghost use Rattle.sc_thread_workers.specs.Crews.{crew_numbers};
ghost use Rattle.sc_thread_drive.specs.Goings.{IsCalm};
ghost use Rattle.sc_thread_drive.specs.Storming.{IsStormLine};
ghost use Rattle.sc_thread_drive.specs.Rows.{OnFull};
ghost use Rattle.sc_thread_drive.specs.CompanyRows.{AreTogether, HasRested, LineEnded, LineRefused, RowEnds};

use crate::company::Company;
use crate::gathering::gather_again;
use crate::single_lines::step_line;
use sc_actor::{Actor, Gate, Line};
use sc_base::OutOfMemory;
use sc_thread_pool::{Storm, deed_at, deeds_are_rows_of_the_walk};
use sc_thread_ports::PostError;
use sc_thread_work::Shell;
use std::alloc::Global;
use std::sync::Wait;

// Returns the numbers of the actors, in the order of their shells.
fn numbers_of<A: Actor>(alloc: Global, shells: &[Shell<A>]) -> Result<Vec<u32>, OutOfMemory>
    ensures numbers { IfOk result (λ numbers. numbers.items ≡ crew_numbers shells.now) }
    ensures none { shells.now ≡ [] → IsOk result }
{
    let mut numbers = Vec::new(alloc);
    for shell in shells {
        numbers.push(shell.who())?;
    }
    Ok(numbers)
}

// Draws the next step of a storm, lets all shells gather, and returns the line of this step, if it
// is one.
fn storm_line<A: Actor, R: Wait>(
    rt: &R,
    company: &mut Company<A>,
    storm: &mut Storm,
    actors: &[u32],
) -> Result<Option<Line<A::Order>>, OutOfMemory>
    requires together { AreTogether company.old }
    requires actors { actors.now ≡ crew_numbers company.old.shells.items }
    ensures rested { OnOk result (HasRested company.old company.new) }
    ensures drawn { OnOk result (storm.new ≡ after_step storm.old) }
    ensures calm { IfOk result (λ line. IfSome line IsCalm) }
    ensures line { IfOk result (IsStormLine (two_words storm.old.number storm.old.step)
        company.new.net company.new.shells.items) }
{
    deeds_are_rows_of_the_walk::<A>();
    let words = storm.draw();
    let glance = company.net.glance(rt, actors, words.1)?;
    gather_again(&mut company.net, &mut company.shells);
    let step = deed_at(&glance, actors, words);
    Ok(step.line())
}

// Runs the line of a step, if there is one. Returns whether a row was made.
fn run_deed<A: Actor, G: Gate, R: Wait>(
    rt: &R,
    alloc: Global,
    company: &mut Company<A>,
    line: Option<Line<A::Order>>,
    gate: &G,
) -> Result<bool, PostError>
    requires together { AreTogether company.old }
    requires calm { IfSome line IsCalm }
    ensures { RowEnds (λ s rows. option_and_then (line_row s rows) line)
        company.old company.new result }
{
    match line {
        Some(line) => step_line(rt, alloc, company, &line, gate),
        None => Ok(false),
    }
}

// Runs one step of a storm. A step that makes no row is not counted as skipped.
fn storm_step<A: Actor, G: Gate, R: Wait>(
    rt: &R,
    alloc: Global,
    company: &mut Company<A>,
    storm: &mut Storm,
    actors: &[u32],
    gate: &G,
) -> Result<(), PostError>
    requires together { AreTogether company.old }
    requires actors { actors.now ≡ crew_numbers company.old.shells.items }
    ensures drawn { OnOk result (storm.new ≡ after_step storm.old) }
    ensures goes { OnOk result
        (LineEnded (Storms (two_words storm.old.number storm.old.step) ∷ []) []
        company.old company.new) }
    ensures fills { OnFull result
        (LineRefused (Storms (two_words storm.old.number storm.old.step) ∷ [])
        company.old company.new) }
{
    let line = storm_line(rt, company, storm, actors)?;
    let _ = run_deed(rt, alloc, company, line, gate)?;
    Ok(())
}

/// Runs `most` steps of the storm with this number.
pub(crate) fn run_storm<A: Actor, G: Gate, R: Wait>(
    rt: &R,
    alloc: Global,
    company: &mut Company<A>,
    number: u64,
    most: u32,
    gate: &G,
) -> Result<(), PostError>
    requires together { AreTogether company.old }
    ensures goes { OnOk result
        (LineEnded (storm_steps (two_words number) 0 most) [] company.old company.new) }
    ensures fills { OnFull result
        (LineRefused (storm_steps (two_words number) 0 most) company.old company.new) }
{
    let actors = numbers_of(alloc, company.shells.as_slice())?;
    let numbers = actors.as_slice();
    let mut storm = Storm::start(number);
    for done in 0..most {
        let _ = done;
        storm_step(rt, alloc, company, &mut storm, numbers, gate)?;
    }
    Ok(())
}
