//! A `settle` line: many deliveries, each of the lowest-numbered pending mail of all actors.
ghost use Rattle.std.specs.Prelude.{◌≡◌, ℕ, ◌<◌, [], ◌∷◌, IfOk, IsOk, OnOk, Some};
ghost use Rattle.sc_actor.specs.Walk.{Settles};
ghost use Rattle.sc_thread_workers.specs.RoundEnds.{IsFirst};
ghost use Rattle.sc_thread_drive.specs.Lowest.{FindsLowest, IsFirstPlaced};
ghost use Rattle.sc_thread_drive.specs.Rows.{OnFull};
ghost use Rattle.sc_thread_drive.specs.Stepping.{IsNowhere};
ghost use Rattle.sc_thread_drive.specs.CompanyRows.{AreTogether, HasFound, HasSettledOne, IsStaffed, LineEnded, LineRefused};

use crate::actor_lines::place_of;
use crate::acts::act_by_turn;
use crate::company::Company;
use sc_actor::{Actor, Gate};
use sc_base::OutOfMemory;
use sc_thread_ports::{PostError, Spot};
use sc_thread_work::{Shell, Turn};
use sc_thread_workers::gather;
use std::alloc::Global;
use std::sync::Wait;

// Returns the place of the shell that gets the first of these copies whose receiver has a shell.
fn first_placed<A: Actor>(shells: &[Shell<A>], spots: &[Spot]) -> Option<usize>
    ensures { IsFirstPlaced shells.now spots.now result }
{
    for spot in spots {
        if let Some(place) = place_of(shells, spot.who) {
            return Some(place);
        }
    }
    None
}

// Lets all shells gather, and returns the place of the shell that gets the lowest-numbered pending
// mail, from a list of all pending mail, for which it takes memory.
fn look_on<A: Actor, R: Wait>(
    rt: &R,
    company: &mut Company<A>,
) -> Result<Option<usize>, OutOfMemory>
    requires together { AreTogether company.old }
    ensures { IfOk result (HasFound company.old company.new) }
{
    let look = company.net.look(rt)?;
    let _ = gather(rt, &mut company.net, &mut company.shells);
    Ok(first_placed(company.shells.as_slice(), look.pending.as_slice()))
}

// Returns the place of the shell that gets the lowest-numbered pending mail of all, or `None` where
// no mail is pending. `found` is the receiver of the first pending mail of all.
//
// Mail to a number that has no shell is passed over.
fn placed<A: Actor, R: Wait>(
    rt: &R,
    company: &mut Company<A>,
    found: Option<u32>,
) -> Result<Option<usize>, OutOfMemory>
    requires together { AreTogether company.old }
    requires first { IsFirst company.old.net found }
    ensures found { IfOk result (HasFound company.old company.new) }
    ensures none { ((who : ℕ) → found ≡ Some who → ¬ IsNowhere company.old.shells.items who) →
        IsOk result }
{
    let Some(who) = found else {
        return Ok(None);
    };
    match place_of(company.shells.as_slice(), who) {
        Some(place) => Ok(Some(place)),
        None => look_on(rt, company),
    }
}

/// Lets all shells gather, and returns the place of the shell that gets the lowest-numbered pending
/// mail of all, or `None` where no mail is pending.
pub(crate) fn lowest<A: Actor, R: Wait>(
    rt: &R,
    company: &mut Company<A>,
) -> Result<Option<usize>, OutOfMemory>
    requires together { AreTogether company.old }
    ensures { IfOk result (HasFound company.old company.new) }
{
    let found = gather(rt, &mut company.net, &mut company.shells);
    placed(rt, company, found)
}

// Makes one delivery of a `settle` line, at the place that was found, and returns the place of the
// next.
fn settle_step<A: Actor, G: Gate, R: Wait>(
    rt: &R,
    alloc: Global,
    company: &mut Company<A>,
    left: u32,
    place: usize,
    gate: &G,
) -> Result<Option<usize>, PostError>
    requires together { AreTogether company.old }
    requires staffed { IsStaffed company.old }
    requires finds { FindsLowest company.old.net company.old.shells.items (Some place) }
    requires left { 0 < left }
    ensures goes { IfOk result (HasSettledOne left company.old company.new) }
    ensures fills { OnFull result
        (LineRefused (Settles left ∷ []) company.old company.new) }
{
    let (turn, found) = act_by_turn(rt, alloc, company, place, 1, gate);
    match turn {
        Turn::Did { .. } => {
            let next = placed(rt, company, found)?;
            Ok(next)
        }
        Turn::Full { bytes } => Err(PostError::JournalFull { bytes }),
        Turn::Empty { .. } | Turn::Spent => unreachable!(),
        Turn::OutOfMemory => Err(PostError::OutOfMemory),
    }
}

/// Runs a `settle` line: up to `most` deliveries, each of the lowest-numbered pending mail of all
/// actors.
pub(crate) fn run_settle<A: Actor, G: Gate, R: Wait>(
    rt: &R,
    alloc: Global,
    company: &mut Company<A>,
    most: u32,
    gate: &G,
) -> Result<(), PostError>
    requires together { AreTogether company.old }
    requires staffed { IsStaffed company.old }
    ensures goes { OnOk result (LineEnded (Settles most ∷ []) [] company.old company.new) }
    ensures fills { OnFull result
        (LineRefused (Settles most ∷ []) company.old company.new) }
{
    let mut found = lowest(rt, company)?;
    let mut left = most;
    loop {
        let Some(place) = found else {
            return Ok(());
        };
        if left == 0 {
            company.score.unsettled = true;
            return Ok(());
        }
        found = settle_step(rt, alloc, company, left, place, gate)?;
        left -= 1;
    }
}
