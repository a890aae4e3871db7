//! The ring, as a list of cuts.
ghost use Rattle.std.specs.Prelude.{◌≡◌, ◌++◌, [], Some, None, map, not, filter, find, IfOk, IsOk, OnOk, MatchResult};
ghost use Rattle.std.specs.List.{flat_map};
ghost use Rattle.std.specs.Option.{option_copied};
ghost use Rattle.sc_meaning.specs.entries.Births.{division_of};
ghost use Rattle.sc_meaning.specs.entries.Rings.{HaveArcs, first_cut, is_cut_of, arc_in, recut, parts_of, both_arcs, ring_moved, ring_decided, ring_divided, decided_by, ring_after};
ghost use Rattle.sc_world_groups.specs.declared.errors.EntryError.TheVariants.{NoArc};

use crate::effects::{decided_by, division_of};
use crate::errors::EntryError;
use crate::spans::{Span, Stretch, cuts_of, spans_of};
use sc_base::{Draw, OutOfMemory, RingArc, same_draw};
use sc_meaning::{Cut, Division};
use sc_words::{Base, Command, Core, Effect, Outcome};
use std::alloc::Global;

/// Returns the cut of each group of a scenario.
pub fn first_cuts(alloc: Global, bases: &[Base]) -> Result<Vec<Cut>, OutOfMemory>
    ensures ring { IfOk result (λ ring. ring.items ≡ map first_cut bases.now) }
    ensures none { bases.now ≡ [] → IsOk result }
{
    let mut ring = Vec::new(alloc);
    for base in bases {
        ring.push(Cut {
            arc: base.core.arc,
            group: base.core.id,
        })?;
    }
    Ok(ring)
}

// ---- a split

fn divide(
    after: &mut Vec<Span>,
    group: Draw,
    division: Division,
    span: Span,
) -> Result<(), OutOfMemory>
    ensures { OnOk result (after.new.items ≡ after.old.items ++ parts_of group division span) }
{
    if span.is_of(group) {
        after.push(Span {
            arc: span.arc.before(division.at),
            group: span.group,
        })?;
        after.push(Span {
            arc: span.arc.from(division.at),
            group: division.child,
        })?;
        return Ok(());
    }
    after.push(span)?;
    Ok(())
}

fn divided(
    alloc: Global,
    group: Draw,
    division: Division,
    spans: &[Span],
) -> Result<Vec<Span>, OutOfMemory>
    ensures { IfOk result (λ after. after.items ≡ flat_map (parts_of group division) spans.now) }
{
    let mut after = Vec::new(alloc);
    for span in spans {
        divide(&mut after, group, division, *span)?;
    }
    Ok(after)
}

// ---- a merge, and a boundary that moves

fn cut_in(group: Draw, ring: &[Cut]) -> Option<&Cut>
    ensures { option_copied result ≡ find (is_cut_of group) ring.now }
{
    ring.iter().find(|cut| same_draw(cut.group, group))
}

fn arc_in(group: Draw, ring: &[Cut]) -> Option<RingArc>
    ensures { result ≡ arc_in group ring.now }
{
    match cut_in(group, ring) {
        Some(cut) => Some(cut.arc),
        None => None,
    }
}

fn both_arcs(arc: Option<RingArc>, next: Option<RingArc>) -> Option<Stretch>
    ensures { result ≡ both_arcs arc next }
{
    match arc {
        Some(arc) => match next {
            Some(next) => Some(Stretch::joined(arc, next)),
            None => None,
        },
        None => None,
    }
}

fn merged(
    alloc: Global,
    whole: Stretch,
    coordinator: Draw,
    participant: Draw,
    ring: &[Cut],
) -> Result<Vec<Span>, OutOfMemory>
    ensures { IfOk result (λ after. after.items ≡
        recut coordinator whole (filter (λ cut. not (is_cut_of participant cut)) ring.now)) }
{
    let mut after = Vec::new(alloc);
    for cut in ring {
        let span = Span::of(cut);
        if !span.is_of(participant) {
            after.push(span.with_arc(coordinator, whole))?;
        }
    }
    Ok(after)
}

fn moved(
    alloc: Global,
    at: u32,
    whole: Stretch,
    coordinator: Draw,
    participant: Draw,
    ring: &[Cut],
) -> Result<Vec<Span>, OutOfMemory>
    ensures { IfOk result (λ after. after.items ≡
        ring_moved at (Some whole) coordinator participant ring.now) }
{
    let mut after = Vec::new(alloc);
    for cut in ring {
        let span = Span::of(cut).with_arc(participant, whole.from(at));
        after.push(span.with_arc(coordinator, whole.before(at)))?;
    }
    Ok(after)
}

fn after_outcome(
    alloc: Global,
    outcome: &Outcome,
    coordinator: Draw,
    participant: Draw,
    ring: &[Cut],
) -> Result<Vec<Span>, OutOfMemory>
    ensures { IfOk result (λ after. after.items ≡
        ring_decided (Some outcome.now) coordinator participant ring.now) }
{
    let whole = both_arcs(arc_in(coordinator, ring), arc_in(participant, ring));
    match outcome {
        Outcome::Merged { .. } => match whole {
            Some(whole) => merged(alloc, whole, coordinator, participant, ring),
            None => spans_of(alloc, ring),
        },
        Outcome::Moved { at, .. } => match whole {
            Some(whole) => moved(alloc, *at, whole, coordinator, participant, ring),
            None => spans_of(alloc, ring),
        },
        Outcome::Abort | Outcome::Migrated { .. } | Outcome::Divided => spans_of(alloc, ring),
    }
}

// ---- each entry

// Returns the ring after what a coordinator decided by the vote of the participant or the watcher,
// if it decided something.
fn after_decision(
    alloc: Global,
    core: &Core,
    outcome: Option<&Outcome>,
    ring: &[Cut],
) -> Result<Vec<Span>, OutOfMemory>
    ensures { IfOk result (λ after. after.items ≡
        ring_decided (option_copied outcome.entry) core.now.id core.now.succ.group ring.now) }
{
    match outcome {
        Some(outcome) => after_outcome(alloc, outcome, core.id, core.succ.group, ring),
        None => spans_of(alloc, ring),
    }
}

fn after_division(
    alloc: Global,
    core: &Core,
    division: Option<Division>,
    spans: Vec<Span>,
) -> Result<Vec<Span>, OutOfMemory>
    ensures { IfOk result (λ after. after.items ≡
        ring_divided division core.now.id spans.items) }
{
    match division {
        Some(division) => divided(alloc, core.id, division, &spans),
        None => Ok(spans),
    }
}

/// Returns the ring after an entry of the log of a group with this record before the entry. Fails
/// where it runs out of memory, and where the entry would leave a cut that is no arc.
pub fn ring_after(
    alloc: Global,
    core: &Core,
    command: &Command,
    effect: &Effect,
    ring: Vec<Cut>,
) -> Result<Vec<Cut>, EntryError>
    ensures ring { MatchResult result
        (λ after. after.items ≡ ring_after core.now command.now effect.now ring.items)
        (λ error. error ≡ NoArc →
        HaveArcs (ring_after core.now command.now effect.now ring.items) → ⊥) }
    ensures none { decided_by command.now effect.now ≡ None →
        division_of core.now command.now effect.now ≡ None → IsOk result }
{
    let outcome = decided_by(command, effect);
    let division = division_of(core, command, effect);
    if outcome.is_none() && division.is_none() {
        return Ok(ring);
    }
    let decided = after_decision(alloc, core, outcome, ring.as_slice())?;
    let after = after_division(alloc, core, division, decided)?;
    cuts_of(alloc, after.as_slice())
}
