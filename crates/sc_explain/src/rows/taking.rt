//! The entries of a row, which a world takes one after another.
ghost use Rattle.std.specs.Prelude.{◌≡◌, ◌∷◌, ◌++◌, [], MatchResult};
ghost use Rattle.sc_explain.specs.rows.Said.{HasTaken, HaveArcsThroughout};
ghost use Rattle.sc_world_groups.specs.declared.errors.EntryError.TheVariants.{NoArc};
ghost use Rattle.sc_explain.specs.facts.Facts.{entry_line};
ghost use Rattle.sc_meaning.specs.entries.Rings.{HaveArcs};
ghost use Rattle.sc_meaning.specs.entries.Worlds.{StoreWorld, recorded};
ghost use Rattle.sc_world_groups.specs.Effects.{effect_in};
ghost use Rattle.sc_explain.specs.rows.Explained.{ring_groups_in};

use crate::facts::{RingGroup, entry_line};
use crate::rows::adding::add_line;
use crate::rows::following::follow;
use sc_meaning::LogEntry;
use sc_scenario::ReportLine;
use sc_words::Effect;
use sc_world_groups::{EntryError, StoreWorld};
use std::alloc::Global;

/// The lines of entries, and what is said of the groups of the ring after these entries.
#[derive(Drop)]
pub(crate) struct Taken {
    pub lines: Vec<ReportLine>,
    pub groups: Vec<RingGroup>,
}

// Adds the line of an entry that the world has just taken, with this effect.
fn after_entry(
    alloc: Global,
    row: u64,
    world: &StoreWorld,
    taken: Taken,
    entry: &LogEntry,
    effect: &Option<Effect>,
) -> Result<Taken, EntryError>
    ensures { MatchResult result (λ more.
        (more.lines.items ≡ taken.lines.items ++ entry_line row entry.now effect.now ∷ []) ×
        ((before : StoreWorld) → world.now ≡ recorded before entry.now →
        effect.now ≡ effect_in before entry.now →
        taken.groups.items ≡ ring_groups_in before →
        more.groups.items ≡ ring_groups_in world.now))
        (λ error. error ≡ NoArc → ⊥) }
{
    let Taken { mut lines, groups } = taken;
    let line = entry_line(alloc, row, entry, effect.as_ref())?;
    add_line(&mut lines, line)?;
    let groups = follow(alloc, world, groups, entry, effect)?;
    Ok(Taken { lines, groups })
}

// Lets the world take an entry, and adds the line of the entry.
fn take_one(
    alloc: Global,
    row: u64,
    world: &mut StoreWorld,
    taken: Taken,
    entry: &LogEntry,
) -> Result<Taken, EntryError>
    ensures { MatchResult result (λ more. (world.new ≡ recorded world.old entry.now) ×
        (more.lines.items ≡
        taken.lines.items ++ entry_line row entry.now (effect_in world.old entry.now) ∷ []) ×
        (taken.groups.items ≡ ring_groups_in world.old →
        more.groups.items ≡ ring_groups_in world.new))
        (λ error. error ≡ NoArc → HaveArcs (recorded world.old entry.now).ring → ⊥) }
{
    match world.take(entry) {
        Ok(effect) => after_entry(alloc, row, world, taken, entry, &effect),
        Err(error) => Err(error),
    }
}

/// Lets the world take the entries of a row, and returns their lines. Fails where it runs out of
/// memory, and where an entry would leave a cut that is no arc; then the world may only be dropped.
pub(crate) fn take_all(
    alloc: Global,
    row: u64,
    world: &mut StoreWorld,
    groups: Vec<RingGroup>,
    entries: &[LogEntry],
) -> Result<Taken, EntryError>
    ensures { MatchResult result (λ taken. HasTaken row world.old entries.now groups.items
        world.new taken.lines.items taken.groups.items)
        (λ error. error ≡ NoArc → HaveArcsThroughout world.old entries.now → ⊥) }
{
    let mut taken = Taken {
        lines: Vec::new(alloc),
        groups,
    };
    for entry in entries {
        match take_one(alloc, row, world, taken, entry) {
            Ok(more) => taken = more,
            Err(error) => return Err(error),
        }
    }
    Ok(taken)
}
