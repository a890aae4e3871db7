//! What the rows of a journal show: each group's decided log, the decided ring, the history, and
//! each group's effective record. It is read off the mail that the rows deliver and send, never off
//! what an actor holds.
ghost use Rattle.std.specs.Prelude.{◌≡◌, IfOk};
ghost use Rattle.std.specs.Option.{option_map};
ghost use Rattle.sc_group_table.specs.machine.Group.{base_of};
ghost use Rattle.sc_meaning.specs.entries.Effective.{effective};
ghost use Rattle.sc_meaning.specs.entries.Rings.{Covers};
ghost use Rattle.sc_meaning.specs.entries.Worlds.{CoverThroughout};
ghost use Rattle.sc_words.specs.ideal.History.{Legal};
ghost use Rattle.sc_meaning.specs.sound.Players.{as_nodes};
ghost use Rattle.sc_meaning.specs.sound.GroupsOf.{entries_at, log_at, ring_at, history_at, world_at};

use crate::worlds::World;
use sc_actor::Row;
use sc_base::{Draw, OutOfMemory};
use sc_mail::Mail;
use sc_meaning::Cut;
use sc_words::{Base, Command, Entry, OrderLine};
use sc_world_entries::{entries_of, log_at};
use sc_world_groups::{StoreWorld, world_of};
use std::alloc::Global;

/// Returns what the entries of rows make of the groups of a scenario. The ring has to cover after
/// each prefix of the entries. The only error is out of memory.
pub(crate) fn store_world(
    alloc: Global,
    groups: &[Base],
    rows: &[Row<Mail, OrderLine>],
) -> Result<StoreWorld, OutOfMemory>
    requires { CoverThroughout groups.now (entries_at as_nodes groups.now rows.now) }
    ensures { IfOk result (λ world. world ≡ world_at as_nodes groups.now rows.now) }
{
    let entries = entries_of(alloc, groups, rows)?;
    let world = world_of(alloc, groups, entries.as_slice())?;
    Ok(world)
}

/// Returns the decided log of the group with a name in a journal: the longest list whose entry k is
/// chosen at slot k. It is empty where the journal has no such group. The only error is out of
/// memory.
pub fn decided_log(
    alloc: Global,
    world: &World<'_>,
    group: Draw,
) -> Result<Vec<Command>, OutOfMemory>
    ensures { IfOk result (λ log. log.items ≡
        log_at as_nodes world.now.scenario.groups world.now.rows group) }
{
    log_at(
        alloc,
        world.scenario.groups.as_slice(),
        world.rows.as_slice(),
        group,
    )
}

/// Returns the decided ring of a journal: the ranges of the scenario's groups, as the entries of
/// coordinators change them. The ring covers: each position lies in the arc of exactly one range.
/// The only error is out of memory.
pub fn decided_ring(alloc: Global, world: &World<'_>) -> Result<Vec<Cut>, OutOfMemory>
    ensures recorded { IfOk result (λ ring. ring.items ≡
        ring_at as_nodes world.now.scenario.groups world.now.rows) }
    ensures covers { IfOk result (λ ring. Covers ring.items) }
{
    let recorded = store_world(
        alloc,
        world.scenario.groups.as_slice(),
        world.rows.as_slice(),
    )?;
    let (ring, _history) = recorded.into_parts();
    Ok(ring)
}

/// Returns the history of a journal: row by row the requests decided there that took effect, in any
/// group. The history is legal. The only error is out of memory.
pub fn history(alloc: Global, world: &World<'_>) -> Result<Vec<Entry>, OutOfMemory>
    ensures recorded { IfOk result (λ entries. entries.items ≡
        history_at as_nodes world.now.scenario.groups world.now.rows) }
    ensures legal { IfOk result (λ entries. Legal entries.items) }
{
    let recorded = store_world(
        alloc,
        world.scenario.groups.as_slice(),
        world.rows.as_slice(),
    )?;
    let (_ring, history) = recorded.into_parts();
    Ok(history)
}

/// Returns the effective record of a group in a journal, if there is such a group: what its own log
/// makes of it, and then what was decided elsewhere. The only error is out of memory.
pub fn effective(alloc: Global, world: &World<'_>, group: Draw) -> Result<Option<Base>, OutOfMemory>
    ensures { IfOk result (λ base. base ≡ option_map base_of
        (effective (world_at as_nodes world.now.scenario.groups world.now.rows) group)) }
{
    let recorded = store_world(
        alloc,
        world.scenario.groups.as_slice(),
        world.rows.as_slice(),
    )?;
    recorded.effective(group)
}
