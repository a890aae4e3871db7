//! What an arc holds after some rows.
ghost use Rattle.std.specs.Prelude.{◌≡◌, ◌<◌, ◌^◌, map, IfOk};
ghost use Rattle.sc_base.specs.Arc.{IsArc};
ghost use Rattle.sc_meaning.specs.entries.Effective.{effective};
ghost use Rattle.sc_meaning.specs.entries.Worlds.{CoverThroughout};
ghost use Rattle.sc_meaning.specs.sound.Players.{as_nodes};
ghost use Rattle.sc_meaning.specs.sound.GroupsOf.{entries_at, world_at};
ghost use Rattle.sc_world_entries.specs.scans.Scan.{entries_in, pairs_in, scan_of, shown};

use crate::decided::entries_of;
use crate::scans::orders::ordered;
use crate::scans::walking::{Part, parts};
use sc_actor::Row;
use sc_base::{Draw, Key, OutOfMemory, Pairs, RingArc, Sequence, Value, same_draw};
use sc_mail::Mail;
use sc_meaning::LogEntry;
use sc_words::{Base, OrderLine};
use sc_world_groups::{StoreWorld, world_of};
use std::alloc::Global;

/// What a scan shows of a part of an arc.
#[derive(Drop)]
pub struct Shown {
    /// The positions of the part, and the group that has them.
    pub part: Part,
    /// The number of entries of the group's log.
    pub slot: u64,
    /// The pairs of the part, by the distance of their positions from the part's start, and by
    /// their keys where positions are the same.
    pub pairs: Sequence<(Key, Value)>,
}

// Returns how many of these entries are of a group's log.
fn entries_in(entries: &[LogEntry], name: Draw) -> u64
    ensures { result ≡ entries_in entries.now name }
{
    let count = entries
        .iter()
        .filter(|entry| same_draw(entry.group, name))
        .count();
    count as u64
}

// Returns the pairs of a group by its effective record; none where there is no such group.
fn pairs_in(alloc: Global, world: &StoreWorld, name: Draw) -> Result<Pairs, OutOfMemory>
    ensures { IfOk result (λ pairs. pairs ≡ pairs_in (effective world.now name)) }
{
    match world.effective(name)? {
        None => Ok(Pairs::new(alloc)),
        Some(base) => Ok(base.pairs),
    }
}

fn show(
    alloc: Global,
    world: &StoreWorld,
    entries: &[LogEntry],
    part: Part,
) -> Result<Shown, OutOfMemory>
    ensures { IfOk result (λ one. one ≡ shown world.now (entries_in entries.now) part) }
{
    let pairs = pairs_in(alloc, world, part.group)?;
    let list = ordered(alloc, &part.arc, &pairs)?;
    Ok(Shown {
        part,
        slot: entries_in(entries, part.group),
        pairs: Sequence::from_vec(list),
    })
}

// Returns what an arc holds in a world that these entries made.
fn scan_of(
    alloc: Global,
    world: &StoreWorld,
    entries: &[LogEntry],
    arc: &RingArc,
) -> Result<Vec<Shown>, OutOfMemory>
    ensures scan { IfOk result
        (λ scan. scan.items ≡ scan_of world.now (entries_in entries.now) arc.now) }
    ensures arc { IsArc arc.now × (arc.now.lo < 2 ^ 32) }
{
    let found = parts(alloc, world.ring(), arc)?;
    let list = found.as_slice();
    let mut scan = Vec::new(alloc);
    for part in list {
        scan.push(show(alloc, world, entries, *part)?)?;
    }
    Ok(scan)
}

/// Returns what an arc of the ring holds after some rows, part by part from the arc's start on. The
/// caller ensures that the ring covers after each of the rows' entries. The rows are read once,
/// whatever groups there are. The only error is out of memory.
pub fn scan(
    alloc: Global,
    bases: &[Base],
    rows: &[Row<Mail, OrderLine>],
    arc: &RingArc,
) -> Result<Vec<Shown>, OutOfMemory>
    requires { CoverThroughout bases.now (entries_at as_nodes bases.now rows.now) }
    ensures scan { IfOk result (λ scan. scan.items ≡ scan_of (world_at as_nodes bases.now rows.now)
        (entries_in (entries_at as_nodes bases.now rows.now)) arc.now) }
    ensures arc { IfOk result (λ _. IsArc arc.now × (arc.now.lo < 2 ^ 32)) }
{
    let entries = entries_of(alloc, bases, rows)?;
    let world = world_of(alloc, bases, entries.as_slice())?;
    scan_of(alloc, &world, entries.as_slice(), arc)
}
