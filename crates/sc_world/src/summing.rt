//! The summary of a replayed journal.
ghost use Rattle.std.specs.Prelude.{◌≡◌, ◌<◌, ◌≤◌, ◌^◌, length, fold, IfOk, OnOk};
ghost use Rattle.std.specs.Option.{option_to_list};
ghost use Rattle.sc_actor.specs.Mail.{mails};
ghost use Rattle.sc_actor.specs.Walk.{is_quiet, skipped};
ghost use Rattle.sc_meaning.specs.entries.Worlds.{CoverThroughout};
ghost use Rattle.sc_meaning.specs.sound.Players.{system_of, schedule, parties, as_nodes};
ghost use Rattle.sc_meaning.specs.sound.GroupsOf.{entries_at, world_at};
ghost use Rattle.sc_meaning.specs.sound.Soundness.{IsSoundThroughout};
ghost use Rattle.sc_world.specs.Summary.{cut_route, place_in, placed, ring_lines, summary_of};
ghost use Rattle.sc_texts.specs.chance.KeyStream.{two_words};

use crate::counting::{all_asked, deliveries, mail_count};
use crate::orders::{order_count, reported_orders};
use crate::party::Party;
use crate::shown::store_world;
use crate::worlds::World;
use sc_actor::{Journal, Row};
use sc_base::{OutOfMemory, Sequence};
use sc_mail::Mail;
use sc_meaning::Cut;
use sc_scenario::{Scenario, Summary};
use sc_words::{Base, OrderLine, Route};
use sc_world_groups::StoreWorld;
use std::alloc::Global;

// Returns the report's line of a range, if its group is there.
fn cut_route(world: &StoreWorld, cut: &Cut) -> Option<Route>
    ensures { result ≡ cut_route world.now cut.now }
{
    match world.group(cut.group) {
        None => None,
        Some(group) => Some(Route {
            group: cut.group,
            lo: cut.arc.lo(),
            members: group.core().members,
        }),
    }
}

// Returns the place of a line that begins at a position, among lines by ascending beginning.
fn place_in(lines: &[Route], lo: u32) -> usize
    ensures value { result ≡ place_in lines.now lo }
    ensures within { result ≤ length lines.now }
{
    let mut at = 0usize;
    for other in lines {
        if lo < other.lo {
            return at;
        }
        at += 1;
    }
    at
}

fn add_line(lines: &mut Vec<Route>, line: Option<Route>) -> Result<(), OutOfMemory>
    ensures { OnOk result (lines.new.items ≡ fold placed lines.old.items (option_to_list line)) }
{
    match line {
        None => Ok(()),
        Some(line) => {
            let at = place_in(lines.as_slice(), line.lo);
            lines.insert(at, line)?;
            Ok(())
        }
    }
}

fn ring_lines(alloc: Global, world: &StoreWorld) -> Result<Vec<Route>, OutOfMemory>
    ensures { IfOk result (λ lines. lines.items ≡ ring_lines world.now) }
{
    let mut lines = Vec::new(alloc);
    for cut in world.ring() {
        add_line(&mut lines, cut_route(world, cut))?;
    }
    Ok(lines)
}

// Returns the lines of the ring of a journal.
fn ring_of(
    alloc: Global,
    groups: &[Base],
    rows: &[Row<Mail, OrderLine>],
) -> Result<Sequence<Route>, OutOfMemory>
    requires { CoverThroughout groups.now (entries_at as_nodes groups.now rows.now) }
    ensures { IfOk result (λ ring. ring ≡ ring_lines (world_at as_nodes groups.now rows.now)) }
{
    let world = store_world(alloc, groups, rows)?;
    let lines = ring_lines(alloc, &world)?;
    Ok(Sequence::from_vec(lines))
}

/// Returns the summary of a journal for the report. The caller gives what the rows leave of the
/// nodes and clients, the number of skipped lines, and whether no mail is pending. Each prefix of
/// the journal has to be sound, and rows and mails fewer than 2^31 each. The only error is out of
/// memory.
pub fn sum_up(
    alloc: Global,
    scenario: &Scenario,
    journal: &Journal<Mail, OrderLine>,
    left: &Sequence<Party>,
    skips: u64,
    quiet: bool,
) -> Result<Summary, OutOfMemory>
    requires parties { left.now ≡ parties as_nodes scenario.now journal.now }
    requires skipped { skips ≡
        skipped (system_of as_nodes two_words scenario.now) (schedule scenario.now) journal.now }
    requires quiet { quiet ≡ is_quiet (system_of as_nodes two_words scenario.now) journal.now }
    requires sound { IsSoundThroughout as_nodes scenario.now journal.now }
    requires few_rows { length journal.now < 2 ^ 31 }
    requires few_mails { length (mails journal.now) < 2 ^ 31 }
    ensures { IfOk result (λ recorded. recorded ≡ summary_of scenario.now journal.now) }
{
    let rows = journal.as_slice();
    Ok(Summary {
        version: scenario.version,
        brief: scenario.brief,
        asked: all_asked(alloc, left.as_slice())?,
        orders: reported_orders(alloc, order_count(scenario.lines.as_slice()), rows)?,
        ring: ring_of(alloc, scenario.groups.as_slice(), rows)?,
        rows: rows.len() as u32,
        mail: mail_count(rows),
        delivered: deliveries(rows),
        skipped: skips,
        quiet,
    })
}

/// Returns the summary of a replayed journal for the report. `scenario` has to be the world's. The
/// only error is out of memory.
pub fn summary(
    alloc: Global,
    scenario: &Scenario,
    world: &World<'_>,
) -> Result<Summary, OutOfMemory>
    requires { world.now.scenario ≡ scenario.now }
    ensures { IfOk result (λ recorded. recorded ≡ summary_of scenario.now world.now.rows) }
{
    sum_up(
        alloc,
        scenario,
        world.rows,
        &world.parties,
        world.skipped,
        world.quiet,
    )
}
