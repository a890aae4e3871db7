//! Journals of ticks, and the first row of them that is not lawful.
ghost use Rattle.sc_scenario.specs.scenario.Valid.{IsValid};

use crate::scenarios::scenario_of;
use sc_actor::{Event, Journal, Row, are_few};
use sc_base::Sequence;
use sc_mail::Mail;
use sc_scenario::Scenario;
use sc_words::OrderLine;
use sc_world::{ReplayError, replay_rows};
use std::alloc::Global;
use std::mem::forget;
use std::process::Abort;

const TICK: &[u8] = b"scatter 1\nnodes 1\ngroup 0 1\ntick n1\n";

// Returns rows of one tick of an actor each, which send nothing.
fn rows_of(rt: &impl Abort, alloc: Global, actors: &[u32]) -> Journal<Mail, OrderLine> {
    let mut rows = Journal::new(alloc);
    for who in actors {
        let tick = Row {
            who: *who,
            event: Event::Tick,
            sent: Sequence::new(alloc),
        };
        rows.push(tick).expect(rt, "memory");
    }
    rows
}

// Returns the row of a journal that a replay names, or 0 where the rows are lawful.
fn bad_row(
    rt: &impl Abort,
    alloc: Global,
    scenario: &Scenario,
    journal: &Journal<Mail, OrderLine>,
) -> u32
    requires { IsValid scenario.now }
{
    assert!(rt; are_few(journal.as_slice()));
    match replay_rows(alloc, scenario, journal) {
        Ok(world) => {
            forget(world);
            0
        }
        Err(ReplayError::BadRow { at }) => at,
        Err(ReplayError::OutOfMemory) => panic!(rt; "memory"),
    }
}

// Returns the row that a replay of these ticks names, or 0 where they are lawful.
fn named_of(rt: &impl Abort, alloc: Global, actors: &[u32]) -> u32 {
    let scenario = scenario_of(rt, alloc, TICK);
    let rows = rows_of(rt, alloc, actors);
    let at = bad_row(rt, alloc, &scenario, &rows);
    forget(rows);
    forget(scenario);
    at
}

#[test]
fn the_first_unlawful_row_is_named(rt: HostRuntime) {
    let named = [
        named_of(&rt, rt.alloc(), &[]),
        named_of(&rt, rt.alloc(), &[1]),
        named_of(&rt, rt.alloc(), &[2]),
        named_of(&rt, rt.alloc(), &[1, 1]),
    ];
    assert!(rt; named == [0, 0, 1, 2]);
}
