//! Journals that were played, replayed whole and with one row changed, and what a replay says of
//! them.
ghost use Rattle.std.specs.Prelude.{◌≡◌};
ghost use Rattle.sc_scenario.specs.scenario.Valid.{IsValid};
ghost use Rattle.sc_meaning.specs.sound.Players.{as_nodes};
ghost use Rattle.sc_meaning.specs.sound.Soundness.{IsSoundThroughout};

use crate::decided_tests::{ExpectedGroup, has_groups};
use crate::gates::Open;
use crate::run_tests::{ACCEPT_THRICE, CUT_SHORT, CUT_SHORT_REPORT, FIRST, TWO_LEADERS};
use sc_actor::{Event, Journal, Played, Row, are_few};
use sc_base::{Draw, Op, Sequence};
use sc_mail::Mail;
use sc_run::{Left, play_whole};
use sc_scenario::{ReportLine, Scenario, Summary, lines, read_scenario};
use sc_thread_workers::Way;
use sc_words::{Command, Entry, OrderLine};
use sc_world::{Party, ReplayError, World, decided_log, history, replay_rows, summary};
use std::alloc::Global;
use std::mem::{self, forget};
use std::process::Abort;
use std::sync::Wait;
use std::thread::Threads;

// What is changed of one row.
#[derive(Clone, Copy)]
enum Change {
    Nothing,
    Sender,
    Event,
    Receiver,
    Silence,
    Twice,
}

// A scenario, what is changed of which row of its journal, and the row that a replay must name (0:
// none).
type Case = (&'static [u8], Change, usize, u32);

/// Returns the rows of a scenario that is played to its end.
pub fn played<R: Abort + Threads + Wait + Sync>(
    rt: &R,
    alloc: Global,
    scenario: &Scenario,
) -> Journal<Mail, OrderLine>
    requires { IsValid scenario.now }
    ensures { IsSoundThroughout as_nodes scenario.now result }
{
    let left = play_whole(rt, alloc, Way::Runs, scenario, 1 << 30, &Open).expect(rt, "memory");
    let Left {
        played,
        journal,
        parties,
    } = left;
    forget(parties);
    match played {
        Played::Ended { .. } => journal,
        _ => panic!(rt; "it did not end"),
    }
}

/// Returns the scenario that a text is.
pub fn scenario_of(rt: &impl Abort, alloc: Global, input: &[u8]) -> Scenario
    ensures { IsValid result }
{
    read_scenario(alloc, input).expect(rt, "a scenario")
}

// Returns the mails of a row, with another receiver of the first.
fn sent_elsewhere(rt: &impl Abort, sent: Sequence<Mail>) -> Sequence<Mail> {
    let mut mails = sent.into_vec();
    assert!(rt; !mails.is_empty());
    mails[0].to = mails[0].to.saturating_add(1);
    Sequence::from_vec(mails)
}

fn change_row(rt: &impl Abort, alloc: Global, row: &mut Row<Mail, OrderLine>, change: Change) {
    match change {
        Change::Sender => row.who = row.who.saturating_add(1),
        Change::Event => row.event = Event::Crash,
        Change::Receiver => {
            let sent = mem::replace(&mut row.sent, Sequence::new(alloc));
            row.sent = sent_elsewhere(rt, sent);
        }
        Change::Silence => forget(mem::replace(&mut row.sent, Sequence::new(alloc))),
        Change::Nothing | Change::Twice => {}
    }
}

// Changes the row of that number, from 1, or adds one.
fn change_rows(
    rt: &impl Abort,
    alloc: Global,
    rows: &mut Vec<Row<Mail, OrderLine>>,
    change: Change,
    number: usize,
) {
    if let Change::Twice = change {
        let tick = Row {
            who: 1,
            event: Event::Tick,
            sent: Sequence::new(alloc),
        };
        rows.push(tick).expect(rt, "memory");
    }
    if let Some(row) = rows.get_mut(number.saturating_sub(1)) {
        change_row(rt, alloc, row, change);
    }
}

// Returns the journal of a case.
fn journal_of<R: Abort + Threads + Wait + Sync>(
    rt: &R,
    alloc: Global,
    case: Case,
) -> Journal<Mail, OrderLine> {
    let (input, change, number, _) = case;
    let scenario = scenario_of(rt, alloc, input);
    let mut rows = played(rt, alloc, &scenario).into_vec();
    forget(scenario);
    change_rows(rt, alloc, &mut rows, change, number);
    Journal::from_vec(rows)
}

/// Returns the row of a journal that a replay for a scenario names, or 0 where it names none.
pub fn named(
    rt: &impl Abort,
    alloc: Global,
    input: &[u8],
    journal: &Journal<Mail, OrderLine>,
) -> u32 {
    let scenario = scenario_of(rt, alloc, input);
    let at = bad_row(rt, alloc, &scenario, journal);
    forget(scenario);
    at
}

fn bad_row(
    rt: &impl Abort,
    alloc: Global,
    scenario: &Scenario,
    journal: &Journal<Mail, OrderLine>,
) -> u32
    requires { IsValid scenario.now }
{
    assert!(rt; are_few(journal.as_slice()));
    match replay_rows(alloc, scenario, journal) {
        Ok(world) => {
            forget(world);
            0
        }
        Err(ReplayError::BadRow { at }) => at,
        Err(ReplayError::OutOfMemory) => panic!(rt; "memory"),
    }
}

fn named_of<R: Abort + Threads + Wait + Sync>(rt: &R, alloc: Global, case: Case) -> u32 {
    let journal = journal_of(rt, alloc, case);
    let at = named(rt, alloc, case.0, &journal);
    forget(journal);
    at
}

const CASES: &[Case] = &[
    (FIRST, Change::Nothing, 0, 0),
    (TWO_LEADERS, Change::Nothing, 0, 0),
    (FIRST, Change::Receiver, 4, 4),
    (FIRST, Change::Silence, 2, 2),
    (FIRST, Change::Sender, 3, 3),
    (FIRST, Change::Event, 5, 5),
    (FIRST, Change::Twice, 0, 10),
    (ACCEPT_THRICE, Change::Sender, 3, 3),
    (TWO_LEADERS, Change::Event, 20, 20),
    (TWO_LEADERS, Change::Sender, 35, 35),
];

#[test]
fn a_played_journal_is_replayed_and_a_changed_row_is_named(rt: HostRuntime) {
    for case in CASES {
        assert!(rt; named_of(&rt, rt.alloc(), *case) == case.3);
    }
}

/// Returns the world of a journal of a scenario.
pub fn replayed<'a>(
    rt: &impl Abort,
    alloc: Global,
    scenario: &'a Scenario,
    journal: &'a Journal<Mail, OrderLine>,
) -> World<'a>
    requires { IsValid scenario.now }
    ensures { result.scenario ≡ scenario.now }
{
    assert!(rt; are_few(journal.as_slice()));
    match replay_rows(alloc, scenario, journal) {
        Ok(world) => world,
        Err(_) => panic!(rt; "the rows are not lawful"),
    }
}

// Returns whether these lines, one after another, are this text.
fn are_text(lines: &[ReportLine], text: &[u8]) -> bool {
    let mut rest = text;
    for line in lines {
        match rest.strip_prefix(line.bytes()) {
            Some(more) => rest = more,
            None => return false,
        }
    }
    rest.is_empty()
}

// Returns whether the report of a summary has these lines.
fn has_lines(rt: &impl Abort, alloc: Global, reported: &Summary, report: &[u8]) -> bool {
    let lines = lines(alloc, reported).expect(rt, "memory");
    let is_so = are_text(lines.as_slice(), report);
    forget(lines);
    is_so
}

// Returns the summary that a replay makes of a journal.
fn summary_by(
    rt: &impl Abort,
    alloc: Global,
    scenario: &Scenario,
    journal: &Journal<Mail, OrderLine>,
) -> Summary
    requires { IsValid scenario.now }
{
    let world = replayed(rt, alloc, scenario, journal);
    let reported = summary(alloc, scenario, &world).expect(rt, "memory");
    forget(world);
    reported
}

// Returns whether this is the report of a run's rows.
fn reports<R: Abort + Threads + Wait + Sync>(
    rt: &R,
    alloc: Global,
    input: &[u8],
    report: &[u8],
) -> bool {
    let scenario = scenario_of(rt, alloc, input);
    let journal = played(rt, alloc, &scenario);
    let reported = summary_by(rt, alloc, &scenario, &journal);
    let is_so = has_lines(rt, alloc, &reported, report);
    forget(reported);
    forget(journal);
    forget(scenario);
    is_so
}

#[test]
fn a_replay_gives_the_report_of_its_rows(rt: HostRuntime) {
    assert!(rt; reports(&rt, rt.alloc(), CUT_SHORT, CUT_SHORT_REPORT));
}

// Returns the operation of the request of client 1 with this number, from 1.
fn asked(scenario: &Scenario, number: u32) -> Option<&Op> {
    let asks = scenario.clients.as_slice().first()?;
    asks.ops.as_slice().get(number.checked_sub(1)? as usize)
}

// Returns the number of a command that is that request of client 1, or 0.
fn number_of(scenario: &Scenario, command: &Command) -> u32 {
    match command {
        Command::Call { client, seq, op } => {
            if *client == 1 && asked(scenario, *seq) == Some(op) {
                *seq
            } else {
                0
            }
        }
        _ => 0,
    }
}

// Returns whether commands are as many as these numbers, which they have one after another.
fn are_numbered(scenario: &Scenario, commands: &[Command], numbers: &[u32]) -> bool {
    for (command, number) in commands.iter().zip(numbers.iter()) {
        if number_of(scenario, command) != *number {
            return false;
        }
    }
    commands.len() == numbers.len()
}

// Returns whether the decided log of a group in a world has these numbers.
fn has_log(
    rt: &impl Abort,
    alloc: Global,
    scenario: &Scenario,
    world: &World<'_>,
    (group, numbers): (Draw, &[u32]),
) -> bool {
    let log = decided_log(alloc, world, group).expect(rt, "memory");
    let is_so = are_numbered(scenario, log.as_slice(), numbers);
    forget(log);
    is_so
}

// Returns the number of an entry that is that request of client 1 with the value that it found, or
// 0.
fn entry_number(scenario: &Scenario, found: &[Option<&[u8]>], entry: &Entry) -> u32 {
    let old = match &entry.reply.old {
        Some(value) => Some(value.bytes()),
        None => None,
    };
    let is_asked = entry.client == 1 && asked(scenario, entry.seq) == Some(&entry.op);
    let at = entry.seq.saturating_sub(1) as usize;
    if is_asked && found.get(at) == Some(&old) {
        entry.seq
    } else {
        0
    }
}

// Returns whether entries, whose requests found FOUND, are as many as these numbers, which they
// have one after another.
fn are_entries(scenario: &Scenario, entries: &[Entry], numbers: &[u32]) -> bool {
    for (entry, number) in entries.iter().zip(numbers.iter()) {
        if entry_number(scenario, FOUND, entry) != *number {
            return false;
        }
    }
    entries.len() == numbers.len()
}

// Returns whether the history of a world has these numbers.
fn has_entries(
    rt: &impl Abort,
    alloc: Global,
    scenario: &Scenario,
    world: &World<'_>,
    numbers: &[u32],
) -> bool {
    let entries = history(alloc, world).expect(rt, "memory");
    let is_so = are_entries(scenario, entries.as_slice(), numbers);
    forget(entries);
    is_so
}

// Returns the number of nodes that a replay leaves, of clients, and of clients that await an
// answer.
fn left_of(parties: &[Party]) -> [u32; 3] {
    let (mut nodes, mut clients, mut waiting) = (0u32, 0u32, 0u32);
    for party in parties {
        match party {
            Party::Node(_) => nodes = nodes.saturating_add(1),
            Party::Client(client) => {
                clients = clients.saturating_add(1);
                if client.waiting().is_some() {
                    waiting = waiting.saturating_add(1);
                }
            }
        }
    }
    [nodes, clients, waiting]
}

// What the two requests of a history found.
const FOUND: &[Option<&[u8]>] = &[None, Some(b"x")];

/// What must hold of the world of a run.
#[derive(Clone, Copy)]
pub enum Question<'a> {
    /// The decided log of a group has these numbers.
    Log(Draw, &'a [u32]),
    /// The history, whose requests found FOUND, has these numbers.
    History(&'a [u32]),
    /// The number of nodes that are left, of clients, and of clients that await an answer.
    Left([u32; 3]),
    /// The groups, and the number of requests that took effect.
    Groups(&'a [ExpectedGroup], usize),
}

fn is_answer(
    rt: &impl Abort,
    alloc: Global,
    scenario: &Scenario,
    world: &World<'_>,
    question: Question<'_>,
) -> bool {
    match question {
        Question::Log(group, numbers) => has_log(rt, alloc, scenario, world, (group, numbers)),
        Question::History(numbers) => has_entries(rt, alloc, scenario, world, numbers),
        Question::Left(counts) => left_of(world.parties()) == counts,
        Question::Groups(expected, count) => has_groups(rt, alloc, world, expected, count),
    }
}

/// Returns whether that holds of the world of a journal of a scenario.
pub fn answers(
    rt: &impl Abort,
    alloc: Global,
    scenario: &Scenario,
    journal: &Journal<Mail, OrderLine>,
    question: Question<'_>,
) -> bool
    requires { IsValid scenario.now }
{
    let world = replayed(rt, alloc, scenario, journal);
    let is_so = is_answer(rt, alloc, scenario, &world, question);
    forget(world);
    is_so
}

/// Returns whether that holds of the world of a run.
pub fn holds_of_run<R: Abort + Threads + Wait + Sync>(
    rt: &R,
    alloc: Global,
    input: &[u8],
    question: Question<'_>,
) -> bool {
    let scenario = scenario_of(rt, alloc, input);
    let journal = played(rt, alloc, &scenario);
    let is_so = answers(rt, alloc, &scenario, &journal, question);
    forget(journal);
    forget(scenario);
    is_so
}

// Returns the expectation that the log of the group with a name has these numbers.
fn log_of(node: u16, numbers: &[u32]) -> Question<'_> {
    Question::Log(Draw { node, count: 1 }, numbers)
}

#[test]
fn a_put_and_a_get_are_decided_in_order(rt: HostRuntime) {
    let log = holds_of_run(&rt, rt.alloc(), FIRST, log_of(0, &[1, 2]));
    let history = holds_of_run(&rt, rt.alloc(), FIRST, Question::History(&[1, 2]));
    assert!(rt; log && history);
}

#[test]
fn a_replay_leaves_each_node_and_client_where_its_rows_do(rt: HostRuntime) {
    assert!(rt; holds_of_run(&rt, rt.alloc(), CUT_SHORT, Question::Left([1, 1, 1])));
}
