//! The parser: line by line, up to the first bad line.
ghost use Rattle.std.specs.Prelude.{◌≡◌, map, IfOk};
ghost use Rattle.sc_scenario.specs.scenario.Grammar.{HasVerdict, begun, are_two, header_read, said, words_read, is_fresh, line_read, bad, scenario_by, reading_ended, lines_read, verdict_of};
ghost use Rattle.sc_texts.specs.lines.Reasons.{IsSaid};
ghost use Rattle.sc_texts.specs.lines.Lines.{is_too_long, lines_in};
ghost use Rattle.sc_scenario.specs.scenario.Valid.{ValidScenariosAreBounded, FirstBytesDecide};
ghost use Rattle.sc_scenario.specs.declared.scenario.drafts.Reading.TheVariants.{Fresh, Outside, Within};
ghost use Rattle.sc_scenario.specs.declared.scenario.reading.ScenarioError.TheVariants.{OutOfMemory};

use crate::scenario::drafts::{Draft, Reading};
use crate::scenario::groups::bases_of;
use crate::scenario::places::may_stand;
use crate::scenario::scenarios::{Asks, Scenario};
use crate::scenario::statements::{Statement, statement_in};
use crate::scenario::taking::{taken_outside, taken_within};
use sc_base::{self, Sequence};
use sc_texts::{
    Kind, LineError, Reason, has_bad_byte, has_count, is_inner, is_skipped, is_text, kind_of,
    next_line, nth, trimmed, words_of,
};
use std::alloc::Global;

/// The most bytes of an input.
pub const INPUT_LIMIT: u64 = 16_777_216;

/// The most lines of an input.
pub const LINE_LIMIT: u32 = 20_000;

/// The error of a text that is no scenario.
#[derive(Clone, Copy, Debug, PartialEq, Eq)]
pub enum ScenarioError {
    /// The first bad line, counted from 1, and the reason why it is bad.
    Bad { line: u32, why: Reason },
    /// There was no memory left.
    OutOfMemory,
}

impl From<sc_base::OutOfMemory> for ScenarioError {
    ghost from_gives = { λ _ e. e ≡ OutOfMemory };

    fn from(_e: sc_base::OutOfMemory) -> ScenarioError {
        ScenarioError::OutOfMemory
    }
}

fn begun(alloc: Global, version: u8) -> Reading
    ensures { result ≡ begun version }
{
    Reading::Outside(Draft {
        version,
        nodes: 0,
        groups: Sequence::new(alloc),
        policy: false,
        clients: Sequence::new(alloc),
        lines: Sequence::new(alloc),
        orders: 0,
    })
}

fn are_two(words: &[&[u8]], one: &[u8], other: &[u8]) -> bool
    ensures { result ≡ are_two (map (λ word. word.now) words.now) one.now other.now }
{
    words.len() == 2 && is_text(nth(words, 0), one) && is_text(nth(words, 1), other)
}

fn header_read(alloc: Global, words: &[&[u8]]) -> Result<Reading, Reason>
    ensures { result ≡ header_read (map (λ word. word.now) words.now) }
{
    if are_two(words, b"scatter", b"1") {
        Ok(begun(alloc, 1))
    } else if are_two(words, b"scatter", b"2") {
        Ok(begun(alloc, 2))
    } else {
        Err(Reason::MissingHeader)
    }
}

// Returns what a line of a kind says. `in_place` is whether it may stand here.
fn said(alloc: Global, in_place: bool, kind: Kind, words: &[&[u8]]) -> Result<Statement, LineError>
    ensures { IsSaid (said in_place kind (map (λ word. word.now) words.now)) result }
{
    if !in_place {
        return Err(LineError::Bad(Reason::OutOfPlace));
    }
    if !has_count(kind, words.len()) {
        return Err(LineError::Bad(Reason::WrongCount));
    }
    statement_in(alloc, kind, words)
}

fn read_outside(alloc: Global, draft: Draft, words: &[&[u8]]) -> Result<Reading, LineError>
    ensures { IsSaid (words_read (Outside draft) (map (λ word. word.now) words.now)) result }
{
    let kind = kind_of(draft.version, words).ok_or(Reason::UnknownWord)?;
    let statement = said(alloc, may_stand(&draft, kind), kind, words)?;
    taken_outside(alloc, draft, statement)
}

fn read_within(
    alloc: Global,
    draft: Draft,
    asks: Asks,
    words: &[&[u8]],
) -> Result<Reading, LineError>
    ensures { IsSaid (words_read (Within draft asks) (map (λ word. word.now) words.now)) result }
{
    let kind = kind_of(draft.version, words).ok_or(Reason::UnknownWord)?;
    let statement = said(alloc, is_inner(kind), kind, words)?;
    taken_within(draft, asks, statement)
}

fn words_read(alloc: Global, reading: Reading, words: &[&[u8]]) -> Result<Reading, LineError>
    ensures { IsSaid (words_read reading (map (λ word. word.now) words.now)) result }
{
    match reading {
        Reading::Fresh => Ok(header_read(alloc, words)?),
        Reading::Outside(draft) => read_outside(alloc, draft, words),
        Reading::Within(draft, asks) => read_within(alloc, draft, asks, words),
    }
}

fn is_fresh(reading: &Reading) -> bool
    ensures { result ≡ is_fresh reading.now }
{
    match reading {
        Reading::Fresh => true,
        Reading::Outside(_) | Reading::Within(_, _) => false,
    }
}

// Returns the state of the parser after one more line.
fn line_read(alloc: Global, reading: Reading, line: &[u8]) -> Result<Reading, LineError>
    ensures { IsSaid (line_read reading line.now) result }
{
    let words = words_of(alloc, line)?;
    if !is_fresh(&reading) {
        if is_skipped(line, &words) {
            return Ok(reading);
        }
        if has_bad_byte(line) {
            return Err(LineError::Bad(Reason::BadByte));
        }
    }
    words_read(alloc, reading, &words)
}

fn bad(number: u32, reason: Reason) -> Result<Scenario, ScenarioError>
    ensures { result ≡ bad number reason }
{
    Err(ScenarioError::Bad {
        line: number,
        why: reason,
    })
}

fn scenario_by(alloc: Global, draft: Draft) -> Result<Scenario, sc_base::OutOfMemory>
    ensures { IfOk result (λ scenario. scenario ≡ scenario_by draft) }
{
    let groups = bases_of(alloc, draft.groups.as_slice())?;
    Ok(Scenario {
        nodes: draft.nodes,
        groups,
        policy: draft.policy,
        clients: draft.clients,
        lines: draft.lines,
        brief: false,
        version: draft.version,
    })
}

// Ends the parsing after the last line. `number` is that of the line that would follow.
fn reading_ended(alloc: Global, number: u32, reading: Reading) -> Result<Scenario, ScenarioError>
    ensures { HasVerdict (reading_ended number reading) result }
{
    let draft = match reading {
        Reading::Fresh => return bad(number, Reason::MissingHeader),
        Reading::Within(_, _) => return bad(number, Reason::UnendedClient),
        Reading::Outside(draft) => draft,
    };
    if draft.nodes == 0 || draft.groups.len() == 0 {
        return bad(number, Reason::MissingPart);
    }
    Ok(scenario_by(alloc, draft)?)
}

// Parses line by line, up to the first bad one.
fn lines_read(alloc: Global, is_long: bool, text: &[u8]) -> Result<Scenario, ScenarioError>
    ensures { HasVerdict (lines_read is_long 1 Fresh (lines_in is_long text.now)) result }
{
    let mut rest = text;
    let mut number = 1u32;
    let mut reading = Reading::Fresh;
    while !rest.is_empty() {
        if number > LINE_LIMIT {
            return bad(number, Reason::TooLarge);
        }
        let Some((line, behind)) = next_line(is_long, rest) else {
            return bad(number, Reason::TooLarge);
        };
        match line_read(alloc, reading, trimmed(line)) {
            Ok(more) => reading = more,
            Err(LineError::Bad(reason)) => return bad(number, reason),
            Err(LineError::OutOfMemory) => return Err(ScenarioError::OutOfMemory),
        }
        rest = behind;
        number += 1;
    }
    if is_long {
        return bad(number, Reason::TooLarge);
    }
    reading_ended(alloc, number, reading)
}

fn is_too_long(text: &[u8]) -> bool
    ensures { result ≡ is_too_long text.now }
{
    text.len() as u64 > INPUT_LIMIT
}

/// Parses a text, and returns its scenario. `Bad` is returned exactly where the text is no
/// scenario, with its first bad line and the lowest reason why that line is bad. The grammar is
/// described in docs/SCENARIOS.md.
#[tactic(auto, using(crate::proofs::ScenarioProofs::Verdicts::verdict_all, crate::proofs::ScenarioProofs::Verdicts::verdict_cut))]
pub fn read_scenario(alloc: Global, text: &[u8]) -> Result<Scenario, ScenarioError>
    ensures { HasVerdict (verdict_of text.now) result }
{
    if is_too_long(text) {
        return lines_read(alloc, true, &text[..INPUT_LIMIT as usize]);
    }
    lines_read(alloc, false, text)
}

/// States that every scenario that the parser accepts or `make` generates is within these bounds:
/// it has 1 to 32 nodes, one to sixteen groups of some of them in the order in which they begin,
/// clients in the order of their numbers with at most 1,000 requests, and a schedule of lines that
/// name these.
pub fn valid_scenarios_are_bounded()
    ensures { ValidScenariosAreBounded }
{}

/// States that the parser's result for a text is determined by its first bytes, one more than the
/// most that a text may have.
pub fn first_bytes_decide()
    ensures { FirstBytesDecide }
{}
