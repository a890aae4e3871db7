//! The parser: line by line, up to the first bad line.
ghost use Rattle.std.specs.Prelude.{◌≡◌, ◌≤◌, ◌+◌, ◌<◌, ◌^◌, [], false, length, map, IfOk, OnOk, MatchResult};
ghost use Rattle.std.specs.Option.{option_map};
ghost use Rattle.sc_texts.specs.lines.Lines.{lines_in};
ghost use Rattle.sc_texts.specs.lines.Words.{words_of};
ghost use Rattle.sc_history.specs.Grammar.{HasVerdict, TextsAreHistories, FirstBytesDecide, bad, is_header, line_read, lines_read, with_event, history_of, text_read};
ghost use Rattle.sc_history.specs.Histories.{IsHistory, last_act};
ghost use Rattle.sc_history.specs.Reasons.{HasReason};
ghost use Rattle.sc_history.specs.Turns.{AreTurns, turn_after};

use crate::events::{Event, Events};
use crate::kinds::statement_in;
use crate::reasons::{HistoryError, HistoryReason, LineError};
use crate::turns::{Turn, turn_after, turn_error};
use sc_base::Sequence;
use sc_texts::{is_skipped, is_text, next_line, nth, trimmed, words_of};
use std::alloc::{AllocError, Global};
use std::collections::HashMap;

/// The most bytes that a text may have.
pub const HISTORY_LIMIT: u64 = 268_435_456;

/// What was read so far: the events, and what each of their processes may do next.
#[derive(Drop)]
struct Draft {
    events: Events,
    turns: HashMap<u32, Turn>,
}

fn turn_of(draft: &Draft, process: u32) -> Option<Turn>
    requires { AreTurns draft.now.turns draft.now.events }
    ensures { result ≡ option_map turn_after (last_act process draft.now.events) }
{
    draft.turns.get(&process).copied()
}

// Appends an event, if it is in the turn of its process.
fn add(draft: &mut Draft, event: Event) -> Result<(), LineError>
    requires { AreTurns draft.old.turns draft.old.events }
    ensures read { MatchResult result
        (λ _. with_event draft.old.events event ≡ Ok draft.new.events)
        (λ error. HasReason (with_event draft.old.events event) error) }
    ensures turns { OnOk result (AreTurns draft.new.turns draft.new.events) }
{
    let turn = turn_of(draft, event.process);
    if let Some(reason) = turn_error(turn, &event.act) {
        return Err(LineError::Bad(reason));
    }
    draft.turns.insert(event.process, turn_after(&event.act))?;
    draft.events.push(event)?;
    Ok(())
}

// Reads one more line.
fn read_line(alloc: Global, draft: &mut Draft, number: u64, line: &[u8]) -> Result<(), LineError>
    requires { AreTurns draft.old.turns draft.old.events }
    ensures read { MatchResult result
        (λ _. line_read draft.old.events number line.now ≡ Ok draft.new.events)
        (λ error. HasReason (line_read draft.old.events number line.now) error) }
    ensures turns { OnOk result (AreTurns draft.new.turns draft.new.events) }
{
    let words = words_of(alloc, line)?;
    if is_skipped(line, &words) {
        return Ok(());
    }
    let (process, act) = statement_in(alloc, &words)?;
    add(
        draft,
        Event {
            line: number,
            process,
            act,
        },
    )
}

// Reads the lines behind the header, up to the first bad one.
fn read_lines(alloc: Global, text: &[u8]) -> Result<Events, HistoryError>
    requires { length text.now < 2 ^ 32 }
    ensures { HasVerdict (lines_read [] 2 (lines_in false text.now)) result }
{
    let mut rest = text;
    let mut number = 2u64;
    let mut draft = Draft {
        events: Sequence::new(alloc),
        turns: HashMap::new(alloc),
    };
    while !rest.is_empty() {
        let Some((line, behind)) = next_line(false, rest) else {
            unreachable!()
        };
        match read_line(alloc, &mut draft, number, trimmed(line)) {
            Ok(()) => {}
            Err(LineError::Bad(why)) => return Err(HistoryError::Bad { line: number, why }),
            Err(LineError::OutOfMemory) => return Err(HistoryError::OutOfMemory),
        }
        rest = behind;
        number += 1;
    }
    Ok(draft.events)
}

// Returns whether a line is the header.
fn is_header(alloc: Global, line: &[u8]) -> Result<bool, AllocError>
    ensures { IfOk result (λ is. is ≡ is_header (words_of line.now)) }
{
    let words = words_of(alloc, line)?;
    Ok(
        words.len() == 3
            && is_text(nth(&words, 0), b"scatter")
            && is_text(nth(&words, 1), b"history")
            && is_text(nth(&words, 2), b"1"),
    )
}

fn missing_header() -> Result<Events, HistoryError>
    ensures { result ≡ bad 1 HistoryReason.MissingHeader }
{
    Err(HistoryError::Bad {
        line: 1,
        why: HistoryReason::MissingHeader,
    })
}

// Reads all lines, of which the first must be the header.
fn read_text(alloc: Global, text: &[u8]) -> Result<Events, HistoryError>
    requires { length text.now < 2 ^ 32 }
    ensures { HasVerdict (text_read (lines_in false text.now)) result }
{
    if text.is_empty() {
        return missing_header();
    }
    let Some((line, behind)) = next_line(false, text) else {
        unreachable!()
    };
    match is_header(alloc, trimmed(line)) {
        Ok(true) => read_lines(alloc, behind),
        Ok(false) => missing_header(),
        Err(AllocError) => Err(HistoryError::OutOfMemory),
    }
}

/// Parses a text, and returns the events of its history, each with its line. `Bad` is returned
/// exactly where the text is no history, with its first bad line and the first reason why that
/// line is bad; a text of more than `HISTORY_LIMIT` bytes is bad at line 0. The grammar is
/// described in docs/HISTORIES.md.
pub fn read_history(alloc: Global, text: &[u8]) -> Result<Events, HistoryError>
    ensures verdict { HasVerdict (history_of text.now) result }
    ensures history { IfOk result IsHistory }
{
    if text.len() as u64 > HISTORY_LIMIT {
        return Err(HistoryError::Bad {
            line: 0,
            why: HistoryReason::TooLarge,
        });
    }
    read_text(alloc, text)
}

/// States that the events of every text that the parser accepts are a history.
pub fn texts_are_histories()
    ensures { TextsAreHistories }
{}

/// States that the parser's result for a text is determined by its first bytes, one more than the
/// most that a text may have.
pub fn first_history_bytes_decide()
    ensures { FirstBytesDecide }
{}
