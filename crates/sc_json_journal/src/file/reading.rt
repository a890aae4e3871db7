//! The parser of stored journals.
ghost use Rattle.std.specs.Prelude.{◌≡◌, ◌≤◌, ◌+◌, ◌<◌, ◌^◌, false, length, MatchOption, MatchResult, IfOk};
ghost use Rattle.sc_actor.specs.Mail.{mails};
ghost use Rattle.sc_texts.specs.lines.Lines.{lines_in};
ghost use Rattle.sc_scenario.specs.scenario.Valid.{IsValid};
ghost use Rattle.sc_json_journal.specs.file.Stored.{BeginsBadly, GoesOn, AreRows, IsRowError, IsFile, IsFileError};
ghost use Rattle.sc_json_journal.specs.file.Laws.{IsFileOfOne};

use crate::file::cuts::{cut, feed_at};
use crate::row::{RowError, read_row};
use sc_actor::{Journal, Row};
use sc_base::{OutOfMemory, Sequence};
use sc_json_text::row_texts_are_lines;
use sc_mail::Mail;
use sc_scenario::{Scenario, ScenarioError, read_scenario};
use sc_texts::{Reason, next_line};
use sc_words::OrderLine;
use std::alloc::Global;

/// The most bytes that a file may have.
pub const FILE_LIMIT: u64 = 268_435_456;

// Returns the number of lines of a file.
fn line_count(file: &[u8]) -> u32
    requires { length file.now < 2 ^ 31 }
    ensures lines { result ≡ length (lines_in false file.now) }
    ensures within { result ≤ length file.now }
{
    let mut rest = file;
    let mut lines = 0u32;
    while !rest.is_empty() {
        let Some((_, behind)) = next_line(false, rest) else {
            unreachable!();
        };
        rest = behind;
        lines += 1;
    }
    lines
}

// Returns the row whose line begins the bytes, and the bytes behind the line, or `None` where no
// row's line begins them.
fn next_row(
    alloc: Global,
    bytes: &[u8],
) -> Result<Option<(Row<Mail, OrderLine>, &[u8])>, OutOfMemory>
    requires { 0 < length bytes.now }
    ensures { IfOk result (λ next. MatchOption next (BeginsBadly bytes.now)
        (λ parts. GoesOn bytes.now parts.0 parts.1.now)) }
{
    row_texts_are_lines();
    let Some(at) = feed_at(bytes) else {
        return Ok(None);
    };
    match read_row(alloc, &bytes[..at]) {
        Ok(row) => Ok(Some((row, &bytes[at + 1..]))),
        Err(RowError::NoRow) => Ok(None),
        Err(RowError::OutOfMemory) => Err(OutOfMemory),
    }
}

// Reads the lines of rows, of which the first has the number `first`, up to the first bad one.
fn read_rows(
    alloc: Global,
    bytes: &[u8],
    first: u32,
) -> Result<Journal<Mail, OrderLine>, ScenarioError>
    requires { first + length bytes.now < 2 ^ 31 }
    ensures { MatchResult result (λ rows. AreRows bytes.now rows)
        (λ error. IsRowError bytes.now first error) }
{
    let mut rows = Sequence::new(alloc);
    let mut rest = bytes;
    let mut line = first;
    while !rest.is_empty() {
        let Some((row, more)) = next_row(alloc, rest)? else {
            return Err(ScenarioError::Bad {
                line,
                why: Reason::BadRow,
            });
        };
        rows.push(row)?;
        rest = more;
        line += 1;
    }
    Ok(rows)
}

/// Returns the scenario and the rows of a file. `Err(Bad)`: the file is none, with the bad line and
/// the reason. `Err(OutOfMemory)`: memory ran out.
///
/// The first of these causes counts. The file has more than `FILE_LIMIT` bytes: line 0,
/// `FileTooLarge`. None of the lines that a line feed ends is `journal`: the line after the last,
/// `MissingJournal`. The part before `journal` is no scenario: the line and the reason of
/// `read_scenario`. A line behind `journal` has no line feed, or is no row's text: the first such
/// line, `BadRow`.
pub fn read_file(
    alloc: Global,
    file: &[u8],
) -> Result<(Scenario, Journal<Mail, OrderLine>), ScenarioError>
    ensures file { MatchResult result (λ read. IsFile file.now read.0 read.1)
        (λ error. IsFileError file.now error) }
    ensures one { IfOk result (λ read. IsFileOfOne file.now read.0 read.1) }
    ensures valid { IfOk result (λ read. IsValid read.0) }
    ensures few_rows { IfOk result (λ read. length read.1 < 2 ^ 31) }
    ensures few_mails { IfOk result (λ read. length (mails read.1) < 2 ^ 31) }
{
    row_texts_are_lines();
    if file.len() as u64 > FILE_LIMIT {
        return Err(ScenarioError::Bad {
            line: 0,
            why: Reason::FileTooLarge,
        });
    }
    let Some(parts) = cut(file) else {
        return Err(ScenarioError::Bad {
            line: line_count(file) + 1,
            why: Reason::MissingJournal,
        });
    };
    let scenario = read_scenario(alloc, parts.scenario)?;
    let rows = read_rows(alloc, parts.rows, parts.lines + 2)?;
    Ok((scenario, rows))
}
