//! The kinds of lines of a history, and what they say.
ghost use Rattle.std.specs.Prelude.{◌≡◌, map};
ghost use Rattle.sc_history.specs.Kinds.{kind_of, word_count, key_at, value_at, act_in, statement_in};
ghost use Rattle.sc_history.specs.Reasons.{IsSaid};
ghost use Rattle.sc_history.specs.declared.kinds.LineKind.TheVariants.{Put, Add, Cas};

use crate::events::{Act, End};
use crate::reasons::{HistoryReason, LineError};
use sc_base::{Key, KeyError, Op, Value};
use sc_texts::{count_in, is_text, nth};
use std::alloc::Global;

/// The greatest number of a process.
const LAST_PROCESS: u32 = 4_294_967_295;

/// The kind of a line of a history, which its second word gives: which request begins, or how one
/// ends.
#[derive(Clone, Copy)]
pub(crate) enum LineKind {
    Get,
    Put,
    Del,
    Add,
    Cas,
    Absent,
    Value,
    Done,
    No,
    Fail,
    Lost,
}

// Returns the kind of a line with this second word, if there is one.
fn kind_of(word: &[u8]) -> Option<LineKind>
    ensures { result ≡ kind_of word.now }
{
    if is_text(word, b"get") {
        Some(LineKind::Get)
    } else if is_text(word, b"put") {
        Some(LineKind::Put)
    } else if is_text(word, b"del") {
        Some(LineKind::Del)
    } else if is_text(word, b"add") {
        Some(LineKind::Add)
    } else if is_text(word, b"cas") {
        Some(LineKind::Cas)
    } else if is_text(word, b"none") {
        Some(LineKind::Absent)
    } else if is_text(word, b"value") {
        Some(LineKind::Value)
    } else if is_text(word, b"ok") {
        Some(LineKind::Done)
    } else if is_text(word, b"no") {
        Some(LineKind::No)
    } else if is_text(word, b"fail") {
        Some(LineKind::Fail)
    } else if is_text(word, b"lost") {
        Some(LineKind::Lost)
    } else {
        None
    }
}

// Returns the number of words of a line of this kind.
fn word_count(kind: LineKind) -> usize
    ensures { result ≡ word_count kind }
{
    match kind {
        LineKind::Absent | LineKind::Done | LineKind::No | LineKind::Fail | LineKind::Lost => 2,
        LineKind::Get | LineKind::Del | LineKind::Value => 3,
        LineKind::Put | LineKind::Add => 4,
        LineKind::Cas => 5,
    }
}

// Returns the key that a word of a line spells. The error is `BadKey` where it spells none.
fn key_at(alloc: Global, words: &[&[u8]], place: usize) -> Result<Key, LineError>
    ensures { IsSaid (key_at (map (λ word. word.now) words.now) place) result }
{
    match Key::try_new(alloc, nth(words, place)) {
        Ok(key) => Ok(key),
        Err(KeyError::OutOfMemory) => Err(LineError::OutOfMemory),
        Err(KeyError::Empty | KeyError::TooLong { .. } | KeyError::BadByte { .. }) => {
            Err(LineError::Bad(HistoryReason::BadKey))
        }
    }
}

// Returns the value that a word of a line spells. The error is `BadValue` where it spells none.
fn value_at(alloc: Global, words: &[&[u8]], place: usize) -> Result<Value, LineError>
    ensures { IsSaid (value_at (map (λ word. word.now) words.now) place) result }
{
    match Value::try_new(alloc, nth(words, place)) {
        Ok(value) => Ok(value),
        Err(KeyError::OutOfMemory) => Err(LineError::OutOfMemory),
        Err(KeyError::Empty | KeyError::TooLong { .. } | KeyError::BadByte { .. }) => {
            Err(LineError::Bad(HistoryReason::BadValue))
        }
    }
}

fn put_in(alloc: Global, words: &[&[u8]]) -> Result<Act, LineError>
    ensures { IsSaid (act_in Put (map (λ word. word.now) words.now)) result }
{
    let key = key_at(alloc, words, 2)?;
    let value = value_at(alloc, words, 3)?;
    Ok(Act::Begin(Op::Put { key, value }))
}

fn add_in(alloc: Global, words: &[&[u8]]) -> Result<Act, LineError>
    ensures { IsSaid (act_in Add (map (λ word. word.now) words.now)) result }
{
    let key = key_at(alloc, words, 2)?;
    let value = value_at(alloc, words, 3)?;
    Ok(Act::Begin(Op::Add { key, value }))
}

fn cas_in(alloc: Global, words: &[&[u8]]) -> Result<Act, LineError>
    ensures { IsSaid (act_in Cas (map (λ word. word.now) words.now)) result }
{
    let key = key_at(alloc, words, 2)?;
    let expect = value_at(alloc, words, 3)?;
    let value = value_at(alloc, words, 4)?;
    Ok(Act::Begin(Op::Cas { key, expect, value }))
}

// Returns the act that a line of this kind spells.
fn act_in(alloc: Global, kind: LineKind, words: &[&[u8]]) -> Result<Act, LineError>
    ensures { IsSaid (act_in kind (map (λ word. word.now) words.now)) result }
{
    match kind {
        LineKind::Get => Ok(Act::Begin(Op::Get {
            key: key_at(alloc, words, 2)?,
        })),
        LineKind::Put => put_in(alloc, words),
        LineKind::Del => Ok(Act::Begin(Op::Del {
            key: key_at(alloc, words, 2)?,
        })),
        LineKind::Add => add_in(alloc, words),
        LineKind::Cas => cas_in(alloc, words),
        LineKind::Absent => Ok(Act::End(End::Absent)),
        LineKind::Value => Ok(Act::End(End::Value(value_at(alloc, words, 2)?))),
        LineKind::Done => Ok(Act::End(End::Done)),
        LineKind::No => Ok(Act::End(End::No)),
        LineKind::Fail => Ok(Act::End(End::Fail)),
        LineKind::Lost => Ok(Act::End(End::Lost)),
    }
}

/// Returns the process and the act that a line with these words spells.
pub(crate) fn statement_in(alloc: Global, words: &[&[u8]]) -> Result<(u32, Act), LineError>
    ensures { IsSaid (statement_in (map (λ word. word.now) words.now)) result }
{
    let kind = kind_of(nth(words, 1)).ok_or(HistoryReason::UnknownLine)?;
    if words.len() != word_count(kind) {
        return Err(LineError::Bad(HistoryReason::UnknownLine));
    }
    let process = count_in(nth(words, 0), LAST_PROCESS).ok_or(HistoryReason::BadNumber)?;
    let act = act_in(alloc, kind, words)?;
    Ok((process, act))
}
