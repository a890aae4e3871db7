//! The history that an input is.
ghost use Rattle.std.specs.Prelude.{◌≡◌, ◌≤◌, ◌+◌, IfOk, MatchResult};
ghost use Rattle.sc_history.specs.Definitions.{most_history_bytes};
ghost use Rattle.sc_linear_answer.specs.Inputs.{HasHistoryError, ReadsHistory, error_text, of_history, of_read};

use sc_base;
use sc_history::{
    Events, HISTORY_LIMIT, HistoryError, HistoryReason, first_history_bytes_decide, read_history,
};
use sc_texts::{ReadError, Source, read_all};
use std::alloc::Global;

/// Why an input is no history.
#[derive(Clone, Copy, Debug, PartialEq, Eq)]
pub enum InputError {
    /// A read error came.
    Failed,
    /// The first bad line of the input, and the reason.
    Bad { line: u64, why: HistoryReason },
    OutOfMemory,
}

impl From<ReadError> for InputError {
    ghost from_gives = { λ error e. e ≡ of_read error };

    fn from(error: ReadError) -> InputError {
        match error {
            ReadError::Failed => InputError::Failed,
            ReadError::OutOfMemory => InputError::OutOfMemory,
        }
    }
}

impl From<HistoryError> for InputError {
    ghost from_gives = { λ error e. e ≡ of_history error };

    fn from(error: HistoryError) -> InputError {
        match error {
            HistoryError::Bad { line, why } => InputError::Bad { line, why },
            HistoryError::OutOfMemory => InputError::OutOfMemory,
        }
    }
}

/// Reads the history that an input is. Fails with the first bad line of the input and its reason,
/// at a read error, and where it runs out of memory.
pub fn history_in<S: Source>(alloc: Global, input: &mut S) -> Result<Events, InputError>
    ensures read { MatchResult result (λ events. ReadsHistory (S.left input.old) events)
        (λ error. HasHistoryError (record {
          left = S.left input.old;
          errors_before = S.errors input.old;
          errors_after = S.errors input.new;
        }) error) }
    ensures calls { S.calls input.new ≤ S.calls input.old + (most_history_bytes + 2) }
{
    let bytes = read_all(alloc, input, HISTORY_LIMIT)?;
    first_history_bytes_decide();
    Ok(read_history(alloc, &bytes)?)
}

/// Returns the text about a bad line: `line L: REASON`.
pub fn error_text(
    alloc: Global,
    line: u64,
    why: HistoryReason,
) -> Result<Vec<u8>, sc_base::OutOfMemory>
    ensures { IfOk result (λ text. text.items ≡ error_text line why) }
{
    let head = format!(in alloc; "line {line}: ")?;
    let mut text = Vec::from_slice(alloc, head.as_bytes())?;
    text.extend_from_slice(why.text())?;
    Ok(text)
}
