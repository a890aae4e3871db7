//! Why an input is not what was asked for.
ghost use Rattle.std.specs.Prelude.{◌≡◌, IfOk};
ghost use Rattle.sc_cli.specs.Errors.{error_text, of_read, of_scenario};

use sc_scenario::ScenarioError;
use sc_texts::{ReadError, Reason};
use std::alloc::Global;

/// Why an input is not what was asked for.
#[derive(Clone, Copy, Debug, PartialEq, Eq)]
pub enum InputError {
    /// A read error came.
    Failed,
    /// The first bad line of the input, and the reason.
    Bad { line: u32, why: Reason },
    OutOfMemory,
}

impl From<ReadError> for InputError {
    ghost from_gives = { λ error e. e ≡ of_read error };

    fn from(error: ReadError) -> InputError {
        match error {
            ReadError::Failed => InputError::Failed,
            ReadError::OutOfMemory => InputError::OutOfMemory,
        }
    }
}

impl From<ScenarioError> for InputError {
    ghost from_gives = { λ error e. e ≡ of_scenario error };

    fn from(error: ScenarioError) -> InputError {
        match error {
            ScenarioError::Bad { line, why } => InputError::Bad { line, why },
            ScenarioError::OutOfMemory => InputError::OutOfMemory,
        }
    }
}

/// Returns the text about a bad line: `line L: REASON`.
pub fn error_text(alloc: Global, line: u32, why: Reason) -> Result<Vec<u8>, sc_base::OutOfMemory>
    ensures { IfOk result (λ text. text.items ≡ error_text line why) }
{
    let head = format!(in alloc; "line {line}: ")?;
    let mut text = Vec::from_slice(alloc, head.as_bytes())?;
    text.extend_from_slice(why.text())?;
    Ok(text)
}
