//! The reasons why a text is no history.
ghost use Rattle.std.specs.Prelude.{◌≡◌};
ghost use Rattle.sc_history.specs.Reasons.{reason_text};
ghost use Rattle.sc_history.specs.declared.reasons.LineError.TheVariants.{Bad, OutOfMemory};

use sc_base;
use std::alloc::{AllocError, AllocFailed};

/// The reason why a line of a history is bad. If several hold of a line, the first of them counts.
/// They are listed in docs/HISTORIES.md.
#[derive(Clone, Copy, Debug, PartialEq, Eq)]
pub enum HistoryReason {
    /// Line 1 is not `scatter history 1`, or there is no line.
    MissingHeader,
    /// The line is none of the grammar's, or says `no` of a request that is no conditional write.
    UnknownLine,
    /// The process is no number from 1 to 4294967295, or not spelled as it should be.
    BadNumber,
    /// The key is too long, or has a byte that no key may have.
    BadKey,
    /// The value is too long, or has a byte that no value may have.
    BadValue,
    /// The process asks, but a request of it is under way.
    HasRequest,
    /// The process is answered, but no request of it is under way.
    HasNone,
    /// The process does something after it was told `lost`.
    IsLost,
    /// The text has too many bytes.
    TooLarge,
}

impl HistoryReason {
    /// Returns the printed text of the reason.
    pub fn text(self) -> &'static [u8]
        ensures { result.now ≡ reason_text self }
    {
        match self {
            HistoryReason::MissingHeader => b"not a history",
            HistoryReason::UnknownLine => b"not a line of a history",
            HistoryReason::BadNumber => b"bad number",
            HistoryReason::BadKey => b"bad key",
            HistoryReason::BadValue => b"bad value",
            HistoryReason::HasRequest => b"process has a request",
            HistoryReason::HasNone => b"process has no request",
            HistoryReason::IsLost => b"process is lost",
            HistoryReason::TooLarge => b"file too large",
        }
    }
}

/// The error of a text that is no history.
#[derive(Clone, Copy, Debug, PartialEq, Eq)]
pub enum HistoryError {
    /// The first bad line, counted from 1, and the reason why it is bad. A text with too many
    /// bytes is bad at line 0.
    Bad { line: u64, why: HistoryReason },
    /// There was no memory left.
    OutOfMemory,
}

/// The error of a line from which nothing was read.
#[derive(Clone, Copy)]
pub(crate) enum LineError {
    /// The line is bad, for this reason.
    Bad(HistoryReason),
    /// There was no memory left.
    OutOfMemory,
}

impl From<HistoryReason> for LineError {
    ghost from_gives = { λ reason e. e ≡ Bad reason };

    fn from(reason: HistoryReason) -> LineError {
        LineError::Bad(reason)
    }
}

impl From<sc_base::OutOfMemory> for LineError {
    ghost from_gives = { λ _ e. e ≡ OutOfMemory };

    fn from(_e: sc_base::OutOfMemory) -> LineError {
        LineError::OutOfMemory
    }
}

impl From<AllocError> for LineError {
    ghost from_gives = { λ _ e. e ≡ OutOfMemory };

    fn from(_e: AllocError) -> LineError {
        LineError::OutOfMemory
    }
}

impl<T: Drop> From<AllocFailed<T>> for LineError {
    ghost from_gives = { λ _ e. e ≡ OutOfMemory };

    fn from(_e: AllocFailed<T>) -> LineError {
        LineError::OutOfMemory
    }
}
