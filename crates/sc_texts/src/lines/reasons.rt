//! The reasons why a line is bad.
ghost use Rattle.std.specs.Prelude.{◌≡◌};
ghost use Rattle.sc_texts.specs.lines.Reasons.{reason_code, reason_text};
ghost use Rattle.sc_texts.specs.declared.lines.reasons.LineError.TheVariants.{Bad, OutOfMemory};

use sc_base;
use std::alloc::AllocError;

/// The reason why a line is bad. If several hold of a line, the one with the lowest number counts.
/// They are listed in docs/SCENARIOS.md.
#[derive(Clone, Copy, Debug, PartialEq, Eq)]
pub enum Reason {
    /// Line 1 is neither `scatter 1` nor `scatter 2`, or there is no line.
    MissingHeader,
    /// The line has a byte outside 32 to 126 that is no tab.
    BadByte,
    /// The first word, or an order's third word, is none of the grammar's.
    UnknownWord,
    /// A line of this kind may not stand here.
    OutOfPlace,
    /// The line has too many or too few words.
    WrongCount,
    /// A number, a group's name or an actor is not spelled as it should be, or is out of its
    /// range.
    BadNumber,
    /// The key is too long, or has a byte that no key may have.
    BadKey,
    /// The value is too long, or has a byte that no value may have.
    BadValue,
    /// The line names a node above the number of nodes, or a client without a section.
    UnknownName,
    /// The line begins a client's second section, or names a node twice in a group.
    Repeated,
    /// A group does not begin above the group of the line before.
    BadBoundary,
    /// There is a group, a member or a request too many.
    TooMany,
    /// The text ends inside a section.
    UnendedClient,
    /// The text ends without the number of nodes or without a group.
    MissingPart,
    /// The line is that with the byte after the last allowed one, or the line after the last
    /// allowed one.
    TooLarge,
    /// The file of a stored journal has no line `journal`.
    MissingJournal,
    /// A line of a stored journal that should be the text of a row is none.
    BadRow,
    /// The file of a stored journal has too many bytes.
    FileTooLarge,
}

impl Reason {
    /// Returns the number of the reason, 1 to 18. Numbers up to 15 are reasons of scenarios; the
    /// others are reasons of files of stored journals.
    pub fn code(self) -> u8
        ensures { result ≡ reason_code self }
    {
        match self {
            Reason::MissingHeader => 1,
            Reason::BadByte => 2,
            Reason::UnknownWord => 3,
            Reason::OutOfPlace => 4,
            Reason::WrongCount => 5,
            Reason::BadNumber => 6,
            Reason::BadKey => 7,
            Reason::BadValue => 8,
            Reason::UnknownName => 9,
            Reason::Repeated => 10,
            Reason::BadBoundary => 11,
            Reason::TooMany => 12,
            Reason::UnendedClient => 13,
            Reason::MissingPart => 14,
            Reason::TooLarge => 15,
            Reason::MissingJournal => 16,
            Reason::BadRow => 17,
            Reason::FileTooLarge => 18,
        }
    }

    /// Returns the printed text of the reason.
    pub fn text(self) -> &'static [u8]
        ensures { result.now ≡ reason_text self }
    {
        match self {
            Reason::MissingHeader => b"missing header",
            Reason::BadByte => b"bad byte",
            Reason::UnknownWord => b"unknown word",
            Reason::OutOfPlace => b"out of place",
            Reason::WrongCount => b"wrong count",
            Reason::BadNumber => b"bad number",
            Reason::BadKey => b"bad key",
            Reason::BadValue => b"bad value",
            Reason::UnknownName => b"unknown name",
            Reason::Repeated => b"repeated",
            Reason::BadBoundary => b"bad boundary",
            Reason::TooMany => b"too many",
            Reason::UnendedClient => b"unended client",
            Reason::MissingPart => b"missing part",
            Reason::TooLarge => b"too large",
            Reason::MissingJournal => b"missing journal",
            Reason::BadRow => b"bad row",
            Reason::FileTooLarge => b"file too large",
        }
    }
}

/// The error of a line from which nothing was read.
#[derive(Clone, Copy)]
pub enum LineError {
    /// The line is bad, for this reason.
    Bad(Reason),
    /// There was no memory left.
    OutOfMemory,
}

impl From<Reason> for LineError {
    ghost from_gives = { λ reason e. e ≡ Bad reason };

    fn from(reason: Reason) -> LineError {
        LineError::Bad(reason)
    }
}

impl From<sc_base::OutOfMemory> for LineError {
    ghost from_gives = { λ _ e. e ≡ OutOfMemory };

    fn from(_e: sc_base::OutOfMemory) -> LineError {
        LineError::OutOfMemory
    }
}

impl From<AllocError> for LineError {
    ghost from_gives = { λ _ e. e ≡ OutOfMemory };

    fn from(_e: AllocError) -> LineError {
        LineError::OutOfMemory
    }
}
