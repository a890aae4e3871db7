//! Why a row is not appended.
ghost use Rattle.std.specs.Prelude.{◌≡◌};
ghost use Rattle.sc_thread_ledger.specs.declared.errors.PostError.TheVariants.{OutOfMemory as NoMemory};

use sc_actor::Row;
use sc_base::OutOfMemory;

/// Why a row was not appended to a journal.
#[derive(Debug, PartialEq, Eq, Drop)]
pub enum PostError {
    /// The counted bytes of the journal, `bytes`, and those of the row together pass the limit.
    JournalFull { bytes: u64 },
    /// There was no memory for the row.
    OutOfMemory,
}

impl From<OutOfMemory> for PostError {
    ghost from_gives = { λ _ error. error ≡ NoMemory };

    fn from(_error: OutOfMemory) -> PostError {
        PostError::OutOfMemory
    }
}

/// A row that was not appended, with the cause.
#[derive(Drop)]
pub struct Unkept<M: Drop, O: Drop> {
    /// The cause for which it was not appended.
    pub why: PostError,
    /// The row.
    pub row: Row<M, O>,
}
