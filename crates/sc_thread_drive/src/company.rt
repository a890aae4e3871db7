//! A company: the network's port, the shells of all actors, and what the walk has counted.
ghost use Rattle.std.specs.Prelude.{◌≡◌};
ghost use Rattle.sc_thread_drive.specs.Rows.{row_made};

use sc_actor::Actor;
use sc_thread_ports::{Port, PostError};
use sc_thread_work::{Shell, Turn};

/// What the walk has counted.
#[derive(Drop)]
pub struct Score {
    /// The number of lines of one row that made none.
    pub skipped: u64,
    /// Whether a line of many deliveries ended with mail pending.
    pub unsettled: bool,
    /// The actors that have started by a `go` line.
    pub started: Vec<u32>,
}

/// All that a schedule is driven through.
#[derive(Drop)]
pub struct Company<A: Actor> {
    /// The network's port. The journal is what it has seen.
    pub net: Port<A::Mail, A::Order>,
    /// The shells of the actors, in the order of their births.
    pub shells: Vec<Shell<A>>,
    /// What the walk has counted in the lines so far.
    pub score: Score,
}

/// Returns whether a turn made a row, or why the schedule stops at it.
pub(crate) fn row_made(turn: Turn) -> Result<bool, PostError>
    ensures { result ≡ row_made turn }
{
    match turn {
        Turn::Did { .. } => Ok(true),
        Turn::Empty { .. } | Turn::Spent => Ok(false),
        Turn::Full { bytes } => Err(PostError::JournalFull { bytes }),
        Turn::OutOfMemory => Err(PostError::OutOfMemory),
    }
}
