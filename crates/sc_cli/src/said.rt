//! Which text is begun, and its status.
ghost use Rattle.std.specs.Prelude.{◌≡◌};
ghost use Rattle.sc_cli.specs.Causes.{said_by, status_of};

use sc_actor::Played;

/// Which text was begun.
#[derive(Clone, Copy)]
pub enum Said {
    Ended,
    Usage,
    BadScenario,
    ReadError,
    Unsettled,
    Filled,
    Lawful,
    Unlawful,
}

impl Said {
    /// Returns the status that the text belongs to.
    pub fn status(self) -> u8
        ensures { result ≡ status_of self }
    {
        match self {
            Said::Ended => 0,
            Said::Usage => 2,
            Said::BadScenario => 3,
            Said::ReadError => 4,
            Said::Unsettled => 6,
            Said::Filled => 7,
            Said::Lawful => 0,
            Said::Unlawful => 9,
        }
    }
}

/// Returns which text is begun about a scenario that was played so. None where the play ran out of
/// memory.
pub fn said_by(played: Played) -> Option<Said>
    ensures { result ≡ said_by played }
{
    match played {
        Played::Ended {
            unsettled: true,
            ..
        } => Some(Said::Unsettled),
        Played::Ended {
            unsettled: false,
            ..
        } => Some(Said::Ended),
        Played::Full => Some(Said::Filled),
        Played::OutOfMemory => None,
    }
}
