//! What each process may do next.
ghost use Rattle.std.specs.Prelude.{◌≡◌};
ghost use Rattle.sc_history.specs.Histories.{is_conditional};
ghost use Rattle.sc_history.specs.Turns.{turn_after, turn_error, begin_error, end_error, is_lost, is_no};

use crate::events::{Act, End};
use crate::reasons::HistoryReason;
use sc_base::Op;

/// What a process did last, as far as it says what it may do next.
#[derive(Clone, Copy)]
pub(crate) enum Turn {
    /// A request is under way.
    Waits { conditional: bool },
    /// Its last request has ended.
    Rests,
    /// It was told `lost`.
    Gone,
}

// Returns whether an operation writes only under a condition.
fn is_conditional(op: &Op) -> bool
    ensures { result ≡ is_conditional op.now }
{
    match op {
        Op::Get { .. } | Op::Put { .. } | Op::Del { .. } => false,
        Op::Add { .. } | Op::Cas { .. } => true,
    }
}

// Returns whether a process is told `lost`.
fn is_lost(end: &End) -> bool
    ensures { result ≡ is_lost end.now }
{
    match end {
        End::Absent | End::Value(_) | End::Done | End::No | End::Fail => false,
        End::Lost => true,
    }
}

// Returns whether a process is told `no`.
fn is_no(end: &End) -> bool
    ensures { result ≡ is_no end.now }
{
    match end {
        End::Absent | End::Value(_) | End::Done | End::Fail | End::Lost => false,
        End::No => true,
    }
}

/// Returns what a process may do next after an act.
pub(crate) fn turn_after(act: &Act) -> Turn
    ensures { result ≡ turn_after act.now }
{
    match act {
        Act::Begin(op) => Turn::Waits {
            conditional: is_conditional(op),
        },
        Act::End(end) if is_lost(end) => Turn::Gone,
        Act::End(_) => Turn::Rests,
    }
}

fn end_error(turn: Option<Turn>, end: &End) -> Option<HistoryReason>
    ensures { result ≡ end_error turn end.now }
{
    match turn {
        None | Some(Turn::Rests) => Some(HistoryReason::HasNone),
        Some(Turn::Gone) => Some(HistoryReason::IsLost),
        Some(Turn::Waits { conditional }) if is_no(end) && !conditional => {
            Some(HistoryReason::UnknownLine)
        }
        Some(Turn::Waits { .. }) => None,
    }
}

/// Returns why a process may not act so, if so.
pub(crate) fn turn_error(turn: Option<Turn>, act: &Act) -> Option<HistoryReason>
    ensures { result ≡ turn_error turn act.now }
{
    match act {
        Act::Begin(_) => match turn {
            None | Some(Turn::Rests) => None,
            Some(Turn::Waits { .. }) => Some(HistoryReason::HasRequest),
            Some(Turn::Gone) => Some(HistoryReason::IsLost),
        },
        Act::End(end) => end_error(turn, end),
    }
}
