//! The answer of a check of one line of a schedule.

/// The answer of a check of one line: the rows go on after it, they end in it, or the next row is
/// not lawful.
#[derive(Clone, Copy, Debug, PartialEq, Eq)]
pub(crate) enum Checked {
    On,
    Ended,
    Wrong,
}
