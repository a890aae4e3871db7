//! What the entries of all logs make of all groups: their states, the ring, the transactions and
//! the history. The entries are taken in the order of the rows that decide them. Definitions and a
//! law; no code that runs.
ghost use Rattle.sc_meaning.specs.entries.Laws.{BirthsAreChildren};

use sc_base::{Draw, RingArc};
use sc_words::{Body, Command, Outcome};

/// An entry of one group's log, as it stands in the list of the entries of all logs.
#[derive(Drop)]
pub struct LogEntry {
    /// The group whose log has the entry.
    pub group: Draw,
    /// The entry's place in that log, from 1.
    pub slot: u32,
    /// The command that the group executes at this slot.
    pub command: Command,
}

/// Where a split divides a group's arc, and the name of the new group.
#[derive(Clone, Copy)]
pub struct Division {
    /// The first position that the new group keeps.
    pub at: u32,
    /// The name of the new group.
    pub child: Draw,
}

/// A transaction between groups, as its coordinator's log records it (Scatter, SOSP 2011,
/// multi-group operations).
#[derive(Drop)]
pub struct Transaction {
    /// The transaction's name.
    pub tx: Draw,
    /// The group that coordinates it: its log has the Begin, or the Split that locks the group
    /// before it divides.
    pub coordinator: Draw,
    /// What the transaction does: merge, move a boundary, hand a member over, or split.
    pub body: Body,
    /// The group that is asked to take part: the coordinator's successor when the transaction
    /// begins. `None` for a split.
    pub participant: Option<Draw>,
    /// The group that gets another predecessor: for a split the coordinator's successor, for a
    /// merge the successor that the participant's recorded Yes names. `None` while no such group is
    /// known.
    pub watcher: Option<Draw>,
    /// The outcome that the coordinator has decided. `None` while the transaction is open.
    pub outcome: Option<Outcome>,
}

/// A range of the ring: an arc and the group that has it.
#[derive(Clone, Copy)]
pub struct Cut {
    /// The positions of the range.
    pub arc: RingArc,
    /// The group that has the range.
    pub group: Draw,
}

/// Shows that the child that the machine's table makes for a command is the group that the entry's
/// effect creates.
pub fn births_are_children()
    ensures { BirthsAreChildren }
{}

#[cfg(test)]
mod tests {
    use super::*;

    #[test]
    fn the_law_of_births_is_called() {
        births_are_children();
    }
}
