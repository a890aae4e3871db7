//! How a coordinator records a decision.
ghost use Rattle.std.specs.Prelude.{◌≡◌, OnOk};
ghost use Rattle.std.specs.FinMap.{empty};
ghost use Rattle.sc_group_table.specs.machine.Transactions.{decided_group};

use sc_base::{Draw, OutOfMemory};
use sc_words::{Core, Lock, Outcome};

/// Records the decision, and frees the group, so that a vote that comes later finds no lock.
///
/// After `Err(OutOfMemory)` the contract says nothing of the record, so it may only be dropped.
pub fn note_decision(core: &mut Core, tx: Draw, outcome: Outcome) -> Result<(), OutOfMemory>
    ensures { OnOk result
        (core.new
        ≡ (decided_group
        (record { core = core.old; pairs = empty; clients = empty }) tx outcome).core) }
{
    core.decided.push((tx, outcome))?;
    core.lock = Lock::Free;
    Ok(())
}
