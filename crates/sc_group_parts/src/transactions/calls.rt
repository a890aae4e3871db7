//! Which locks hold requests back.
ghost use Rattle.std.specs.Prelude.{◌≡◌, ℕ, None};
ghost use Rattle.sc_base.specs.declared.ops.Op.{Op};
ghost use Rattle.sc_group_table.specs.machine.Group.{Group};
ghost use Rattle.sc_group_table.specs.machine.Machine.{called};
ghost use Rattle.sc_group_parts.specs.transactions.Calls.{called_under};

use sc_base::Draw;
use sc_words::Lock;

/// Returns the transaction for which a group with this lock holds requests back, or `None` where
/// it serves them, as a free group and a watcher do.
pub fn held_back_by(lock: &Lock) -> Option<Draw>
    ensures { (group : Group) (client seq : ℕ) (op : Op)
        → called None lock.now group client seq op ≡ called_under result group client seq op }
{
    match lock {
        Lock::Free => None,
        Lock::Watching { .. } => None,
        Lock::Promised { tx, .. } => Some(*tx),
        Lock::Coordinating { tx, .. } => Some(*tx),
    }
}
