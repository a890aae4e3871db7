//! The plan of a merge.
ghost use Rattle.std.specs.Prelude.{◌≡◌, ◌<◌, ◌^◌, IfOk, true};
ghost use Rattle.sc_base.specs.Union.{united};
ghost use Rattle.sc_group_table.specs.machine.Plans.{can_merge, merged_succ, merged_core};

use sc_base::{Dup, Members, OutOfMemory, same_draw};
use sc_words::{Core, Frozen, Link};
use std::alloc::Global;

/// Returns whether a group with this record can take over its successor, whose frozen record is
/// given: their arcs meet and are not longer than the ring, and together they have at most nine
/// members.
pub fn can_merge(core: &Core, frozen: &Frozen) -> bool
    ensures { result ≡ can_merge core.now frozen.now }
{
    core.arc.join(&frozen.arc).is_ok() && core.members.count_with(&frozen.members) <= 9
}

/// Returns the record of the group after it has taken over its successor: it has both arcs as one
/// and the members of both, and its successor is the other's; where the two make the ring, it is
/// its own successor. The caller has asked `can_merge` whether it can. Pairs and client table are
/// not in the record, and are no part of the plan.
pub fn plan_merge(alloc: Global, core: &Core, frozen: &Frozen) -> Result<Core, OutOfMemory>
    requires { can_merge core.now frozen.now ≡ true }
    ensures { IfOk result (λ after. after ≡ merged_core core.now frozen.now) }
{
    let Ok(arc) = core.arc.join(&frozen.arc) else {
        unreachable!();
    };
    let members = core.members.union(&frozen.members);
    let succ = succ_of(core, frozen, members);
    let mut after = core.dup(alloc)?;
    after.arc = arc;
    after.members = members;
    after.succ = succ;
    Ok(after)
}

/// Returns the successor after the merge: the successor's successor, or the group itself with all
/// members.
fn succ_of(core: &Core, frozen: &Frozen, members: Members) -> Link
    requires { members ≡ united core.now.members frozen.now.members }
    ensures { result ≡ merged_succ core.now frozen.now }
{
    if same_draw(frozen.succ.group, core.id) {
        return Link {
            group: core.id,
            members,
        };
    }
    frozen.succ
}
