//! The plan of a moved boundary, for the coordinator.
ghost use Rattle.std.specs.Prelude.{◌≡◌, IfOk, Some, None, true, if◌then◌else◌};
ghost use Rattle.sc_group_table.specs.machine.Plans.{can_repart, kept_arc, moved_arc, repart_core};

use sc_base::{Dup, OutOfMemory, RingArc};
use sc_words::{Core, Frozen, Link};
use std::alloc::Global;

/// Returns whether the boundary between a group with this record and its successor, whose frozen
/// record is given, can move to `at`: a position inside one of the two arcs, where the arcs meet.
pub fn can_repart(core: &Core, at: u32, frozen: &Frozen) -> bool
    ensures { result ≡ can_repart core.now at frozen.now }
{
    arcs(core, at, frozen).is_some()
}

/// Returns the record of the group after the boundary has moved to `at`, and the arc that has
/// changed sides: the group gives what it has from `at` on, or takes what its successor has before
/// `at`. The caller has asked `can_repart` whether it can. Pairs and client table are not in the
/// record, and are no part of the plan.
pub fn plan_repart(
    alloc: Global,
    core: &Core,
    at: u32,
    frozen: &Frozen,
) -> Result<(Core, RingArc), OutOfMemory>
    requires { can_repart core.now at frozen.now ≡ true }
    ensures { IfOk result
        (λ plan. plan ≡ (repart_core core.now at frozen.now, moved_arc core.now at frozen.now)) }
{
    let Some((kept, moved)) = arcs(core, at, frozen) else {
        unreachable!();
    };
    let mut after = core.dup(alloc)?;
    after.arc = kept;
    after.succ = Link {
        group: core.succ.group,
        members: frozen.members,
    };
    Ok((after, moved))
}

// Returns the arc that the group has afterwards, and the one that changes sides, where the
// boundary can move.
fn arcs(core: &Core, at: u32, frozen: &Frozen) -> Option<(RingArc, RingArc)>
    ensures { result ≡ (if can_repart core.now at frozen.now
        then Some (kept_arc core.now at frozen.now, moved_arc core.now at frozen.now) else None) }
{
    if core.arc.holds(at) {
        return core.arc.cut(at).ok();
    }
    let (more, _rest) = frozen.arc.cut(at).ok()?;
    let kept = core.arc.join(&more).ok()?;
    Some((kept, more))
}
