//! The plan of handing over a member, for both groups.
ghost use Rattle.std.specs.Prelude.{◌≡◌, ◌∷◌, [], IfOk, Some, None, true, nat_le, length, if◌then◌else◌};
ghost use Rattle.sc_base.specs.Roster.{is_member, without_member};
ghost use Rattle.sc_base.specs.Union.{united};
ghost use Rattle.sc_group_table.specs.machine.Plans.{can_migrate, migrated_core, succ_with};

use sc_base::{Dup, Members, OutOfMemory};
use sc_words::{Core, Frozen, Link};
use std::alloc::Global;

/// Returns whether the node can leave a group with this record for its successor, whose frozen
/// record is given: it is a member and not the only one, and the successor has at most nine
/// members with it.
pub fn can_migrate(core: &Core, node: u16, frozen: &Frozen) -> bool
    ensures { result ≡ can_migrate core.now node frozen.now }
{
    core.members.has(node)
        && core.members.len() >= 2
        && frozen.members.count_with(&Members::one(node)) <= 9
}

/// Returns the record of the group after the node has left it for its successor. The caller has
/// asked `can_migrate` whether it can.
pub fn plan_migrate(
    alloc: Global,
    core: &Core,
    node: u16,
    frozen: &Frozen,
) -> Result<Core, OutOfMemory>
    requires { can_migrate core.now node frozen.now ≡ true }
    ensures { IfOk result (λ after. after ≡ migrated_core core.now node frozen.now) }
{
    let members = without(&core.members, node);
    let mut after = core.dup(alloc)?;
    after.members = members;
    after.succ = Link {
        group: core.succ.group,
        members: frozen.members.union(&Members::one(node)),
    };
    Ok(after)
}

/// Returns the members of the successor with the node, which may be one of them, or `None` where
/// they would be ten.
pub fn welcomed_members(core: &Core, node: u16) -> Option<Members>
    ensures { result
        ≡ (if nat_le (length (united core.now.members (node ∷ []))) 9 then Some
        (united core.now.members (node ∷ [])) else None) }
{
    let comer = Members::one(node);
    if core.members.count_with(&comer) > 9 {
        return None;
    }
    Some(core.members.union(&comer))
}

fn without(members: &Members, node: u16) -> Members
    requires member { is_member members.now node ≡ true }
    requires two { nat_le 2 (length members.now) ≡ true }
    ensures { result ≡ without_member members.now node }
{
    let mut rest = *members;
    match rest.remove(node) {
        Ok(()) => rest,
        Err(_) => unreachable!(),
    }
}
