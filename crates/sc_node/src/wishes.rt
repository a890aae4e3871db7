//! What a policy orders of a group at a tick.
ghost use Rattle.std.specs.Prelude.{◌≡◌, false, IfOk, OnOk, IsOk, Some};
ghost use Rattle.sc_node_table.specs.Policy.{is_at_rest, wished_line, with_line, names_with};

use crate::orders::put_unreported;
use sc_base::{Draws, OutOfMemory};
use sc_group_table::wished_order;
use sc_node_replica::Replica;
use sc_words::OrderLine;

/// Returns what a policy, if it is on, orders of a group that is at rest. Its orders have the
/// number 0.
fn wished_line(replica: &Replica, policy: bool) -> Result<Option<OrderLine>, OutOfMemory>
    ensures line { IfOk result (λ line. line ≡ wished_line policy replica.now) }
    ensures off { policy ≡ false → IsOk result }
    ensures busy { is_at_rest replica.now ≡ false → IsOk result }
{
    if !policy || !replica.is_at_rest() {
        return Ok(None);
    }
    let pairs = replica.machine().pairs()?;
    match wished_order(replica.machine().core(), &pairs) {
        Some(order) => Ok(Some(OrderLine { number: 0, order })),
        None => Ok(None),
    }
}

/// Queues what a policy wishes, if it is not refused; a refusal is not reported. A split or a
/// transaction takes a name of the node.
pub(crate) fn wish(
    replica: &mut Replica,
    policy: bool,
    draws: &mut Draws,
) -> Result<(), OutOfMemory>
    ensures row { OnOk result
        (replica.new ≡ with_line draws.old (wished_line policy replica.old) replica.old) }
    ensures off { policy ≡ false → IsOk result }
    ensures busy { is_at_rest replica.old ≡ false → IsOk result }
    ensures names { OnOk result
        (draws.new ≡ names_with draws.old (wished_line policy replica.old) replica.old) }
{
    match wished_line(replica, policy)? {
        Some(line) => put_unreported(replica, draws, &line),
        None => Ok(()),
    }
}
