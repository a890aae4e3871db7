//! The child groups that a step creates.
ghost use Rattle.std.specs.Prelude.{◌≡◌, ◌++◌, [], None, OnOk, IsOk};
ghost use Rattle.sc_group_table.specs.machine.Children.{child_by};
ghost use Rattle.sc_node_table.specs.Execute.{child_at, next_child};

use sc_base::{OutOfMemory, Sequence};
use sc_node_replica::Replica;
use sc_words::{Base, Command};

/// Appends a child group, if there is one and the node is one of its members.
#[tactic(auto, using(crate::proofs::Making::making))]
fn keep_child(me: u16, child: Option<Base>, made: &mut Sequence<Base>) -> Result<(), OutOfMemory>
    ensures made { OnOk result (made.new ≡ made.old ++ child_at me child) }
    ensures none { child_at me child ≡ [] → IsOk result }
{
    let Some(child) = child else {
        return Ok(());
    };
    if !child.core.members.has(me) {
        return Ok(());
    }
    made.push(child)
}

/// Appends the child group that the command which is executed next creates, if the node is one of
/// its members. To be called before that command is executed.
pub(crate) fn bear(
    replica: &Replica,
    command: &Command,
    made: &mut Sequence<Base>,
) -> Result<(), OutOfMemory>
    ensures made { OnOk result (made.new ≡ made.old ++ next_child command.now replica.now) }
    ensures none { child_by replica.now.group command.now ≡ None → IsOk result }
{
    let child = replica.machine().child_by(command)?;
    keep_child(replica.me(), child, made)
}
