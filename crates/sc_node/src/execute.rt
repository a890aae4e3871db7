//! Execute: the command of the next slot is executed, counted where it was ready, else learnt.
ghost use Rattle.std.specs.Prelude.{◌≡◌, ◌+◌, ◌<◌, ◌++◌, None, OnOk, IsOk};
ghost use Rattle.sc_node_table.specs.Slots.{slots_ahead};
ghost use Rattle.sc_node_table.specs.Replica.{next, last_slot};
ghost use Rattle.sc_node_table.specs.Execute.{next_ready, executed_one, executed_ready, executed};

use crate::births::bear;
use crate::speech::announce;
use sc_base::{OutOfMemory, Sequence};
use sc_mail::Mail;
use sc_node_parts::before_of;
use sc_node_replica::Replica;
use sc_words::{Base, Command};

/// Executes the command of the next slot, without the child and the ready commands behind it.
#[tactic(auto, unfolding(sc_node_table::specs::Execute::executed_one))]
fn execute_one(
    replica: &mut Replica,
    counted: bool,
    command: &Command,
    out: &mut Sequence<Mail>,
) -> Result<(), OutOfMemory>
    requires { next replica.old < last_slot + slots_ahead }
    ensures { OnOk result
        ((replica.new, out.new) ≡ executed_one counted command.now (replica.old, out.old)) }
{
    let slot = replica.next();
    let members = replica.machine().core().members;
    let before = before_of(replica.machine().core());
    let effect = replica.enter(command)?;
    announce(replica, counted, &before, effect, command, out)?;
    replica.teach_members(counted, &members, slot, command, out)?;
    replica.welcome(counted, &members, out)?;
    replica.land(counted, slot, command, out)?;
    replica.leave(out)?;
    replica.look(out)
}

/// Executes the ready commands of the next slots, as long as there is one, and pumps after each.
fn execute_ready(
    replica: &mut Replica,
    out: &mut Sequence<Mail>,
    made: &mut Sequence<Base>,
) -> Result<(), OutOfMemory>
    ensures place { OnOk result
        ((replica.new, out.new) ≡ (executed_ready replica.old.ready (replica.old, out.old)).0) }
    ensures made { OnOk result
        (made.new
        ≡ made.old ++ (executed_ready replica.old.ready (replica.old, out.old)).1) }
    ensures none { next_ready replica.old ≡ None → IsOk result }
{
    let Some(command) = replica.next_ready()? else {
        return Ok(());
    };
    bear(replica, &command, made)?;
    execute_one(replica, true, &command, out)?;
    execute_ready(replica, out, made)?;
    replica.pump(out)
}

/// Executes a command at the next slot, and what is ready behind it.
#[tactic(auto, unfolding(sc_node_table::specs::Execute::executed), using(crate::proofs::Making::making))]
pub(crate) fn execute(
    replica: &mut Replica,
    counted: bool,
    command: &Command,
    out: &mut Sequence<Mail>,
    made: &mut Sequence<Base>,
) -> Result<(), OutOfMemory>
    requires { next replica.old < last_slot + slots_ahead }
    ensures place { OnOk result
        ((replica.new, out.new) ≡ (executed counted command.now (replica.old, out.old)).0) }
    ensures made { OnOk result
        (made.new ≡ made.old ++ (executed counted command.now (replica.old, out.old)).1) }
{
    bear(replica, command, made)?;
    execute_one(replica, counted, command, out)?;
    execute_ready(replica, out, made)?;
    replica.pump(out)
}
