//! A tick of a replica.
ghost use Rattle.std.specs.Prelude.{◌≡◌, [], true, false, nat_le, not, ◌||◌, is_some, OnOk, IsOk};
ghost use Rattle.sc_node_table.specs.Reminders.{one_tick_more, patience, impatient, waited_in, reminded};
ghost use Rattle.sc_node_table.specs.Policy.{wished_line, names_with, wishing, names_after_tick};
ghost use Rattle.sc_base.specs.Roster.{is_member};
ghost use Rattle.sc_words.specs.declared.commands.commands.Command.TheVariants.{GiveUp};
ghost use Rattle.sc_node_table.specs.Acts.{has_act};
ghost use Rattle.sc_node_table.specs.Election.{elected};
ghost use Rattle.sc_node_table.specs.Replica.{members, settled};
ghost use Rattle.sc_node_parts.specs.transactions.Quiet.{coordinates};
ghost use Rattle.sc_node.specs.PassedInputs.{IsIdleTick};
ghost use Rattle.sc_node_table.specs.Rows.{tick_row};

use crate::wishes::wish;
use sc_base::{Draw, Draws, OutOfMemory, Sequence};
use sc_mail::Mail;
use sc_node_parts::{has_waited, one_tick_more, transactions};
use sc_node_replica::Replica;
use sc_words::{Command, Lock};

/// Queues the give-up of a transaction whose coordinator has waited long enough.
fn lose_patience(replica: &mut Replica, tx: Draw) -> Result<(), OutOfMemory>
    ensures row { OnOk result (replica.new ≡ impatient tx replica.old) }
    ensures patient { nat_le patience replica.old.waits ≡ false → IsOk result }
    ensures known { has_act (GiveUp tx) replica.old ≡ true → IsOk result }
{
    if !has_waited(replica.waits()) {
        return Ok(());
    }
    replica.put_act(Command::GiveUp { tx })
}

/// Lets a coordinator wait one tick longer. Does nothing where the group coordinates no
/// transaction.
fn wait(replica: &mut Replica) -> Result<(), OutOfMemory>
    ensures row { OnOk result (replica.new ≡ waited_in replica.old.group.core.lock replica.old) }
    ensures free { coordinates replica.old.group.core.lock ≡ false → IsOk result }
    ensures patient { nat_le patience (one_tick_more replica.old.waits) ≡ false → IsOk result }
{
    match &replica.machine().core().lock {
        Lock::Coordinating { tx, .. } => {
            let tx = *tx;
            let waits = one_tick_more(replica.waits());
            replica.set_waits(waits);
            lose_patience(replica, tx)
        }
        Lock::Free | Lock::Promised { .. } | Lock::Watching { .. } => Ok(()),
    }
}

/// Sends a bound group's question or vote of its transaction again, and lets a coordinator wait one
/// tick longer.
#[tactic(auto, unfolding(sc_node_table::specs::Reminders::reminded))]
fn remind(replica: &mut Replica, out: &mut Sequence<Mail>) -> Result<(), OutOfMemory>
    ensures row { OnOk result ((replica.new, out.new) ≡ reminded (replica.old, out.old)) }
    ensures none { coordinates replica.old.group.core.lock ≡ false →
        (reminded (replica.old, [])).1 ≡ [] → IsOk result }
    ensures waits { OnOk result
        (replica.new ≡ waited_in replica.old.group.core.lock replica.old) }
{
    transactions::remind(replica.alloc(), replica.machine(), replica.me(), out)?;
    wait(replica)
}

/// Sends a bound group's question or vote again, and queues what a policy wishes, if one is on.
#[tactic(auto, unfolding(sc_node_table::specs::Policy::wishing))]
fn remind_and_wish(
    replica: &mut Replica,
    policy: bool,
    draws: &mut Draws,
    out: &mut Sequence<Mail>,
) -> Result<(), OutOfMemory>
    ensures row { OnOk result
        ((replica.new, out.new)
        ≡ wishing policy draws.old (reminded (replica.old, out.old))) }
    ensures none { policy ≡ false → coordinates replica.old.group.core.lock ≡ false →
        (reminded (replica.old, [])).1 ≡ [] → IsOk result }
    ensures names { OnOk result
        (draws.new
        ≡ names_with draws.old
        (wished_line policy (waited_in replica.old.group.core.lock replica.old))
        (waited_in replica.old.group.core.lock replica.old)) }
{
    remind(replica, out)?;
    wish(replica, policy, draws)
}

/// Handles a tick by the row of Tick, on a node with a policy or without. What the policy orders
/// takes a name of the node. Mails are appended to those that are there. After `Err(OutOfMemory)`
/// the replica may only be dropped.
#[tactic(auto, unfolding(sc_node_table::specs::Rows::tick_row))]
pub fn on_tick(
    replica: &mut Replica,
    policy: bool,
    draws: &mut Draws,
    out: &mut Sequence<Mail>,
) -> Result<(), OutOfMemory>
    ensures row { OnOk result
        ((replica.new, out.new) ≡ tick_row policy draws.old (replica.old, out.old)) }
    ensures apart { (is_some replica.old.group.core.gone
        || not (is_member (members replica.old) replica.old.me)) ≡ true → IsOk result }
    ensures spent { settled replica.old ≡ false → (elected (replica.old, [])).1 ≡ [] →
        IsOk result }
    ensures idle { IsIdleTick policy replica.old → IsOk result }
    ensures names { OnOk result (draws.new ≡ names_after_tick policy draws.old replica.old) }
{
    if !replica.takes_part() {
        return Ok(());
    }
    if !replica.is_settled() {
        return replica.elect(out);
    }
    replica.repeat(out)?;
    remind_and_wish(replica, policy, draws, out)?;
    replica.pump(out)
}
