//! Orders: which are taken, and the names that they take of the node.
ghost use Rattle.std.specs.Prelude.{◌≡◌, ◌≤◌, ◌-◌, ◌^◌, ◌||◌, ◌&&◌, not, true, false, OnOk, IsOk, Some, None, is_some, if◌then◌else◌};
ghost use Rattle.sc_base.specs.Drawing.{next_name, drawn_on};
ghost use Rattle.sc_group_parts.specs.transactions.Checked.{is_checked};
ghost use Rattle.sc_group_table.specs.machine.Orders.{refusal_of};
ghost use Rattle.sc_node_table.specs.Replica.{settled};
ghost use Rattle.sc_node_table.specs.Queues.{with_order_queued};
ghost use Rattle.sc_node_table.specs.Policy.{with_line};
ghost use Rattle.sc_node_table.specs.Ordering.{ordered_command, takes_name, has_drawn_all, named_refused, first_of_both, untaken, queued_or_refused, ordered_row, names_after};

use sc_base::{Draw, Draws, OutOfMemory, Sequence};
use sc_group_parts::check;
use sc_mail::Mail;
use sc_node_parts::send_result;
use sc_node_replica::Replica;
use sc_words::{Body, Command, Core, Order, OrderLine, OrderRefusal, OrderResult};

/// Returns why the command of an order is refused. None where it is not.
fn refusal_of(core: &Core, command: &Command) -> Option<OrderRefusal>
    requires { is_checked command.now ≡ true }
    ensures { result ≡ refusal_of core.now command.now }
{
    match check(core, command) {
        Ok(()) => None,
        Err(why) => Some(why),
    }
}

/// The name of no node.
const NO_NAME: Draw = Draw { node: 0, count: 0 };

/// Returns the command of an order, with a name for its child or its transaction.
fn ordered_command(name: Draw, number: u32, order: &Order) -> Command
    ensures same { result ≡ ordered_command name number order.now }
    ensures checked { is_checked result ≡ true }
{
    let order_number = number;
    match order {
        Order::Join { node, .. } => Command::Join {
            node: *node,
            order: order_number,
        },
        Order::Leave { node, .. } => Command::Leave {
            node: *node,
            order: order_number,
        },
        Order::Split { at, .. } => Command::Split {
            at: *at,
            child: name,
            order: order_number,
        },
        Order::Merge { .. } => Command::Begin {
            tx: name,
            body: Body::Merge,
            order: order_number,
        },
        Order::Repart { at, .. } => Command::Begin {
            tx: name,
            body: Body::Repart { at: *at },
            order: order_number,
        },
        Order::Migrate { node, .. } => Command::Begin {
            tx: name,
            body: Body::Migrate { node: *node },
            order: order_number,
        },
    }
}

/// Returns whether an order takes a name.
fn takes_name(order: &Order) -> bool
    ensures { result ≡ takes_name order.now }
{
    match order {
        Order::Join { .. } | Order::Leave { .. } => false,
        Order::Split { .. } | Order::Merge { .. } | Order::Repart { .. } | Order::Migrate { .. } =>
            true,
    }
}

/// Returns whether a node has drawn all its names.
fn has_drawn_all(draws: &Draws) -> bool
    ensures same { result ≡ has_drawn_all draws.now }
    ensures most { draws.now.next ≤ 2 ^ 32 - 1 }
{
    draws.spent()
}

/// Returns the command of an order, with the node's next name where its kind takes one.
fn drawn_command(draws: &mut Draws, line: &OrderLine) -> Command
    requires { (takes_name line.now.order && has_drawn_all draws.old) ≡ false }
    ensures command { result
        ≡ ordered_command (next_name draws.old) line.now.number line.now.order }
    ensures names { draws.new
        ≡ (if takes_name line.now.order then drawn_on draws.old else draws.old) }
{
    if !takes_name(&line.order) {
        return ordered_command(NO_NAME, line.number, &line.order);
    }
    prove!(!has_drawn_all(draws));
    let name = draws.draw();
    ordered_command(name, line.number, &line.order)
}

/// Returns whether a replica takes no order: its group is gone, or it is not settled.
fn takes_no_order(replica: &Replica) -> bool
    ensures { result ≡ (is_some replica.now.group.core.gone || not (settled replica.now)) }
{
    replica.machine().core().gone.is_some() || !replica.is_settled()
}

/// Returns why an order that takes a name is not taken, where no name is left.
fn named_refused(replica: &Replica, draws: &Draws, order: &Order) -> Option<OrderRefusal>
    ensures { result ≡ named_refused draws.now order.now replica.now }
{
    if takes_name(order) && has_drawn_all(draws) {
        return Some(OrderRefusal::NotLeader {
            hint: replica.hint(),
        });
    }
    None
}

/// Returns why an order is not taken. None where it is taken. No refusal depends on the name.
#[tactic(auto, using(crate::proofs::Naming::refused_alike))]
fn untaken(replica: &Replica, draws: &Draws, line: &OrderLine) -> Option<OrderRefusal>
    ensures { result ≡ untaken draws.now line.now replica.now }
{
    if takes_no_order(replica) {
        return Some(OrderRefusal::NotLeader {
            hint: replica.hint(),
        });
    }
    let command = ordered_command(NO_NAME, line.number, &line.order);
    match refusal_of(replica.machine().core(), &command) {
        Some(why) => Some(why),
        None => named_refused(replica, draws, &line.order),
    }
}

/// Appends the command of an order to the queue. The order is not refused.
fn put_drawn(replica: &mut Replica, draws: &mut Draws, line: &OrderLine) -> Result<(), OutOfMemory>
    requires { (takes_name line.now.order && has_drawn_all draws.old) ≡ false }
    ensures row { OnOk result
        (replica.new
        ≡ with_order_queued (ordered_command (next_name draws.old) line.now.number line.now.order)
        replica.old) }
    ensures names { draws.new
        ≡ (if takes_name line.now.order then drawn_on draws.old else draws.old) }
{
    let command = drawn_command(draws, line);
    replica.put_order(command)
}

/// Appends the command of an order to the queue, and pumps. The order is not refused.
fn queue_order(
    replica: &mut Replica,
    draws: &mut Draws,
    line: &OrderLine,
    out: &mut Sequence<Mail>,
) -> Result<(), OutOfMemory>
    requires { (takes_name line.now.order && has_drawn_all draws.old) ≡ false }
    ensures row { OnOk result
        ((replica.new, out.new)
        ≡ queued_or_refused None line.now.number
        (ordered_command (next_name draws.old) line.now.number line.now.order)
        (replica.old, out.old)) }
    ensures names { draws.new
        ≡ (if takes_name line.now.order then drawn_on draws.old else draws.old) }
{
    put_drawn(replica, draws, line)?;
    replica.pump(out)
}

/// Queues an order, unless it is refused. Nothing is reported of it.
#[tactic(auto, using(crate::proofs::Naming::has_name))]
pub(crate) fn put_unreported(
    replica: &mut Replica,
    draws: &mut Draws,
    line: &OrderLine,
) -> Result<(), OutOfMemory>
    ensures row { OnOk result (replica.new ≡ with_line draws.old (Some line.now) replica.old) }
    ensures refused { is_some (untaken draws.old line.now replica.old) ≡ true → IsOk result }
    ensures names { OnOk result (draws.new ≡ names_after draws.old line.now replica.old) }
{
    match untaken(replica, draws, line) {
        Some(_) => Ok(()),
        None => put_drawn(replica, draws, line),
    }
}

/// Queues an order to the replica's group, or reports to the desk why it is not taken. A split or a
/// transaction takes a name of the node. Mails are appended to those that are there. After
/// `Err(OutOfMemory)` the replica may only be dropped.
#[tactic(auto, unfolding(sc_node_table::specs::Ordering::ordered_row), using(crate::proofs::Naming::has_name))]
pub fn on_order(
    replica: &mut Replica,
    draws: &mut Draws,
    line: &OrderLine,
    out: &mut Sequence<Mail>,
) -> Result<(), OutOfMemory>
    ensures row { OnOk result
        ((replica.new, out.new) ≡ ordered_row draws.old line.now (replica.old, out.old)) }
    ensures names { OnOk result (draws.new ≡ names_after draws.old line.now replica.old) }
{
    match untaken(replica, draws, line) {
        Some(why) => send_result(replica.me(), line.number, OrderResult::Refused(why), out),
        None => queue_order(replica, draws, line, out),
    }
}
