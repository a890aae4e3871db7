//! An order for the replica of its group.
ghost use Rattle.std.specs.Prelude.{◌≡◌, [], None, IfOk};
ghost use Rattle.sc_node_table.specs.Mails.{result_sent};
ghost use Rattle.sc_node_table.specs.Node.{group_of_order, on_order};
ghost use Rattle.sc_words.specs.declared.commands.orders.OrderResult.TheVariants.{Refused};
ghost use Rattle.sc_words.specs.declared.commands.orders.OrderRefusal.TheVariants.{NotLeader};
ghost use Rattle.sc_node.specs.Places.{StandsAt};

use crate::absent::alone;
use crate::node::NodeCore;
use crate::orders::on_order;
use sc_base::{Draw, OutOfMemory, Sequence};
use sc_mail::{DESK, Mail, MailBody};
use sc_words::{Order, OrderLine, OrderRefusal, OrderResult};
use std::alloc::Global;

/// Returns the group of an order.
fn group_of_order(order: &Order) -> Draw
    ensures { result ≡ group_of_order order.now }
{
    match order {
        Order::Join { group, .. }
        | Order::Leave { group, .. }
        | Order::Split { group, .. }
        | Order::Merge { group }
        | Order::Repart { group, .. }
        | Order::Migrate { group, .. } => *group,
    }
}

/// Returns the report to the desk that the node does not lead the group of an order, and knows no
/// node that does.
fn report_no_leader(alloc: Global, me: u16, number: u32) -> Result<Sequence<Mail>, OutOfMemory>
    ensures { IfOk result (λ sent. sent ≡ result_sent me number (Refused (NotLeader None)) []) }
{
    let why = OrderRefusal::NotLeader { hint: None };
    alone(
        alloc,
        me,
        DESK,
        MailBody::Told {
            order: number,
            result: OrderResult::Refused(why),
        },
    )
}

impl NodeCore {
    /// Gives an order to the replica of its group, or reports to the desk that there is none, and
    /// returns what is sent.
    pub(crate) fn on_order(
        &mut self,
        alloc: Global,
        line: &OrderLine,
    ) -> Result<Sequence<Mail>, OutOfMemory>
        ensures { IfOk result (λ sent. on_order line.now self.old ≡ (self.new, sent)) }
    {
        match self.replica_place(group_of_order(&line.order)) {
            None => report_no_leader(alloc, self.me, line.number),
            Some(i) => self.take_order_at(alloc, i, line),
        }
    }

    /// Gives an order to the replica at a place, and returns what is sent.
    fn take_order_at(
        &mut self,
        alloc: Global,
        i: usize,
        line: &OrderLine,
    ) -> Result<Sequence<Mail>, OutOfMemory>
        requires { StandsAt (group_of_order line.now.order) self.old.replicas i }
        ensures { IfOk result (λ sent. on_order line.now self.old ≡ (self.new, sent)) }
    {
        let mut sent = Sequence::new(alloc);
        on_order(&mut self.replicas[i], &mut self.draws, line, &mut sent)?;
        Ok(sent)
    }
}
