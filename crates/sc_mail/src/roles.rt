//! A node or a client.
ghost use Rattle.std.specs.Prelude.{◌≡◌, IfOk};
ghost use Rattle.sc_mail.specs.Roles.{role_table};

use crate::bodies::Mail;
use sc_actor::{Actor, Input};
use sc_base::{OutOfMemory, Sequence};
use sc_words::OrderLine;
use std::alloc::Global;

/// A node or a client, generic in what each is: two state machines, or the values of their tables
/// as contracts see them.
#[derive(Drop)]
pub enum Role<N, C> {
    Node(N),
    Client(C),
}

impl<N, C> Actor for Role<N, C>
where
    N: Actor<Mail = Mail, Order = OrderLine>,
    C: Actor<Mail = Mail, Order = OrderLine>,
{
    type Mail = Mail;

    type Order = OrderLine;

    ghost table = { role_table N.table C.table };

    fn step(
        &mut self,
        alloc: Global,
        input: &Input<Mail, OrderLine>,
    ) -> Result<Sequence<Mail>, OutOfMemory> {
        match self {
            Role::Node(node) => node.step(alloc, input),
            Role::Client(client) => client.step(alloc, input),
        }
    }
}
