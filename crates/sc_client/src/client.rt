//! A client, and how it acts on each input.
ghost use Rattle.std.specs.Prelude.{◌≡◌, ◌≤◌, ◌⊎◌, [], length, IfOk, IsOk};
ghost use Rattle.sc_actor.specs.declared.rows.Input.TheVariants.{Go, Told, Tick};
ghost use Rattle.sc_base.specs.Limits.{most_requests};
ghost use Rattle.sc_client_table.specs.table.Client.{born_client};
ghost use Rattle.sc_client_table.specs.table.Table.{table};
ghost use Rattle.sc_words.specs.declared.commands.orders.OrderLine.{OrderLine};

use sc_actor::{Actor, Input};
use sc_base::{Draw, Op, OutOfMemory, Reply, Sequence};
use sc_client_table::Routes;
use sc_mail::Mail;
use sc_words::{OrderLine, Route};
use std::alloc::Global;
use std::marker::Model;

/// A client: its requests, the one that waits, the groups that it knows, the node that it asked
/// last, and its replies. Contracts see all of it.
#[derive(Drop)]
pub struct ClientCore {
    pub(crate) me: u16,
    pub(crate) requests: Sequence<Op>,
    pub(crate) waiting: Option<u32>,
    pub(crate) routes: Routes,
    pub(crate) asked: Option<(Draw, u16)>,
    pub(crate) replies: Sequence<Reply>,
}

impl Model for ClientCore {
    ghost use Rattle.sc_client_table.specs.table.Client.{Client};
    ghost use Rattle.sc_client.specs.Numbered.{IsNumbered};

    ghost Value = { Client };

    ghost view = { λ c.
        record {
          me = c.me;
          requests = c.requests;
          waiting = c.waiting;
          known = c.routes;
          asked = c.asked;
          replies = c.replies;
        } };

    ghost invariant = { λ c. IsNumbered c.requests c.waiting };
}

impl ClientCore {
    /// Returns a client with this number, these requests, at most 1,000, and one group that it
    /// knows.
    pub fn born(
        alloc: Global,
        me: u16,
        requests: Sequence<Op>,
        first: Route,
    ) -> Result<ClientCore, OutOfMemory>
        requires { length requests ≤ most_requests }
        ensures { IfOk result (λ client. client ≡ born_client me requests first) }
    {
        Ok(ClientCore {
            me,
            requests,
            waiting: None,
            routes: Routes::start(alloc, first)?,
            asked: None,
            replies: Sequence::new(alloc),
        })
    }

    /// Returns the client's number, from 1.
    pub fn me(&self) -> u16
        ensures { result ≡ self.now.me }
    {
        self.me
    }

    /// Returns the client's requests, numbered from 1 by their places.
    pub fn requests(&self) -> &Sequence<Op>
        ensures same { result.now ≡ self.now.requests }
        ensures few { length self.now.requests ≤ most_requests }
    {
        &self.requests
    }

    /// Returns the number of the request that waits for its reply, if one does.
    pub fn waiting(&self) -> Option<u32>
        ensures { result ≡ self.now.waiting }
    {
        self.waiting
    }

    /// Returns the replies to the client's requests, in the order of the requests.
    pub fn replies(&self) -> &Sequence<Reply>
        ensures { result.now ≡ self.now.replies }
    {
        &self.replies
    }

    /// Acts on an input by the client's transition table, and returns the mail sent. Does not fail
    /// on an order, nor on a tick or a start that sends nothing. After `Err(OutOfMemory)` the
    /// contract says nothing of the client, so it may only be dropped.
    pub fn step(
        &mut self,
        alloc: Global,
        input: &Input<Mail, OrderLine>,
    ) -> Result<Sequence<Mail>, OutOfMemory>
        ensures sent { IfOk result (λ sent. table self.old input.now ≡ (self.new, sent)) }
        ensures told { (line : OrderLine) → input.now ≡ Told line → IsOk result }
        ensures none { (input.now ≡ Tick) ⊎ (input.now ≡ Go) →
            (table self.old input.now).1 ≡ [] → IsOk result }
    {
        match input {
            Input::Got(mail) => self.got(alloc, mail),
            Input::Tick => self.tick(alloc),
            Input::Go => self.start(alloc, 1),
            Input::Told(_line) => Ok(Sequence::new(alloc)),
        }
    }
}

impl Actor for ClientCore {
    type Mail = Mail;

    type Order = OrderLine;

    ghost table = { table };

    fn step(
        &mut self,
        alloc: Global,
        input: &Input<Mail, OrderLine>,
    ) -> Result<Sequence<Mail>, OutOfMemory> {
        ClientCore::step(self, alloc, input)
    }
}
