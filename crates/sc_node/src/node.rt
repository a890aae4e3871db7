//! The node.
ghost use Rattle.std.specs.Prelude.{◌≡◌, ◌<◌, [], length, true, false, None, IfOk, OnOk, IsOk};
ghost use Rattle.std.specs.List.{list_all};
ghost use Rattle.sc_words.specs.declared.commands.cores.Base.{Base};
ghost use Rattle.sc_node_table.specs.Slots.{slots_ahead};
ghost use Rattle.sc_node_table.specs.Replica.{ReplicaState, name_of};
ghost use Rattle.sc_node_table.specs.Node.{is_before, are_in_order, born_replicas, born_node, replica_of, taken_by, routed, on_mail, with_children, on_tick, node_table, may_come};
ghost use Rattle.sc_node.specs.Places.{StandsAt};
ghost use Rattle.sc_node.specs.Ticking.{ticked_at};
ghost use Rattle.sc_node.specs.PassedInputs.{IsPassedByOne, IsMailPassedBy, IsInputPassedBy};

use crate::absent::{group_in, may_come};
use crate::arrivals::is_before;
use crate::rows::take_mail;
use crate::ticks::on_tick;
use sc_actor::{Actor, Input};
use sc_base::{Draw, Draws, Dup, OutOfMemory, Sequence};
use sc_mail::{Mail, MailBody};
use sc_node_replica::Replica;
use sc_words::{Base, OrderLine};
use std::alloc::Global;
use std::marker::Model;

/// A node, the names that it draws, and its replicas, one a group. Contracts see it as the record
/// `NodeState` of the node's table.
#[derive(Drop)]
pub struct NodeCore {
    pub(crate) me: u16,
    pub(crate) draws: Draws,
    /// Whether it has a policy.
    pub(crate) policy: bool,
    pub(crate) replicas: Vec<Replica>,
}

impl Model for NodeCore {
    ghost use Rattle.std.specs.FinMap as map;
    ghost use Rattle.std.specs.Coded.{Coded, codes, coded_ℕ, coded_list};
    ghost use Rattle.sc_words.specs.ideal.IdealStore.{Contents};
    ghost use Rattle.sc_words.specs.ideal.Clients.{ClientTable};
    ghost use Rattle.sc_group_table.specs.machine.Group.{Group};
    ghost use Rattle.sc_node_table.specs.Replica.{ReplicaState};
    ghost use Rattle.sc_node_table.specs.Node.{NodeState};

    ghost Value = { NodeState };

    ghost coded = { let pairs : Coded Contents =
        map.code (coded_list coded_ℕ) (coded_list coded_ℕ) in
        let clients : Coded ClientTable = map.code coded_ℕ (Prim.hlevel codes) in
        let group : Coded Group = Prim.hlevel (codes, pairs, clients) in
        let replica : Coded ReplicaState = Prim.hlevel (codes, group) in
        Prim.hlevel (codes, replica) };

    ghost view = { λ n.
        record {
          me = n.me;
          draws = n.draws;
          policy = n.policy;
          replicas = n.replicas.items;
        } };
}

/// Returns whether a group's name is ordered before those of all these groups.
fn is_first(group: Draw, others: &[Base]) -> bool
    ensures { result ≡ list_all (λ (other : Base). is_before group other.core.id) others.now }
{
    others.iter().all(|other| is_before(group, other.core.id))
}

/// Returns whether groups are in the order of their names, none twice.
pub fn are_in_order(groups: &[Base]) -> bool
    ensures { result ≡ are_in_order groups.now }
{
    match groups {
        [] => true,
        [base, others @ ..] => is_first(base.core.id, others) && are_in_order(others),
    }
}

/// Returns the replicas of these new groups, of those of which the node is a member.
fn born_replicas(alloc: Global, me: u16, groups: &[Base]) -> Result<Vec<Replica>, OutOfMemory>
    ensures born { IfOk result
        (λ replicas. replicas.items ≡ born_replicas slots_ahead me groups.now) }
    ensures none { born_replicas slots_ahead me groups.now ≡ [] → IsOk result }
{
    let mut replicas = Vec::new(alloc);
    for base in groups {
        if base.core.members.has(me) {
            replicas.push(Replica::born(alloc, me, base.dup(alloc)?)?)?;
        }
    }
    Ok(replicas)
}

impl NodeCore {
    /// Returns a node with a replica of each of these new groups of which it is a member. The
    /// groups are in the order of their names, which `are_in_order` tests. `OPEN_SLOTS` slots of a
    /// log are open at a time. With a policy the node orders what is wished of the groups that it
    /// leads.
    pub fn born(
        alloc: Global,
        me: u16,
        groups: &Sequence<Base>,
        policy: bool,
    ) -> Result<NodeCore, OutOfMemory>
        requires { are_in_order groups.now ≡ true }
        ensures born { IfOk result (λ node. node ≡ born_node slots_ahead me groups.now policy) }
        ensures none { born_replicas slots_ahead me groups.now ≡ [] → IsOk result }
    {
        Ok(NodeCore {
            me,
            draws: Draws::start(me),
            policy,
            replicas: born_replicas(alloc, me, groups.as_slice())?,
        })
    }

    /// Returns the node's number.
    pub fn me(&self) -> u16
        ensures { result ≡ self.now.me }
    {
        self.me
    }

    /// Returns the replicas, in the order of their groups' names.
    pub fn replicas(&self) -> &[Replica]
        ensures { result.now ≡ self.now.replicas }
    {
        self.replicas.as_slice()
    }

    /// Makes one step by the node's table, and returns what is sent. After `Err(OutOfMemory)` the
    /// node may only be dropped.
    pub fn step(
        &mut self,
        alloc: Global,
        input: &Input<Mail, OrderLine>,
    ) -> Result<Sequence<Mail>, OutOfMemory>
        ensures table { IfOk result (λ sent. node_table self.old input.now ≡ (self.new, sent)) }
        ensures none { IsInputPassedBy input.now self.old → IsOk result }
    {
        match input {
            Input::Got(mail) => self.on_mail(alloc, mail.from, &mail.body),
            Input::Tick => self.on_tick(alloc),
            Input::Told(line) => self.on_order(alloc, line),
            Input::Go => Ok(Sequence::new(alloc)),
        }
    }

    /// Handles a mail: gives it to the replica of its group, if it may come from its sender.
    fn on_mail(
        &mut self,
        alloc: Global,
        from: u32,
        body: &MailBody,
    ) -> Result<Sequence<Mail>, OutOfMemory>
        ensures row { IfOk result (λ sent. on_mail from body.now self.old ≡ (self.new, sent)) }
        ensures none { IsMailPassedBy from body.now self.old → IsOk result }
    {
        if !may_come(from, body) {
            return Ok(Sequence::new(alloc));
        }
        match group_in(body) {
            None => Ok(Sequence::new(alloc)),
            Some(group) => self.take(alloc, group, from, body),
        }
    }

    /// Handles a mail for a group, of which the node may have no replica.
    fn take(
        &mut self,
        alloc: Global,
        group: Draw,
        from: u32,
        body: &MailBody,
    ) -> Result<Sequence<Mail>, OutOfMemory>
        requires { may_come from body.now ≡ true }
        ensures row { IfOk result
            (λ sent.
            taken_by (replica_of group self.old.replicas) group from body.now self.old
            ≡ (self.new, sent)) }
        ensures none { IsPassedByOne (replica_of group self.old.replicas) self.old.me from body.now →
            IsOk result }
    {
        match self.replica_place(group) {
            None => self.take_unknown(alloc, from, body),
            Some(i) => self.take_at(alloc, i, group, from, body),
        }
    }

    /// Gives a mail to the replica at a place. The child groups whose replicas must be made are
    /// appended to `made`, which was empty.
    fn hand_over(
        &mut self,
        i: usize,
        group: Draw,
        from: u32,
        body: &MailBody,
        sent: &mut Sequence<Mail>,
        made: &mut Sequence<Base>,
    ) -> Result<(), OutOfMemory>
        requires may_come { may_come from body.now ≡ true }
        requires place { StandsAt group self.old.replicas i }
        requires unsent { sent.old ≡ [] }
        requires none { made.old ≡ [] }
        ensures row { OnOk result
            (taken_by (replica_of group self.old.replicas) group from body.now self.old
            ≡ (with_children made.new self.new, sent.new)) }
        ensures none { IsPassedByOne (replica_of group self.old.replicas) self.old.me from body.now →
            IsOk result }
        ensures childless { IsPassedByOne (replica_of group self.old.replicas) self.old.me from body.now →
            OnOk result (made.new ≡ []) }
    {
        take_mail(&mut self.replicas[i], from, body, sent, made)?;
        Ok(())
    }

    /// Gives a mail to the replica at a place, and makes the replicas of child groups.
    fn take_at(
        &mut self,
        alloc: Global,
        i: usize,
        group: Draw,
        from: u32,
        body: &MailBody,
    ) -> Result<Sequence<Mail>, OutOfMemory>
        requires may_come { may_come from body.now ≡ true }
        requires place { StandsAt group self.old.replicas i }
        ensures row { IfOk result
            (λ sent.
            taken_by (replica_of group self.old.replicas) group from body.now self.old
            ≡ (self.new, sent)) }
        ensures none { IsPassedByOne (replica_of group self.old.replicas) self.old.me from body.now →
            IsOk result }
    {
        let mut sent = Sequence::new(alloc);
        let mut made = Sequence::new(alloc);
        self.hand_over(i, group, from, body, &mut sent, &mut made)?;
        self.bear_all(alloc, &made)?;
        Ok(sent)
    }

    /// Lets the replica at a place tick by its row, with the names that are left. Mails are appended
    /// to those that are there. After `Err(OutOfMemory)` the node may only be dropped.
    fn tick_at(&mut self, i: usize, sent: &mut Sequence<Mail>) -> Result<(), OutOfMemory>
        requires { i < length self.old.replicas }
        ensures { OnOk result
            ((d : ReplicaState) → (self.new, sent.new) ≡ ticked_at i d (self.old, sent.old)) }
    {
        on_tick(&mut self.replicas[i], self.policy, &mut self.draws, sent)?;
        Ok(())
    }

    /// Lets each replica tick, in the order of their groups' names, with the names that those
    /// before it left, and returns what is sent. After `Err(OutOfMemory)` the node may only be
    /// dropped.
    fn on_tick(&mut self, alloc: Global) -> Result<Sequence<Mail>, OutOfMemory>
        ensures row { IfOk result (λ sent. on_tick self.old ≡ (self.new, sent)) }
        ensures none { self.old.replicas ≡ [] → IsOk result }
    {
        let mut sent = Sequence::new(alloc);
        for i in 0..self.replicas().len() {
            self.tick_at(i, &mut sent)?;
        }
        Ok(sent)
    }
}

impl Actor for NodeCore {
    type Mail = Mail;

    type Order = OrderLine;

    ghost table = { node_table };

    fn step(
        &mut self,
        alloc: Global,
        input: &Input<Mail, OrderLine>,
    ) -> Result<Sequence<Mail>, OutOfMemory> {
        NodeCore::step(self, alloc, input)
    }
}
