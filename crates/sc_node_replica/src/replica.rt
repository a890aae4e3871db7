//! The replica: one group on one node.
ghost use Rattle.std.specs.Prelude.{◌≡◌, ◌+◌, ◌≤◌, IfOk, OnOk, length, true};
ghost use Rattle.sc_base.specs.Roster.{is_member};
ghost use Rattle.sc_node_table.specs.Slots.{slots_ahead};
ghost use Rattle.sc_node_table.specs.Replica.{born_replica, installed_replica, members, name_of, next, last_slot};
ghost use Rattle.sc_node_replica.specs.Bare.{bare_replica, with_hint, with_waits};

use sc_base::{Ballot, Draw, OutOfMemory, Sequence};
use sc_group::Machine;
use sc_mail::Mail;
use sc_node_choices::Sets;
use sc_node_parts::Entries;
use sc_paxos::{Acceptor, Leader};
use sc_words::{Base, Command};
use std::alloc::Global;
use std::collections::{BTreeMap, VecDeque};
use std::marker::Model;

/// The last slot at which a command is learnt. After it none is offered.
pub const LAST_SLOT: u32 = 4_294_967_288;

/// One group on one node. Contracts see it as the record `ReplicaState` of the replica's table.
#[derive(Drop)]
pub struct Replica {
    pub(crate) me: u16,
    pub(crate) machine: Machine,
    pub(crate) log: Entries,
    pub(crate) acceptor: Acceptor<Command>,
    /// The node that it takes for the leader.
    pub(crate) hint: Option<u16>,
    /// The greatest ballot seen.
    pub(crate) top: Ballot,
    pub(crate) running: bool,
    /// The leader's state, which counts only where the replica runs.
    pub(crate) leader: Leader<Command>,
    pub(crate) ready: BTreeMap<u32, Command>,
    pub(crate) sets: Sets,
    pub(crate) acts: VecDeque<Command>,
    pub(crate) backlog: VecDeque<Command>,
    pub(crate) waits: u32,
    pub(crate) alloc: Global,
}

impl Model for Replica {
    ghost use Rattle.std.specs.FinMap as map;
    ghost use Rattle.std.specs.Coded.{Coded, codes, coded_ℕ, coded_list};
    ghost use Rattle.sc_words.specs.ideal.IdealStore.{Contents};
    ghost use Rattle.sc_words.specs.ideal.Clients.{ClientTable};
    ghost use Rattle.sc_group_table.specs.machine.Group.{Group};
    ghost use Rattle.sc_node_table.specs.Replica.{ReplicaState};

    ghost Value = { ReplicaState };

    ghost coded = { let pairs : Coded Contents =
        map.code (coded_list coded_ℕ) (coded_list coded_ℕ) in
        let clients : Coded ClientTable = map.code coded_ℕ (Prim.hlevel codes) in
        let group : Coded Group = Prim.hlevel (codes, pairs, clients) in
        Prim.hlevel (codes, group) };

    ghost view = { λ r. record {
      me = r.me;
      group = r.machine;
      log = r.log;
      acceptor = r.acceptor.state;
      hint = r.hint;
      top = r.top;
      running = r.running;
      leader = r.leader;
      ready = r.ready.entries;
      sets = r.sets;
      acts = r.acts.items;
      backlog = r.backlog.items;
      waits = r.waits;
    } };
}

impl Replica {
    /// Returns a replica with this state, log and open slots that does not run and has promised the
    /// group's first ballot.
    fn bare(alloc: Global, me: u16, machine: Machine, log: Entries, sets: Sets) -> Replica
        ensures { result ≡ bare_replica me machine log sets }
    {
        let first = machine.core().first;
        let ballot = Ballot {
            round: 1,
            node: first,
        };
        Replica {
            me,
            machine,
            log,
            acceptor: Acceptor::born(alloc, ballot),
            hint: Some(first),
            top: ballot,
            running: false,
            leader: Leader::first(alloc, ballot),
            ready: BTreeMap::new(alloc),
            sets,
            acts: VecDeque::new(alloc),
            backlog: VecDeque::new(alloc),
            waits: 0,
            alloc,
        }
    }

    /// Returns a replica of a group that is created with this state. It runs where its node is the
    /// group's first leader. `OPEN_SLOTS` slots are open at a time.
    pub fn born(alloc: Global, me: u16, base: Base) -> Result<Replica, OutOfMemory>
        ensures { IfOk result (λ replica. replica ≡ born_replica slots_ahead me base) }
    {
        let machine = Machine::born(alloc, base)?;
        let sets = Sets::born(alloc, &machine.core().members)?;
        let first = machine.core().first;
        let mut replica = Replica::bare(alloc, me, machine, Entries::born(alloc), sets);
        replica.running = first == me;
        Ok(replica)
    }

    /// Returns a replica that is made of the state after a slot, with the members of the open
    /// slots. It holds no entry and does not run.
    pub(crate) fn after(
        alloc: Global,
        me: u16,
        slot: u32,
        base: Base,
        sets: Sets,
    ) -> Result<Replica, OutOfMemory>
        requires { slot ≤ last_slot }
        ensures { IfOk result (λ replica. replica ≡ installed_replica me slot base sets) }
    {
        let machine = Machine::born(alloc, base)?;
        let mut replica = Replica::bare(alloc, me, machine, Entries::after(alloc, slot), sets);
        replica.forget(slot);
        Ok(replica)
    }

    /// Returns the node's number.
    pub fn me(&self) -> u16
        ensures { result ≡ self.now.me }
    {
        self.me
    }

    /// Returns the allocator with which the replica was created.
    pub fn alloc(&self) -> Global {
        self.alloc
    }

    /// Returns the node that the replica takes for the leader of its group, if it takes one.
    pub fn hint(&self) -> Option<u16>
        ensures { result ≡ self.now.hint }
    {
        self.hint
    }

    /// Returns whether the replica runs: it has begun as the leader or was elected, or waits for
    /// the promises that elect it, and has not stopped since.
    pub fn is_running(&self) -> bool
        ensures { result ≡ self.now.running }
    {
        self.running
    }

    /// Returns the number of ticks for which the group's transaction has waited at this replica: 0
    /// where the group has none.
    pub fn waits(&self) -> u32
        ensures { result ≡ self.now.waits }
    {
        self.waits
    }

    /// Sets the number of ticks for which the group's transaction has waited at this replica.
    pub fn set_waits(&mut self, waits: u32)
        ensures { self.new ≡ with_waits waits self.old }
    {
        self.waits = waits;
    }

    /// Returns the state of the group after the executed entries.
    pub fn machine(&self) -> &Machine
        ensures { result.now ≡ self.now.group }
    {
        &self.machine
    }

    /// Returns the name of the group.
    pub fn name(&self) -> Draw
        ensures { result ≡ name_of self.now }
    {
        self.machine.core().id
    }

    /// Returns whether a node is a member in the executed state.
    pub(crate) fn has_member(&self, node: u16) -> bool
        ensures { result ≡ is_member (members self.now) node }
    {
        self.machine.core().members.has(node)
    }

    /// Takes a node for the leader.
    pub(crate) fn take_hint(&mut self, node: u16)
        ensures { self.new ≡ with_hint node self.old }
    {
        self.hint = Some(node);
    }

    /// Returns the slot after the last executed one.
    pub fn next(&self) -> u32
        ensures same { result ≡ next self.now }
        ensures most { next self.now ≤ last_slot + slots_ahead }
    {
        self.log.next()
    }

    /// Returns the number of open slots.
    pub(crate) fn open_slots(&self) -> usize
        ensures four { result ≡ slots_ahead }
        ensures all { result ≡ length self.now.sets }
    {
        self.sets.len()
    }
}
