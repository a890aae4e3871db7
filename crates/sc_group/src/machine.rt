//! The state machine of a group: one command, and requests.
ghost use Rattle.std.specs.Prelude.{◌≡◌, IfOk, OnErr};
ghost use Rattle.std.specs.FinMap.{entries, get};
ghost use Rattle.sc_words.specs.ideal.IdealStore.{holds_key, key_of};
ghost use Rattle.sc_words.specs.ideal.Clients.{seen_of};
ghost use Rattle.sc_group_table.specs.machine.Group.{Group, base_of, group_of};
ghost use Rattle.sc_group_table.specs.machine.Machine.{applied, called, served, served_by_note, done};
ghost use Rattle.sc_group_table.specs.machine.Plans.{frozen_of};
ghost use Rattle.sc_group.specs.Memory.{Makes, MayRunOutOfMemory};

use sc_base::{Dup, Op, OutOfMemory, Pairs, RingArc};
use sc_group_parts::{ClientTable, Store, held_back_by};
use sc_words::{Base, Command, Core, Effect, Frozen, Seen};
use std::alloc::Global;
use std::marker::Model;

/// A group: its record, its pairs and its client table.
#[derive(Drop)]
pub struct Machine {
    pub(crate) core: Core,
    pub(crate) store: Store,
    pub(crate) clients: ClientTable,
    pub(crate) alloc: Global,
}

impl Model for Machine {
    ghost use Rattle.std.specs.FinMap as map;
    ghost use Rattle.std.specs.Coded.{Coded, codes, coded_ℕ, coded_list};
    ghost use Rattle.sc_words.specs.ideal.IdealStore.{Contents};
    ghost use Rattle.sc_words.specs.ideal.Clients.{ClientTable};
    ghost use Rattle.sc_group_table.specs.machine.Group.{Group};

    ghost Value = { Group };

    ghost coded = { let pairs : Coded Contents = map.code (coded_list coded_ℕ) (coded_list coded_ℕ)
        in let clients : Coded ClientTable = map.code coded_ℕ (Prim.hlevel codes) in Prim.hlevel
        (codes, pairs, clients) };

    ghost view = { λ m. record { core = m.core; pairs = m.store; clients = m.clients } };
}

fn holds_key(arc: &RingArc, op: &Op) -> bool
    ensures { result ≡ holds_key arc.now (key_of op.now) }
{
    arc.holds(op.key().pos())
}

impl Machine {
    /// Returns the group that starts from this record.
    pub fn born(alloc: Global, base: Base) -> Result<Machine, OutOfMemory>
        ensures { IfOk result (λ machine. machine ≡ group_of base) }
    {
        let Base {
            core,
            pairs,
            clients: seen,
        } = base;
        let mut store = Store::new(alloc);
        store.join(&pairs)?;
        let mut clients = ClientTable::new(alloc);
        clients.join(&seen)?;
        Ok(Machine {
            core,
            store,
            clients,
            alloc,
        })
    }

    /// Returns the group's record without pairs and client table.
    pub fn core(&self) -> &Core
        ensures { result.now ≡ self.now.core }
    {
        &self.core
    }

    /// Returns the group's pairs, in the order of their keys.
    pub fn pairs(&self) -> Result<Pairs, OutOfMemory>
        ensures { IfOk result (λ pairs. pairs ≡ entries self.now.pairs) }
    {
        self.store.list()
    }

    /// Returns the group's whole record. A machine that starts from it equals this one.
    #[tactic(auto, using(sc_group_table::proofs::MachineProofs::Parts::group_again))]
    pub fn base(&self) -> Result<Base, OutOfMemory>
        ensures whole { IfOk result (λ base. base ≡ base_of self.now) }
        ensures again { IfOk result (λ base. group_of base ≡ self.now) }
    {
        Ok(Base {
            core: self.core.dup(self.alloc)?,
            pairs: self.pairs()?,
            clients: self.clients.list()?,
        })
    }

    /// Returns the record that the group hands to its coordinator when it votes Yes.
    pub fn frozen(&self) -> Result<Frozen, OutOfMemory>
        ensures { IfOk result (λ frozen. frozen ≡ frozen_of self.now) }
    {
        Ok(Frozen {
            arc: self.core.arc,
            members: self.core.members,
            succ: self.core.succ,
            pairs: self.pairs()?,
            clients: self.clients.list()?,
        })
    }

    /// Applies a command by the transition table (Paxos Made Simple, section 3), and returns its
    /// effect. Fails only where the command may need memory by the table. After `Err(OutOfMemory)`
    /// the contract says nothing of the machine, so it may only be dropped.
    pub fn apply(&mut self, command: &Command) -> Result<Effect, OutOfMemory>
        ensures step { IfOk result (λ effect. applied self.old command.now ≡ (self.new, effect)) }
        ensures memory { OnErr result (MayRunOutOfMemory self.old command.now) }
    {
        match command {
            Command::Noop => Ok(Effect::Idle),
            Command::Call { client, seq, op } => self.call(*client, *seq, op),
            Command::Join { node, .. } => Ok(self.join(command, *node)),
            Command::Leave { node, .. } => Ok(self.leave(command, *node)),
            Command::Split { at, child, order } => self.split(command, *at, *child, *order),
            Command::Begin { tx, body, order } => Ok(self.begin(command, *tx, body, *order)),
            Command::Prepared { tx, offer } => self.prepare(*tx, offer.get()),
            Command::RecordVote { tx, vote, by } => self.record_vote(*tx, vote, *by),
            Command::GiveUp { tx } => self.give_up(*tx),
            Command::Finish { tx, outcome } => self.finish(*tx, outcome),
            Command::Watched { tx, watch } => self.watch(*tx, watch.get()),
            Command::RecordWatch { tx, vote, .. } => self.record_watch(*tx, vote),
        }
    }

    pub(crate) fn call(&mut self, client: u16, seq: u32, op: &Op) -> Result<Effect, OutOfMemory>
        ensures step { IfOk result
            (λ effect.
            called self.old.core.gone self.old.core.lock self.old client seq op.now
            ≡ (self.new, effect)) }
        ensures memory { OnErr result
            (Makes (called self.old.core.gone self.old.core.lock self.old client seq op.now)) }
    {
        if let Some(into) = &self.core.gone {
            return Ok(Effect::Gone { into: *into });
        }
        match held_back_by(&self.core.lock) {
            None => self.serve(client, seq, op),
            Some(tx) => Ok(Effect::NoEffect { tx }),
        }
    }

    fn serve(&mut self, client: u16, seq: u32, op: &Op) -> Result<Effect, OutOfMemory>
        ensures step { IfOk result (λ effect. served self.old client seq op.now ≡ (self.new, effect)) }
        ensures memory { OnErr result (Makes (served self.old client seq op.now)) }
    {
        if !holds_key(&self.core.arc, op) {
            return Ok(Effect::NotMine {
                arc: self.core.arc,
                succ: self.core.succ,
            });
        }
        match self.clients.seen(client, seq) {
            Seen::New => self.carry_out(client, seq, op),
            Seen::Again => self.repeat(client, seq, op),
            Seen::Stale { last } => Ok(Effect::Stale { last }),
        }
    }

    fn carry_out(&mut self, client: u16, seq: u32, op: &Op) -> Result<Effect, OutOfMemory>
        requires { seen_of (get self.old.clients client) seq ≡ Seen.New }
        ensures step { IfOk result (λ effect. done self.old client seq op.now ≡ (self.new, effect)) }
        ensures memory { OnErr result
            (Makes (served_by_note (get self.old.clients client) self.old client seq op.now)) }
    {
        let reply = self.store.apply(op)?;
        let noted = reply.dup(self.alloc)?;
        self.clients.note(client, seq, noted)?;
        Ok(Effect::Done(reply))
    }

    // Returns the recorded reply to a request that is the client's last one.
    fn repeat(&self, client: u16, seq: u32, op: &Op) -> Result<Effect, OutOfMemory>
        requires { seen_of (get self.now.clients client) seq ≡ Seen.Again }
        ensures step { IfOk result
            (λ effect.
            served_by_note (get self.now.clients client) self.now client seq op.now
            ≡ (self.now, effect)) }
        ensures memory { OnErr result
            (Makes (served_by_note (get self.now.clients client) self.now client seq op.now)) }
    {
        match self.clients.reply(client) {
            Some(reply) => Ok(Effect::Again(reply.dup(self.alloc)?)),
            None => unreachable!(),
        }
    }
}
