//! What a group that commits a transaction makes of itself, by the plan of each kind.
ghost use Rattle.std.specs.Prelude.{◌≡◌, IfOk, OnOk, OnErr, Some, None, true, false, not, if◌then◌else◌};
ghost use Rattle.sc_base.specs.Arc.{holds};
ghost use Rattle.sc_words.specs.ideal.IdealStore.{part_of, with_pairs};
ghost use Rattle.std.specs.FinMap.{empty, entries};
ghost use Rattle.sc_group_table.specs.machine.Plans.{has_key_of, can_repart, can_migrate, can_split, repart_core, taken, may_merge, merge_plan, closing_plan, repart_plan, giving_plan, taking_plan, migrate_plan, split_plan, enriched};
ghost use Rattle.sc_group_table.specs.machine.Transactions.{committed, decided};

use crate::machine::Machine;
use sc_base::{Boxed, Draw, OutOfMemory, Pairs, RingArc, SeenList};
use sc_group_parts::{
    Store, can_merge, can_migrate, can_repart, can_split, plan_merge, plan_migrate, plan_repart,
    take_over,
};
use sc_words::{Core, Effect, Frozen, Gift, Link, Outcome, Route};
use std::alloc::Global;

// Returns the route to a group with this record.
fn route_of(core: &Core) -> Route
    ensures { result
        ≡ record { group = core.now.id; lo = core.now.arc.lo; members = core.now.members } }
{
    Route {
        group: core.id,
        lo: core.arc.lo(),
        members: core.members,
    }
}

// Returns those of the pairs that lie on an arc.
fn pairs_on(alloc: Global, pairs: &Pairs, arc: &RingArc) -> Result<Pairs, OutOfMemory>
    ensures { IfOk result (λ part. part ≡ entries (part_of arc.now (with_pairs empty pairs.now))) }
{
    let mut store = Store::new(alloc);
    store.join(pairs)?;
    store.part(arc)
}

impl Machine {
    pub(crate) fn may_merge(&self, frozen: &Frozen) -> bool
        ensures { result ≡ may_merge self.now frozen.now }
    {
        can_merge(&self.core, frozen) && !self.store.has_any(&frozen.pairs)
    }

    /// Gives the group this record, and adds pairs and a client table to its own.
    pub(crate) fn enrich(
        &mut self,
        core: Core,
        pairs: &Pairs,
        clients: &SeenList,
    ) -> Result<(), OutOfMemory>
        ensures { OnOk result
            (self.new
            ≡ enriched self.old core (record { pairs = pairs.now; clients = clients.now })) }
    {
        take_over(&mut self.store, &mut self.clients, pairs, clients)?;
        self.core = core;
        Ok(())
    }

    pub(crate) fn commit_merge(&mut self, tx: Draw, frozen: &Frozen) -> Result<Effect, OutOfMemory>
        ensures step { IfOk result
            (λ effect.
            committed (merge_plan self.old frozen.now) self.old tx ≡ (self.new, effect)) }
        ensures memory { OnErr result (may_merge self.old frozen.now ≡ true) }
    {
        if !self.may_merge(frozen) {
            return Ok(Effect::NoEffect { tx });
        }
        let core = plan_merge(self.alloc, &self.core, frozen)?;
        let into = route_of(&core);
        self.enrich(core, &frozen.pairs, &frozen.clients)?;
        self.decide(tx, Outcome::Merged { into })
    }

    // Commits a merge of the two groups that make the ring: the merged group is its own
    // predecessor.
    pub(crate) fn commit_closing(
        &mut self,
        tx: Draw,
        frozen: &Frozen,
    ) -> Result<Effect, OutOfMemory>
        ensures step { IfOk result
            (λ effect.
            committed (closing_plan self.old frozen.now) self.old tx ≡ (self.new, effect)) }
        ensures memory { OnErr result (may_merge self.old frozen.now ≡ true) }
    {
        if !self.may_merge(frozen) {
            return Ok(Effect::NoEffect { tx });
        }
        let mut core = plan_merge(self.alloc, &self.core, frozen)?;
        core.pred = Link {
            group: core.id,
            members: core.members,
        };
        let into = route_of(&core);
        self.enrich(core, &frozen.pairs, &frozen.clients)?;
        self.decide(tx, Outcome::Merged { into })
    }

    pub(crate) fn commit_repart(
        &mut self,
        tx: Draw,
        at: u32,
        frozen: &Frozen,
    ) -> Result<Effect, OutOfMemory>
        ensures step { IfOk result
            (λ effect.
            committed (repart_plan self.old at frozen.now) self.old tx ≡ (self.new, effect)) }
        ensures memory { OnErr result (can_repart self.old.core at frozen.now ≡ true) }
    {
        if self.core.arc.holds(at) {
            self.give(tx, at, frozen)
        } else {
            self.take(tx, at, frozen)
        }
    }

    // Commits a moved boundary where the successor gets what lies from `at` on, and the client
    // table.
    fn give(&mut self, tx: Draw, at: u32, frozen: &Frozen) -> Result<Effect, OutOfMemory>
        requires { holds self.old.core.arc at ≡ true }
        ensures step { IfOk result
            (λ effect.
            committed (giving_plan self.old at frozen.now) self.old tx ≡ (self.new, effect)) }
        ensures memory { OnErr result (can_repart self.old.core at frozen.now ≡ true) }
    {
        if !can_repart(&self.core, at, frozen) {
            return Ok(Effect::NoEffect { tx });
        }
        let (core, moved) = plan_repart(self.alloc, &self.core, at, frozen)?;
        let gift = Gift {
            pairs: self.store.part(&moved)?,
            clients: self.clients.list()?,
        };
        self.store.keep(&core.arc);
        self.core = core;
        self.decide(
            tx,
            Outcome::Moved {
                at,
                gift: Some(Boxed::new(self.alloc, gift)?),
            },
        )
    }

    // Commits a moved boundary where the group takes what its successor has before `at`, and joins
    // its client table.
    fn take(&mut self, tx: Draw, at: u32, frozen: &Frozen) -> Result<Effect, OutOfMemory>
        requires { holds self.old.core.arc at ≡ false }
        ensures step { IfOk result
            (λ effect.
            committed (taking_plan self.old at frozen.now) self.old tx ≡ (self.new, effect)) }
        ensures memory { OnErr result (can_repart self.old.core at frozen.now ≡ true) }
    {
        if !can_repart(&self.core, at, frozen) {
            return Ok(Effect::NoEffect { tx });
        }
        let (core, pairs) = self.taking(at, frozen)?;
        self.take_over(tx, at, core, &pairs, &frozen.clients)
    }

    // Commits a moved boundary where the group takes these pairs, unless a key is there already.
    fn take_over(
        &mut self,
        tx: Draw,
        at: u32,
        core: Core,
        pairs: &Pairs,
        clients: &SeenList,
    ) -> Result<Effect, OutOfMemory>
        ensures step { IfOk result
            (λ effect.
            committed
            (if not (has_key_of self.old.pairs pairs.now)
            then Some (
              enriched self.old core (record { pairs = pairs.now; clients = clients.now }),
              Outcome.Moved at None,
            )
            else None) self.old tx
            ≡ (self.new, effect)) }
        ensures memory { OnErr result (has_key_of self.old.pairs pairs.now ≡ false) }
    {
        if self.store.has_any(pairs) {
            return Ok(Effect::NoEffect { tx });
        }
        self.take_in(tx, at, core, pairs, clients)
    }

    fn take_in(
        &mut self,
        tx: Draw,
        at: u32,
        core: Core,
        pairs: &Pairs,
        clients: &SeenList,
    ) -> Result<Effect, OutOfMemory>
        ensures { IfOk result
            (λ effect.
            decided
            (enriched self.old core (record { pairs = pairs.now; clients = clients.now })) tx
            (Outcome.Moved at None)
            ≡ (self.new, effect)) }
    {
        self.enrich(core, pairs, clients)?;
        self.decide(tx, Outcome::Moved { at, gift: None })
    }

    // Returns the record of the group that takes, and the pairs that it takes.
    fn taking(&self, at: u32, frozen: &Frozen) -> Result<(Core, Pairs), OutOfMemory>
        requires takes { holds self.now.core.arc at ≡ false }
        requires can { can_repart self.now.core at frozen.now ≡ true }
        ensures { IfOk result
            (λ plan.
            plan ≡ (repart_core self.now.core at frozen.now, (taken at frozen.now).pairs)) }
    {
        let (core, moved) = plan_repart(self.alloc, &self.core, at, frozen)?;
        let pairs = pairs_on(self.alloc, &frozen.pairs, &moved)?;
        Ok((core, pairs))
    }

    pub(crate) fn commit_migrate(
        &mut self,
        tx: Draw,
        node: u16,
        frozen: &Frozen,
    ) -> Result<Effect, OutOfMemory>
        ensures step { IfOk result
            (λ effect.
            committed (migrate_plan self.old node frozen.now) self.old tx ≡ (self.new, effect)) }
        ensures memory { OnErr result (can_migrate self.old.core node frozen.now ≡ true) }
    {
        if !can_migrate(&self.core, node, frozen) {
            return Ok(Effect::NoEffect { tx });
        }
        self.core = plan_migrate(self.alloc, &self.core, node, frozen)?;
        self.decide(tx, Outcome::Migrated { node })
    }

    pub(crate) fn commit_split(
        &mut self,
        tx: Draw,
        at: u32,
        child: Draw,
    ) -> Result<Effect, OutOfMemory>
        ensures step { IfOk result
            (λ effect. committed (split_plan self.old at child) self.old tx ≡ (self.new, effect)) }
        ensures memory { OnErr result (can_split self.old.core at ≡ true) }
    {
        if !can_split(&self.core, at) {
            return Ok(Effect::NoEffect { tx });
        }
        self.leave_right_part(at, child)?;
        self.decide(tx, Outcome::Divided)
    }
}
