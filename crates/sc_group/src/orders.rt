//! Orders on a group.
ghost use Rattle.std.specs.Prelude.{◌≡◌, ◌<◌, ℕ, IfOk, OnOk, OnErr, MatchOption, Some, None, true};
ghost use Rattle.sc_words.specs.declared.commands.commands.Command.TheVariants.{Join, Leave, Split, Begin};
ghost use Rattle.sc_words.specs.declared.commands.effects.Effect.TheVariants.{Refused};
ghost use Rattle.sc_group_table.specs.machine.Group.{Group};
ghost use Rattle.sc_group_table.specs.machine.Machine.{ordered_by, split_group};
ghost use Rattle.sc_group_table.specs.machine.Orders.{ordered, refusal_of, refused_free, join_refused, leave_refused, split_refused, with_node, without_node};
ghost use Rattle.sc_group_table.specs.machine.Splits.{CanSplit, left_group};
ghost use Rattle.sc_group_table.specs.machine.Transactions.{begun_group};
ghost use Rattle.sc_group_parts.specs.transactions.Checked.{is_checked};
ghost use Rattle.sc_group.specs.Memory.{Makes};

use crate::machine::Machine;
use sc_base::{Draw, OutOfMemory};
use sc_group_parts::{check, has_named, plan_split};
use sc_words::{Body, Command, Effect, Lock, OrderRefusal};

impl Machine {
    // Returns why an order is refused, if it is. A group that is gone has no leader.
    #[tactic(auto, using(crate::proofs::Accepted::free_of))]
    fn refusal(&self, command: &Command) -> Option<OrderRefusal>
        requires { is_checked command.now ≡ true }
        ensures { MatchOption result
            ((self.now.core.gone ≡ None)
            × (refusal_of self.now.core command.now ≡ None)
            × (refused_free self.now.core command.now ≡ None))
            (λ why. (after : Group)
            → ordered self.now.core.gone (refusal_of self.now.core command.now) after self.now
            ≡ (self.now, Refused why)) }
    {
        if self.core.gone.is_some() {
            return Some(OrderRefusal::NotLeader { hint: None });
        }
        match check(&self.core, command) {
            Ok(()) => None,
            Err(why) => Some(why),
        }
    }

    pub(crate) fn join(&mut self, command: &Command, node: u16) -> Effect
        requires { (order : ℕ) × (command.now ≡ Join node order) }
        ensures { ordered_by None (refusal_of self.old.core command.now) (with_node self.old node)
            self.old
            ≡ (self.new, result) }
    {
        if let Some(why) = self.refusal(command) {
            return Effect::Refused(why);
        }
        self.add(node);
        Effect::Changed
    }

    // Adds a node to the members.
    #[tactic(auto, using(crate::proofs::Accepted::can_join))]
    fn add(&mut self, node: u16)
        requires { join_refused self.old.core node ≡ None }
        ensures { self.new ≡ with_node self.old node }
    {
        match self.core.members.add(node) {
            Ok(()) => {}
            Err(_) => unreachable!(),
        }
    }

    pub(crate) fn leave(&mut self, command: &Command, node: u16) -> Effect
        requires { (order : ℕ) × (command.now ≡ Leave node order) }
        ensures { ordered_by None (refusal_of self.old.core command.now)
            (without_node self.old node) self.old
            ≡ (self.new, result) }
    {
        if let Some(why) = self.refusal(command) {
            return Effect::Refused(why);
        }
        self.remove(node);
        Effect::Changed
    }

    // Removes a node from the members.
    #[tactic(auto, using(crate::proofs::Accepted::can_leave))]
    fn remove(&mut self, node: u16)
        requires { leave_refused self.old.core node ≡ None }
        ensures { self.new ≡ without_node self.old node }
    {
        match self.core.members.remove(node) {
            Ok(()) => {}
            Err(_) => unreachable!(),
        }
    }

    #[tactic(auto, using(crate::proofs::Accepted::can_begin))]
    pub(crate) fn begin(&mut self, command: &Command, tx: Draw, body: &Body, order: u32) -> Effect
        requires { command.now ≡ Begin tx body.now order }
        ensures { ordered_by (Some tx) (refusal_of self.old.core command.now)
            (begun_group self.old tx body.now order) self.old
            ≡ (self.new, result) }
    {
        if has_named(&self.core, tx) {
            return Effect::NoEffect { tx };
        }
        if let Some(why) = self.refusal(command) {
            return Effect::Refused(why);
        }
        self.lock_for(tx, *body, order);
        Effect::Changed
    }

    // Begins a transaction.
    fn lock_for(&mut self, tx: Draw, body: Body, order: u32)
        requires { self.old.core.begun < 256 }
        ensures { self.new ≡ begun_group self.old tx body order }
    {
        self.core.lock = Lock::Coordinating {
            tx,
            body,
            order,
            heard: None,
        };
        self.core.begun += 1;
    }

    pub(crate) fn split(
        &mut self,
        command: &Command,
        at: u32,
        child: Draw,
        order: u32,
    ) -> Result<Effect, OutOfMemory>
        requires { command.now ≡ Split at child order }
        ensures step { IfOk result
            (λ effect.
            ordered_by (Some child) (refusal_of self.old.core command.now)
            (split_group self.old at child order) self.old
            ≡ (self.new, effect)) }
        ensures memory { OnErr result
            (Makes (ordered_by (Some child) (refusal_of self.old.core command.now)
            (split_group self.old at child order) self.old)) }
    {
        if has_named(&self.core, child) {
            return Ok(Effect::NoEffect { tx: child });
        }
        if let Some(why) = self.refusal(command) {
            return Ok(Effect::Refused(why));
        }
        self.divide(at, child, order)?;
        Ok(Effect::Changed)
    }

    // Splits a group that is its own successor, and locks another one.
    #[tactic(auto, using(crate::proofs::Accepted::can_split, crate::proofs::Accepted::can_lock))]
    fn divide(&mut self, at: u32, child: Draw, order: u32) -> Result<(), OutOfMemory>
        requires { split_refused self.old.core at ≡ None }
        ensures { OnOk result (self.new ≡ split_group self.old at child order) }
    {
        if !self.core.is_alone() {
            self.lock_for(child, Body::Split { at, child }, order);
            return Ok(());
        }
        let _some = self.core.members.len();
        self.leave_right_part(at, child)
    }

    /// Gives what lies from `at` on to the child.
    pub(crate) fn leave_right_part(&mut self, at: u32, child: Draw) -> Result<(), OutOfMemory>
        requires { CanSplit self.old.core at }
        ensures { OnOk result (self.new ≡ left_group self.old at child) }
    {
        let (left, _child) = plan_split(self.alloc, &self.core, at, child)?;
        self.store.keep(&left.arc);
        self.core = left;
        Ok(())
    }
}
