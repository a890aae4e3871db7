//! The child that an entry makes.
ghost use Rattle.std.specs.Prelude.{◌≡◌, IfOk, IsOk, Some, None, false, if◌then◌else◌};
ghost use Rattle.sc_words.specs.declared.commands.commands.Command.TheVariants.{Split};
ghost use Rattle.sc_group_table.specs.machine.Orders.{refusal_of, split_refused};
ghost use Rattle.sc_group_table.specs.machine.Plans.{can_split};
ghost use Rattle.sc_group_table.specs.machine.Splits.{CanSplit, child_of};
ghost use Rattle.sc_group_table.specs.machine.Children.{ordered_child, split_child, released_child, answered_child, watched_child, child_by};

use crate::machine::Machine;
use sc_base::{Draw, OutOfMemory, same_draw};
use sc_group_parts::{can_split, check, has_named, plan_split};
use sc_words::{Base, Body, Command, Lock, Past};

impl Machine {
    /// Returns the record of the child where the group is split at `at`, taken before the entry
    /// that splits is applied. The caller has asked `can_split` whether the group can be split
    /// there.
    pub fn child(&self, at: u32, child: Draw) -> Result<Base, OutOfMemory>
        requires { CanSplit self.now.core at }
        ensures { IfOk result (λ base. base ≡ child_of self.now at child) }
    {
        let (_left, core) = plan_split(self.alloc, &self.core, at, child)?;
        let pairs = self.store.part(&core.arc)?;
        let clients = self.clients.list()?;
        Ok(Base {
            core,
            pairs,
            clients,
        })
    }

    /// Returns the record of the child that a command makes of the group, if it makes one, taken
    /// before the command is applied: a split without a transaction makes one, and a watcher's Yes
    /// that carries a split out. Fails only where the command makes a child.
    pub fn child_by(&self, command: &Command) -> Result<Option<Base>, OutOfMemory>
        ensures child { IfOk result (λ child. child ≡ child_by self.now command.now) }
        ensures none { child_by self.now command.now ≡ None → IsOk result }
    {
        match command {
            Command::Split { at, child, order } => self.split_child(command, *at, *child, *order),
            Command::RecordWatch { tx, vote, .. } => self.watched_child(*tx, vote),
            Command::Noop
            | Command::Call { .. }
            | Command::Join { .. }
            | Command::Leave { .. }
            | Command::Begin { .. }
            | Command::Prepared { .. }
            | Command::RecordVote { .. }
            | Command::GiveUp { .. }
            | Command::Finish { .. }
            | Command::Watched { .. } => Ok(None),
        }
    }

    // Returns the child of a `Split`, unless it is refused or only locks the group.
    #[tactic(auto, using(crate::proofs::Accepted::free_of))]
    fn split_child(
        &self,
        command: &Command,
        at: u32,
        child: Draw,
        order: u32,
    ) -> Result<Option<Base>, OutOfMemory>
        requires { command.now ≡ Split at child order }
        ensures child { IfOk result
            (λ base. base ≡ split_child (refusal_of self.now.core command.now) self.now at child) }
        ensures none { split_child (refusal_of self.now.core command.now) self.now at child ≡ None
            → IsOk result }
    {
        if has_named(&self.core, child) || self.core.gone.is_some() {
            return Ok(None);
        }
        match check(&self.core, command) {
            Ok(()) => self.lone_child(at, child),
            Err(_) => Ok(None),
        }
    }

    // Returns the child of an accepted `Split`: a group with another successor only locks, and has
    // none yet.
    #[tactic(auto, using(crate::proofs::Accepted::can_split))]
    fn lone_child(&self, at: u32, child: Draw) -> Result<Option<Base>, OutOfMemory>
        requires { split_refused self.now.core at ≡ None }
        ensures child { IfOk result (λ base. base ≡ ordered_child None None self.now at child) }
        ensures none { ordered_child None None self.now at child ≡ None → IsOk result }
    {
        if !self.core.is_alone() {
            return Ok(None);
        }
        let _some = self.core.members.len();
        Ok(Some(self.child(at, child)?))
    }

    // Returns the child that a watcher's vote on this transaction makes, if it makes one.
    fn watched_child(&self, tx: Draw, vote: &Past) -> Result<Option<Base>, OutOfMemory>
        ensures child { IfOk result
            (λ base. base ≡ watched_child self.now.core.lock self.now tx vote.now) }
        ensures none { watched_child self.now.core.lock self.now tx vote.now ≡ None
            → IsOk result }
    {
        match &self.core.lock {
            Lock::Coordinating {
                tx: locked,
                body,
                ..
            } => {
                if !same_draw(*locked, tx) {
                    return Ok(None);
                }
                self.answered_child(vote, body)
            }
            Lock::Free | Lock::Promised { .. } | Lock::Watching { .. } => Ok(None),
        }
    }

    // Returns the child that a watcher's vote makes: only a Yes carries the split out.
    fn answered_child(&self, vote: &Past, body: &Body) -> Result<Option<Base>, OutOfMemory>
        ensures child { IfOk result (λ base. base ≡ answered_child vote.now body.now self.now) }
        ensures none { answered_child vote.now body.now self.now ≡ None → IsOk result }
    {
        match vote {
            Past::Yes => self.released_child(body),
            Past::No(_) | Past::Ended => Ok(None),
        }
    }

    fn released_child(&self, body: &Body) -> Result<Option<Base>, OutOfMemory>
        ensures child { IfOk result (λ base. base ≡ released_child body.now self.now) }
        ensures none { released_child body.now self.now ≡ None → IsOk result }
    {
        match body {
            Body::Split { at, child } => self.planned_child(*at, *child),
            Body::Merge | Body::Repart { .. } | Body::Migrate { .. } => Ok(None),
        }
    }

    // Returns the child of a split that can be made.
    fn planned_child(&self, at: u32, child: Draw) -> Result<Option<Base>, OutOfMemory>
        ensures child { IfOk result
            (λ base.
            base
            ≡ (if can_split self.now.core at then Some (child_of self.now at child) else None)) }
        ensures none { can_split self.now.core at ≡ false → IsOk result }
    {
        if !can_split(&self.core, at) {
            return Ok(None);
        }
        Ok(Some(self.child(at, child)?))
    }
}
