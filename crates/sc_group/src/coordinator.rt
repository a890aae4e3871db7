//! A group that coordinates a transaction: what it does with the votes, and what it decides.
ghost use Rattle.std.specs.Prelude.{◌≡◌, ◌⊎◌, true, false, IfOk, OnErr};
ghost use Rattle.sc_group_table.specs.machine.Transactions.{decided, granted, participant_answered, asks_watcher, vote_recorded, released, watch_answered, watch_recorded, is_coordinating, given_up};
ghost use Rattle.sc_group.specs.Memory.{Makes, LooksThrough, MayLookThrough, LockLooksThrough};

use crate::machine::Machine;
use sc_base::{Draw, Dup, OutOfMemory, same_draw};
use sc_group_parts::{can_split, decides_alone, note_decision};
use sc_words::{Body, Effect, Frozen, Heard, Lock, Outcome, Past, Vote};

fn asks_watcher(body: &Body, heard: &Option<Heard>) -> bool
    ensures { result ≡ asks_watcher body.now heard.now }
{
    match body {
        Body::Split { .. } => true,
        Body::Merge | Body::Repart { .. } | Body::Migrate { .. } => heard.is_some(),
    }
}

fn is_coordinating(lock: &Lock, tx: Draw) -> bool
    ensures { result ≡ is_coordinating lock.now tx }
{
    match lock {
        Lock::Coordinating { tx: locked, .. } => same_draw(*locked, tx),
        Lock::Free | Lock::Promised { .. } | Lock::Watching { .. } => false,
    }
}

impl Machine {
    pub(crate) fn give_up(&mut self, tx: Draw) -> Result<Effect, OutOfMemory>
        ensures step { IfOk result (λ effect. given_up self.old tx ≡ (self.new, effect)) }
        ensures memory { OnErr result (Makes (given_up self.old tx)) }
    {
        if !is_coordinating(&self.core.lock, tx) {
            return Ok(Effect::NoEffect { tx });
        }
        self.decide(tx, Outcome::Abort)
    }

    pub(crate) fn record_vote(
        &mut self,
        tx: Draw,
        vote: &Vote,
        by: u16,
    ) -> Result<Effect, OutOfMemory>
        ensures step { IfOk result
            (λ effect.
            vote_recorded self.old.core.lock self.old tx vote.now by ≡ (self.new, effect)) }
        ensures memory { OnErr result
            (Makes (vote_recorded self.old.core.lock self.old tx vote.now by)
            ⊎ LockLooksThrough self.old.core.lock vote.now self.old) }
    {
        match &self.core.lock {
            Lock::Coordinating {
                tx: locked,
                body,
                order,
                heard,
            } => {
                if !same_draw(*locked, tx) || asks_watcher(body, heard) {
                    return Ok(Effect::NoEffect { tx });
                }
                let (body, order) = (*body, *order);
                self.count_vote(vote, &body, tx, order, by)
            }
            Lock::Free | Lock::Promised { .. } | Lock::Watching { .. } => {
                Ok(Effect::NoEffect { tx })
            }
        }
    }

    fn count_vote(
        &mut self,
        vote: &Vote,
        body: &Body,
        tx: Draw,
        order: u32,
        by: u16,
    ) -> Result<Effect, OutOfMemory>
        ensures step { IfOk result
            (λ effect.
            participant_answered vote.now body.now self.old tx order by ≡ (self.new, effect)) }
        ensures memory { OnErr result
            (Makes (participant_answered vote.now body.now self.old tx order by)
            ⊎ MayLookThrough vote.now body.now self.old) }
    {
        match vote {
            Vote::Yes(frozen) => self.grant(body, frozen.get(), tx, order, by),
            Vote::No(_) => self.decide(tx, Outcome::Abort),
        }
    }

    fn grant(
        &mut self,
        body: &Body,
        frozen: &Frozen,
        tx: Draw,
        order: u32,
        by: u16,
    ) -> Result<Effect, OutOfMemory>
        ensures step { IfOk result
            (λ effect. granted body.now self.old tx order frozen.now by ≡ (self.new, effect)) }
        ensures memory { OnErr result
            (Makes (granted body.now self.old tx order frozen.now by)
            ⊎ LooksThrough body.now self.old frozen.now) }
    {
        match body {
            Body::Merge => self.hear_merge(frozen, tx, order, by),
            Body::Repart { at } => self.commit_repart(tx, *at, frozen),
            Body::Migrate { node } => self.commit_migrate(tx, *node, frozen),
            Body::Split { .. } => Ok(Effect::NoEffect { tx }),
        }
    }

    // A merge asks the watcher next, unless the two groups make the ring.
    fn hear_merge(
        &mut self,
        frozen: &Frozen,
        tx: Draw,
        order: u32,
        by: u16,
    ) -> Result<Effect, OutOfMemory>
        ensures step { IfOk result
            (λ effect. granted Body.Merge self.old tx order frozen.now by ≡ (self.new, effect)) }
        ensures memory { OnErr result (Makes (granted Body.Merge self.old tx order frozen.now by)) }
    {
        if decides_alone(&self.core, frozen) {
            return self.commit_closing(tx, frozen);
        }
        let heard = Heard {
            frozen: frozen.dup(self.alloc)?,
            by,
        };
        self.core.lock = Lock::Coordinating {
            tx,
            body: Body::Merge,
            order,
            heard: Some(heard),
        };
        Ok(Effect::Changed)
    }

    pub(crate) fn record_watch(&mut self, tx: Draw, vote: &Past) -> Result<Effect, OutOfMemory>
        ensures step { IfOk result
            (λ effect.
            watch_recorded self.old.core.lock self.old tx vote.now ≡ (self.new, effect)) }
        ensures memory { OnErr result
            (Makes (watch_recorded self.old.core.lock self.old tx vote.now)) }
    {
        match &self.core.lock {
            Lock::Coordinating {
                tx: locked,
                body,
                heard,
                ..
            } => {
                if !same_draw(*locked, tx)
                    || !asks_watcher(body, heard)
                    || !self.counts_watch(vote, body, heard, tx)
                {
                    return Ok(Effect::NoEffect { tx });
                }
                let (body, heard) = (*body, heard.dup(self.alloc)?);
                self.count_watch(vote, &body, &heard, tx)
            }
            Lock::Free | Lock::Promised { .. } | Lock::Watching { .. } => {
                Ok(Effect::NoEffect { tx })
            }
        }
    }

    // Returns whether a watcher's vote has an effect. Only then the recorded Yes is copied, which
    // may fail.
    fn counts_watch(&self, vote: &Past, body: &Body, heard: &Option<Heard>, tx: Draw) -> bool
        ensures some { result ≡ true →
            Makes (watch_answered vote.now body.now heard.now self.now tx) }
        ensures none { result ≡ false →
            watch_answered vote.now body.now heard.now self.now tx ≡ (self.now, Effect.NoEffect tx) }
    {
        match vote {
            Past::Yes => self.may_release(body, heard, tx),
            Past::No(_) | Past::Ended => true,
        }
    }

    fn may_release(&self, body: &Body, heard: &Option<Heard>, tx: Draw) -> bool
        ensures some { result ≡ true → Makes (released body.now heard.now self.now tx) }
        ensures none { result ≡ false →
            released body.now heard.now self.now tx ≡ (self.now, Effect.NoEffect tx) }
    {
        match body {
            Body::Merge => match heard {
                Some(heard) => self.may_merge(&heard.frozen),
                None => false,
            },
            Body::Split { at, .. } => can_split(&self.core, *at),
            Body::Repart { .. } | Body::Migrate { .. } => false,
        }
    }

    fn count_watch(
        &mut self,
        vote: &Past,
        body: &Body,
        heard: &Option<Heard>,
        tx: Draw,
    ) -> Result<Effect, OutOfMemory>
        ensures step { IfOk result
            (λ effect.
            watch_answered vote.now body.now heard.now self.old tx ≡ (self.new, effect)) }
        ensures memory { OnErr result
            (Makes (watch_answered vote.now body.now heard.now self.old tx)) }
    {
        match vote {
            Past::Yes => self.release(body, heard, tx),
            Past::No(_) | Past::Ended => self.decide(tx, Outcome::Abort),
        }
    }

    fn release(
        &mut self,
        body: &Body,
        heard: &Option<Heard>,
        tx: Draw,
    ) -> Result<Effect, OutOfMemory>
        ensures step { IfOk result
            (λ effect. released body.now heard.now self.old tx ≡ (self.new, effect)) }
        ensures memory { OnErr result (Makes (released body.now heard.now self.old tx)) }
    {
        match body {
            Body::Merge => match heard {
                Some(heard) => self.commit_merge(tx, &heard.frozen),
                None => Ok(Effect::NoEffect { tx }),
            },
            Body::Split { at, child } => self.commit_split(tx, *at, *child),
            Body::Repart { .. } | Body::Migrate { .. } => Ok(Effect::NoEffect { tx }),
        }
    }

    // Records the decision, and frees the group.
    pub(crate) fn decide(&mut self, tx: Draw, outcome: Outcome) -> Result<Effect, OutOfMemory>
        ensures { IfOk result (λ effect. decided self.old tx outcome ≡ (self.new, effect)) }
    {
        let noted = outcome.dup(self.alloc)?;
        note_decision(&mut self.core, tx, noted)?;
        Ok(Effect::Decided(outcome))
    }
}
