//! A group that takes part in another group's transaction: it votes, and executes the outcome.
ghost use Rattle.std.specs.Prelude.{◌≡◌, IfOk, OnOk, OnErr, Some, None, true, false, is_some, map, take, if◌then◌else◌};
ghost use Rattle.sc_group_table.specs.machine.Votes.{has_voted, past_of, voted_on, offer_voted, watched};
ghost use Rattle.sc_group_table.specs.machine.Finishes.{gone_group, gained, lost, moved, group_welcomed, participant_after, pred_after, closed, voted_after, party_freed, settled_in, watch_ended, finished};
ghost use Rattle.sc_group.specs.Memory.{Makes};

use crate::machine::Machine;
use sc_base::{Boxed, Draw, Dup, OutOfMemory, Sequence, same_draw};
use sc_group_parts::{
    ClientTable, Store, gained_arc, has_voted, lost_arc, take_over, vote, watch_vote,
    welcomed_members,
};
use sc_words::{Core, Effect, Gift, Link, Lock, No, Offer, Outcome, Past, Route, VotedList, Watch};
use std::alloc::Global;

fn past_of(why: Option<No>) -> Past
    ensures { result ≡ past_of why }
{
    match why {
        None => Past::Yes,
        Some(why) => Past::No(why),
    }
}

fn pred_after(outcome: &Outcome, next: Link, pred: Link) -> Link
    ensures { result ≡ pred_after outcome.now next pred }
{
    match outcome {
        Outcome::Abort => pred,
        Outcome::Merged { .. }
        | Outcome::Moved { .. }
        | Outcome::Migrated { .. }
        | Outcome::Divided => next,
    }
}

fn closed(tx: Draw, vote: (Draw, Past)) -> (Draw, Past)
    ensures { result ≡ closed tx vote }
{
    if same_draw(vote.0, tx) {
        return (vote.0, Past::Ended);
    }
    vote
}

fn closed_votes(alloc: Global, votes: &[(Draw, Past)], tx: Draw) -> Result<VotedList, OutOfMemory>
    ensures { IfOk result (λ after. after ≡ map (closed tx) votes.now) }
{
    let mut after = Sequence::new(alloc);
    for vote in votes {
        after.push(closed(tx, *vote))?;
    }
    Ok(after)
}

fn voted_after(alloc: Global, core: &Core, tx: Draw) -> Result<VotedList, OutOfMemory>
    ensures { IfOk result (λ votes. votes ≡ voted_after core.now tx) }
{
    if has_voted(core, tx) {
        return closed_votes(alloc, core.voted.as_slice(), tx);
    }
    let mut votes = core.voted.dup(alloc)?;
    votes.push((tx, Past::Ended))?;
    Ok(votes)
}

impl Machine {
    pub(crate) fn prepare(&mut self, tx: Draw, offer: &Offer) -> Result<Effect, OutOfMemory>
        ensures step { IfOk result (λ effect. offer_voted self.old tx offer.now ≡ (self.new, effect)) }
        ensures memory { OnErr result (Makes (offer_voted self.old tx offer.now)) }
    {
        let bond = Lock::Promised { tx, offer: *offer };
        match vote(&self.core, offer) {
            Ok(()) => self.cast(None, bond, tx),
            Err(why) => self.cast(Some(why), bond, tx),
        }
    }

    pub(crate) fn watch(&mut self, tx: Draw, watch: &Watch) -> Result<Effect, OutOfMemory>
        ensures step { IfOk result (λ effect. watched self.old tx watch.now ≡ (self.new, effect)) }
        ensures memory { OnErr result (Makes (watched self.old tx watch.now)) }
    {
        let bond = Lock::Watching { tx, watch: *watch };
        match watch_vote(&self.core, watch) {
            Ok(()) => self.cast(None, bond, tx),
            Err(why) => self.cast(Some(why), bond, tx),
        }
    }

    // Records a vote, unless there was one; a Yes binds the group.
    fn cast(&mut self, why: Option<No>, bond: Lock, tx: Draw) -> Result<Effect, OutOfMemory>
        ensures step { IfOk result (λ effect. voted_on why bond self.old tx ≡ (self.new, effect)) }
        ensures memory { OnErr result (Makes (voted_on why bond self.old tx)) }
    {
        if has_voted(&self.core, tx) {
            return Ok(Effect::NoEffect { tx });
        }
        let past = past_of(why);
        self.core.voted.push((tx, past))?;
        if why.is_none() {
            self.core.lock = bond;
        }
        Ok(Effect::Voted(past))
    }

    pub(crate) fn finish(&mut self, tx: Draw, outcome: &Outcome) -> Result<Effect, OutOfMemory>
        ensures step { IfOk result
            (λ effect. finished self.old.core.lock self.old tx outcome.now ≡ (self.new, effect)) }
        ensures memory { OnErr result (Makes (finished self.old.core.lock self.old tx outcome.now)) }
    {
        match &self.core.lock {
            Lock::Promised { tx: locked, offer } => {
                if !same_draw(*locked, tx) {
                    return Ok(Effect::NoEffect { tx });
                }
                let offer = *offer;
                self.finish_promised(tx, &offer, outcome)
            }
            Lock::Watching { tx: locked, watch } => {
                if !same_draw(*locked, tx) {
                    return Ok(Effect::NoEffect { tx });
                }
                let watch = *watch;
                self.finish_watching(tx, &watch, outcome)
            }
            Lock::Free | Lock::Coordinating { .. } => Ok(Effect::NoEffect { tx }),
        }
    }

    fn finish_promised(
        &mut self,
        tx: Draw,
        offer: &Offer,
        outcome: &Outcome,
    ) -> Result<Effect, OutOfMemory>
        ensures step { IfOk result
            (λ effect.
            settled_in (participant_after outcome.now self.old offer.now) self.old tx outcome.now
            ≡ (self.new, effect)) }
        ensures memory { OnErr result
            (Makes (settled_in (participant_after outcome.now self.old offer.now) self.old tx outcome.now)) }
    {
        if !self.take_outcome(offer, outcome)? {
            return Ok(Effect::NoEffect { tx });
        }
        self.end(tx)?;
        Ok(Effect::Decided(outcome.dup(self.alloc)?))
    }

    fn finish_watching(
        &mut self,
        tx: Draw,
        watch: &Watch,
        outcome: &Outcome,
    ) -> Result<Effect, OutOfMemory>
        ensures step { IfOk result
            (λ effect. watch_ended outcome.now self.old tx watch.now ≡ (self.new, effect)) }
        ensures memory { OnErr result (Makes (watch_ended outcome.now self.old tx watch.now)) }
    {
        self.core.pred = pred_after(outcome, watch.next, self.core.pred);
        self.end(tx)?;
        Ok(Effect::Decided(outcome.dup(self.alloc)?))
    }

    // Frees the party, and records that the transaction has ended.
    fn end(&mut self, tx: Draw) -> Result<(), OutOfMemory>
        ensures { OnOk result (self.new ≡ party_freed self.old tx) }
    {
        self.core.voted = voted_after(self.alloc, &self.core, tx)?;
        self.core.lock = Lock::Free;
        Ok(())
    }

    // Executes an outcome. Returns `false` where that cannot be done, and then nothing is changed.
    fn take_outcome(&mut self, offer: &Offer, outcome: &Outcome) -> Result<bool, OutOfMemory>
        ensures made { IfOk result
            (λ made.
            participant_after outcome.now self.old offer.now
            ≡ (if made then Some self.new else None)) }
        ensures same { IfOk result (λ made. made ≡ false → self.new ≡ self.old) }
        ensures memory { OnErr result (is_some (participant_after outcome.now self.old offer.now) ≡ true) }
    {
        match outcome {
            Outcome::Abort => Ok(true),
            Outcome::Merged { into } => {
                self.go_into(into);
                Ok(true)
            }
            Outcome::Moved { at, gift } => self.take_move(offer, *at, gift),
            Outcome::Migrated { node } => Ok(self.welcome(*node)),
            Outcome::Divided => Ok(false),
        }
    }

    fn go_into(&mut self, into: &Route)
        ensures { self.new ≡ gone_group self.old into.now }
    {
        self.core.gone = Some(*into);
        self.store = Store::new(self.alloc);
        self.clients = ClientTable::new(self.alloc);
    }

    fn take_move(
        &mut self,
        offer: &Offer,
        at: u32,
        gift: &Option<Boxed<Gift>>,
    ) -> Result<bool, OutOfMemory>
        ensures made { IfOk result
            (λ made.
            moved gift.now self.old offer.now at ≡ (if made then Some self.new else None)) }
        ensures same { IfOk result (λ made. made ≡ false → self.new ≡ self.old) }
        ensures memory { OnErr result (is_some (moved gift.now self.old offer.now at) ≡ true) }
    {
        match gift {
            Some(gift) => self.gain(offer, at, gift.get()),
            None => Ok(self.lose(at)),
        }
    }

    fn gain(&mut self, offer: &Offer, at: u32, gift: &Gift) -> Result<bool, OutOfMemory>
        ensures made { IfOk result
            (λ made.
            gained self.old offer.now at gift.now ≡ (if made then Some self.new else None)) }
        ensures same { IfOk result (λ made. made ≡ false → self.new ≡ self.old) }
        ensures memory { OnErr result (is_some (gained self.old offer.now at gift.now) ≡ true) }
    {
        if self.store.has_any(&gift.pairs) {
            return Ok(false);
        }
        match gained_arc(&self.core, offer, at) {
            None => Ok(false),
            Some(arc) => {
                take_over(
                    &mut self.store,
                    &mut self.clients,
                    &gift.pairs,
                    &gift.clients,
                )?;
                self.core.arc = arc;
                Ok(true)
            }
        }
    }

    fn lose(&mut self, at: u32) -> bool
        ensures made { lost self.old at ≡ (if result then Some self.new else None) }
        ensures same { result ≡ false → self.new ≡ self.old }
    {
        match lost_arc(&self.core, at) {
            None => false,
            Some(arc) => {
                self.store.keep(&arc);
                self.core.arc = arc;
                true
            }
        }
    }

    fn welcome(&mut self, node: u16) -> bool
        ensures made { group_welcomed self.old node ≡ (if result then Some self.new else None) }
        ensures same { result ≡ false → self.new ≡ self.old }
    {
        match welcomed_members(&self.core, node) {
            None => false,
            Some(members) => {
                self.core.members = members;
                true
            }
        }
    }
}
