//! The effect of an entry that a group's log executes.
ghost use Rattle.std.specs.Prelude.{◌≡◌, Some, None, MatchBool};
ghost use Rattle.std.specs.Option.{option_copied};
ghost use Rattle.sc_words.specs.declared.commands.votes.Outcome.{Outcome};
ghost use Rattle.sc_words.specs.commands.Effects.{is_changed, is_divided, refused_result, result_of, decided_in, cast_in};

use crate::commands::links::{Link, Route};
use crate::commands::orders::{OrderRefusal, OrderResult};
use crate::commands::votes::{Outcome, Past};
use sc_base::{Draw, Dup, OutOfMemory, Reply, RingArc};
use std::alloc::Global;

/// The effect of an executed entry.
#[derive(Clone, Drop)]
pub enum Effect {
    /// The operation was applied.
    Done(Reply),
    /// The request was applied before, with this reply.
    Again(Reply),
    /// The client's later request `last` was applied before.
    Stale { last: u32 },
    /// The key belongs to another group.
    NotMine { arc: RingArc, succ: Link },
    /// The group was merged into another.
    Gone { into: Route },
    /// Nothing changed, by an entry that names this transaction or new group.
    NoEffect { tx: Draw },
    /// Nothing changed: the entry fills a gap.
    Idle,
    /// An order was carried out or begun, or the participant's Yes to a merge was recorded.
    Changed,
    /// The group has voted.
    Voted(Past),
    /// The coordinator has decided, or a party has executed the decision.
    Decided(Outcome),
    /// An order is refused.
    Refused(OrderRefusal),
}

impl Effect {
    /// Returns whether the effect is `Changed`: of an entry of an order, whether the order was
    /// carried out or begun.
    pub fn is_changed(&self) -> bool
        ensures { result ≡ is_changed self.now }
    {
        matches!(self, Effect::Changed)
    }

    /// Returns whether a split was decided.
    pub fn is_divided(&self) -> bool
        ensures { result ≡ is_divided self.now }
    {
        matches!(self, Effect::Decided(Outcome::Divided))
    }

    /// Returns the result to report of an order that was refused when it was executed, or `None`
    /// where it was not refused.
    pub fn refused(&self) -> Option<OrderResult>
        ensures { result ≡ refused_result self.now }
    {
        match self {
            Effect::Refused(why) => Some(OrderResult::Refused(*why)),
            _ => None,
        }
    }

    /// Returns the result to report of an order that one entry carries out, or `None` where the
    /// entry ends no order.
    pub fn reported(&self) -> Option<OrderResult>
        ensures { result ≡ result_of self.now }
    {
        match self {
            Effect::Changed => Some(OrderResult::Done),
            Effect::Refused(why) => Some(OrderResult::Refused(*why)),
            _ => None,
        }
    }

    /// Returns whether the entry decided an outcome. An entry without effect decided none,
    /// whatever command it has.
    pub fn has_outcome(&self) -> bool
        ensures { MatchBool result ((outcome : Outcome) × (decided_in self.now ≡ Some outcome))
            (decided_in self.now ≡ None) }
    {
        matches!(self, Effect::Decided(_))
    }

    /// Returns the outcome that the entry decided, if it did.
    pub fn outcome(&self) -> Option<&Outcome>
        ensures { option_copied result ≡ decided_in self.now }
    {
        match self {
            Effect::Decided(outcome) => Some(outcome),
            _ => None,
        }
    }

    /// Returns the vote that the entry cast, if it did.
    pub fn vote(&self) -> Option<Past>
        ensures { result ≡ cast_in self.now }
    {
        match self {
            Effect::Voted(vote) => Some(*vote),
            _ => None,
        }
    }
}

impl Dup for Effect {
    fn dup(&self, _alloc: Global) -> Result<Effect, OutOfMemory> {
        Ok(self.clone()?)
    }
}
