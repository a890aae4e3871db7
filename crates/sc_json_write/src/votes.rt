//! Votes in transactions, written as JSON.
ghost use Rattle.sc_words.specs.declared.commands.votes.No.{No};
ghost use Rattle.sc_words.specs.declared.commands.votes.Vote.{Vote};
ghost use Rattle.sc_words.specs.declared.commands.votes.Past.{Past};
ghost use Rattle.sc_json_text.specs.rows.Votes.{no_json, FitsNo};
ghost use Rattle.sc_json_text.specs.rows.Votes.{frozen_json, FitsFrozen};
ghost use Rattle.sc_json_text.specs.rows.Votes.{heard_json, FitsHeard};
ghost use Rattle.sc_json_text.specs.rows.Votes.{vote_json, FitsVote};
ghost use Rattle.sc_json_text.specs.rows.Votes.{past_json, FitsPast};

use crate::to_json::ToJson;
use crate::writing::{five, two, unit, variant_of, variant_one};
use sc_base::OutOfMemory;
use sc_words::{Frozen, Heard, No, Past, Vote};
use serde_json::Value as Json;
use std::alloc::Global;

impl ToJson for No {
    ghost json_of = { no_json };

    ghost Fits = { FitsNo };

    #[tactic(auto, unfolding(crate::specs::Json::no_json, crate::specs::Json::FitsNo))]
    fn to_json(&self, alloc: Global) -> Result<Json, OutOfMemory> {
        match self {
            No::Busy { tx } => variant_one(alloc, "Busy", ("tx", tx)),
            No::Gone => unit(alloc, "Gone"),
            No::Apart => unit(alloc, "Apart"),
            No::TooMany { n } => variant_one(alloc, "TooMany", ("n", n)),
        }
    }
}

impl ToJson for Frozen {
    ghost json_of = { frozen_json };

    ghost Fits = { FitsFrozen };

    #[tactic(auto, unfolding(crate::specs::Json::frozen_json, crate::specs::Json::FitsFrozen))]
    fn to_json(&self, alloc: Global) -> Result<Json, OutOfMemory> {
        five(
            alloc,
            ("arc", &self.arc),
            ("clients", &self.clients),
            ("members", &self.members),
            ("pairs", &self.pairs),
            ("succ", &self.succ),
        )
    }
}

impl ToJson for Heard {
    ghost json_of = { heard_json };

    ghost Fits = { FitsHeard };

    #[tactic(auto, unfolding(crate::specs::Json::heard_json, crate::specs::Json::FitsHeard))]
    fn to_json(&self, alloc: Global) -> Result<Json, OutOfMemory> {
        two(alloc, ("by", &self.by), ("frozen", &self.frozen))
    }
}

impl ToJson for Vote {
    ghost json_of = { vote_json };

    ghost Fits = { FitsVote };

    #[tactic(auto, unfolding(crate::specs::Json::vote_json, crate::specs::Json::FitsVote))]
    fn to_json(&self, alloc: Global) -> Result<Json, OutOfMemory> {
        match self {
            Vote::Yes(content) => variant_of(alloc, "Yes", content),
            Vote::No(content) => variant_of(alloc, "No", content),
        }
    }
}

impl ToJson for Past {
    ghost json_of = { past_json };

    ghost Fits = { FitsPast };

    #[tactic(auto, unfolding(crate::specs::Json::past_json, crate::specs::Json::FitsPast))]
    fn to_json(&self, alloc: Global) -> Result<Json, OutOfMemory> {
        match self {
            Past::Yes => unit(alloc, "Yes"),
            Past::No(content) => variant_of(alloc, "No", content),
            Past::Ended => unit(alloc, "Ended"),
        }
    }
}
