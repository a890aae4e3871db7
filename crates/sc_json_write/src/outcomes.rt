//! Outcomes of transactions, written as JSON.
ghost use Rattle.sc_words.specs.declared.commands.votes.Outcome.{Outcome};
ghost use Rattle.sc_json_text.specs.rows.Outcomes.{gift_json, FitsGift};
ghost use Rattle.sc_json_text.specs.rows.Outcomes.{outcome_json, FitsOutcome};

use crate::to_json::ToJson;
use crate::writing::{two, unit, variant_one, variant_two};
use sc_base::OutOfMemory;
use sc_words::{Gift, Outcome};
use serde_json::Value as Json;
use std::alloc::Global;

impl ToJson for Gift {
    ghost json_of = { gift_json };

    ghost Fits = { FitsGift };

    #[tactic(auto, unfolding(crate::specs::Json::gift_json, crate::specs::Json::FitsGift))]
    fn to_json(&self, alloc: Global) -> Result<Json, OutOfMemory> {
        two(alloc, ("clients", &self.clients), ("pairs", &self.pairs))
    }
}

impl ToJson for Outcome {
    ghost json_of = { outcome_json };

    ghost Fits = { FitsOutcome };

    #[tactic(auto, unfolding(crate::specs::Json::outcome_json, crate::specs::Json::FitsOutcome))]
    fn to_json(&self, alloc: Global) -> Result<Json, OutOfMemory> {
        match self {
            Outcome::Abort => unit(alloc, "Abort"),
            Outcome::Merged { into } => variant_one(alloc, "Merged", ("into", into)),
            Outcome::Moved { at, gift } => variant_two(alloc, "Moved", ("at", at), ("gift", gift)),
            Outcome::Migrated { node } => variant_one(alloc, "Migrated", ("node", node)),
            Outcome::Divided => unit(alloc, "Divided"),
        }
    }
}
