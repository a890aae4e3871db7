//! Names and ballots, written as JSON.
ghost use Rattle.std.specs.Prelude.{◌<◌};
ghost use Rattle.sc_base.specs.declared.names.Draw.{Draw};
ghost use Rattle.sc_json_text.specs.rows.Names.{draw_json, FitsDraw, ballot_json, FitsBallot};

use crate::to_json::ToJson;
use crate::writing::pair;
use sc_base::{Ballot, Draw, OutOfMemory};
use serde_json::Value as Json;
use std::alloc::Global;

impl ToJson for Draw {
    ghost json_of = { draw_json };

    ghost Fits = { FitsDraw };

    #[tactic(auto, unfolding(crate::specs::Json::draw_json, crate::specs::Json::FitsDraw))]
    fn to_json(&self, alloc: Global) -> Result<Json, OutOfMemory> {
        let Draw { node, count } = *self;
        let text = format!(in alloc; "{node}.{count}")?;
        Ok(Json::String(text))
    }
}

impl ToJson for Ballot {
    ghost json_of = { ballot_json };

    ghost Fits = { FitsBallot };

    #[tactic(auto, unfolding(crate::specs::Json::ballot_json, crate::specs::Json::FitsBallot))]
    fn to_json(&self, alloc: Global) -> Result<Json, OutOfMemory> {
        pair(alloc, &self.round, &self.node)
    }
}
