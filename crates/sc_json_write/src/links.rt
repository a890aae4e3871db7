//! Links and routes, written as JSON.
ghost use Rattle.sc_json_text.specs.rows.Links.{link_json, FitsLink};
ghost use Rattle.sc_json_text.specs.rows.Links.{route_json, FitsRoute};

use crate::to_json::ToJson;
use crate::writing::{three, two};
use sc_base::OutOfMemory;
use sc_words::{Link, Route};
use serde_json::Value as Json;
use std::alloc::Global;

impl ToJson for Link {
    ghost json_of = { link_json };

    ghost Fits = { FitsLink };

    #[tactic(auto, unfolding(crate::specs::Json::link_json, crate::specs::Json::FitsLink))]
    fn to_json(&self, alloc: Global) -> Result<Json, OutOfMemory> {
        two(alloc, ("group", &self.group), ("members", &self.members))
    }
}

impl ToJson for Route {
    ghost json_of = { route_json };

    ghost Fits = { FitsRoute };

    #[tactic(auto, unfolding(crate::specs::Json::route_json, crate::specs::Json::FitsRoute))]
    fn to_json(&self, alloc: Global) -> Result<Json, OutOfMemory> {
        three(
            alloc,
            ("group", &self.group),
            ("lo", &self.lo),
            ("members", &self.members),
        )
    }
}
