//! What transactions do and ask, written as JSON.
ghost use Rattle.sc_words.specs.declared.commands.bodies.Body.{Body};
ghost use Rattle.sc_json_text.specs.rows.Bodies.{body_json, FitsBody};
ghost use Rattle.sc_json_text.specs.rows.Bodies.{offer_json, FitsOffer};
ghost use Rattle.sc_json_text.specs.rows.Bodies.{watch_json, FitsWatch};

use crate::to_json::ToJson;
use crate::writing::{six, unit, variant_one, variant_two};
use sc_base::OutOfMemory;
use sc_words::{Body, Offer, Watch};
use serde_json::Value as Json;
use std::alloc::Global;

impl ToJson for Body {
    ghost json_of = { body_json };

    ghost Fits = { FitsBody };

    #[tactic(auto, unfolding(crate::specs::Json::body_json, crate::specs::Json::FitsBody))]
    fn to_json(&self, alloc: Global) -> Result<Json, OutOfMemory> {
        match self {
            Body::Merge => unit(alloc, "Merge"),
            Body::Repart { at } => variant_one(alloc, "Repart", ("at", at)),
            Body::Migrate { node } => variant_one(alloc, "Migrate", ("node", node)),
            Body::Split { at, child } => variant_two(alloc, "Split", ("at", at), ("child", child)),
        }
    }
}

impl ToJson for Offer {
    ghost json_of = { offer_json };

    ghost Fits = { FitsOffer };

    #[tactic(auto, unfolding(crate::specs::Json::offer_json, crate::specs::Json::FitsOffer))]
    fn to_json(&self, alloc: Global) -> Result<Json, OutOfMemory> {
        six(
            alloc,
            ("arc", &self.arc),
            ("body", &self.body),
            ("by", &self.by),
            ("coord", &self.coord),
            ("members", &self.members),
            ("part", &self.part),
        )
    }
}

impl ToJson for Watch {
    ghost json_of = { watch_json };

    ghost Fits = { FitsWatch };

    #[tactic(auto, unfolding(crate::specs::Json::watch_json, crate::specs::Json::FitsWatch))]
    fn to_json(&self, alloc: Global) -> Result<Json, OutOfMemory> {
        six(
            alloc,
            ("by", &self.by),
            ("coord", &self.coord),
            ("members", &self.members),
            ("next", &self.next),
            ("old", &self.old),
            ("part", &self.part),
        )
    }
}
