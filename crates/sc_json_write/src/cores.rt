//! Groups, written as JSON.
ghost use Rattle.sc_words.specs.declared.commands.cores.Lock.{Lock};
ghost use Rattle.sc_json_text.specs.rows.Cores.{lock_json, FitsLock};
ghost use Rattle.sc_json_text.specs.rows.Cores.{core_json, FitsCore};
ghost use Rattle.sc_json_text.specs.rows.Cores.{base_json, FitsBase};

use crate::to_json::ToJson;
use crate::writing::{add_six, three, unit, variant_four, variant_two};
use sc_base::OutOfMemory;
use sc_words::{Base, Core, Lock};
use serde_json::{Map, Value as Json};
use std::alloc::Global;

impl ToJson for Lock {
    ghost json_of = { lock_json };

    ghost Fits = { FitsLock };

    #[tactic(auto, unfolding(crate::specs::Json::lock_json, crate::specs::Json::FitsLock))]
    fn to_json(&self, alloc: Global) -> Result<Json, OutOfMemory> {
        match self {
            Lock::Free => unit(alloc, "Free"),
            Lock::Coordinating {
                tx,
                body,
                order,
                heard,
            } => variant_four(
                alloc,
                "Coordinating",
                ("body", body),
                ("heard", heard),
                ("order", order),
                ("tx", tx),
            ),
            Lock::Promised { tx, offer } => variant_two(
                alloc,
                "Promised",
                ("offer", offer),
                ("tx", tx),
            ),
            Lock::Watching { tx, watch } => variant_two(
                alloc,
                "Watching",
                ("tx", tx),
                ("watch", watch),
            ),
        }
    }
}

impl ToJson for Core {
    ghost json_of = { core_json };

    ghost Fits = { FitsCore };

    #[tactic(auto, unfolding(crate::specs::Json::core_json, crate::specs::Json::FitsCore))]
    fn to_json(&self, alloc: Global) -> Result<Json, OutOfMemory> {
        let mut members = Map::new(alloc);
        add_six(
            &mut members,
            alloc,
            ("arc", &self.arc),
            ("begun", &self.begun),
            ("born", &self.born),
            ("decided", &self.decided),
            ("first", &self.first),
            ("gone", &self.gone),
        )?;
        add_six(
            &mut members,
            alloc,
            ("id", &self.id),
            ("lock", &self.lock),
            ("members", &self.members),
            ("pred", &self.pred),
            ("succ", &self.succ),
            ("voted", &self.voted),
        )?;
        Ok(Json::Object(members))
    }
}

impl ToJson for Base {
    ghost json_of = { base_json };

    ghost Fits = { FitsBase };

    #[tactic(auto, unfolding(crate::specs::Json::base_json, crate::specs::Json::FitsBase))]
    fn to_json(&self, alloc: Global) -> Result<Json, OutOfMemory> {
        three(
            alloc,
            ("clients", &self.clients),
            ("core", &self.core),
            ("pairs", &self.pairs),
        )
    }
}
