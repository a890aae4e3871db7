//! Arcs, sets of nodes, pairs of keys and values, and client tables, written as JSON.
ghost use Rattle.std.specs.Prelude.{◌≡◌, IfOk};
ghost use Rattle.serde_json.specs.View.{view};
ghost use Rattle.sc_base.specs.declared.ops.Noted.{Noted};
ghost use Rattle.sc_json_text.specs.rows.Held.{FitsArc, FitsMembers, FitsU16, PairFits};
ghost use Rattle.sc_json_text.specs.rows.Sets.{arc_json, nodes_json, pairs_json, FitsPairs, client_json, FitsNoted, clients_json, FitsClients};

use crate::lists::array_of;
use crate::to_json::ToJson;
use crate::writing::{pair, triple};
use sc_base::{Key, Members, Noted, Ordered, OutOfMemory, RingArc, Value};
use serde_json::Value as Json;
use std::alloc::Global;

impl ToJson for RingArc {
    ghost json_of = { arc_json };

    ghost Fits = { FitsArc };

    #[tactic(auto, unfolding(crate::specs::Json::arc_json))]
    fn to_json(&self, alloc: Global) -> Result<Json, OutOfMemory> {
        pair(alloc, &self.lo(), &self.len())
    }
}

impl ToJson for Members {
    ghost json_of = { nodes_json };

    ghost Fits = { FitsMembers };

    #[tactic(auto, unfolding(crate::specs::Json::nodes_json))]
    fn to_json(&self, alloc: Global) -> Result<Json, OutOfMemory> {
        array_of(alloc, self.as_slice())
    }
}

impl ToJson for Ordered<Key, Value> {
    ghost json_of = { pairs_json };

    ghost Fits = { FitsPairs };

    #[tactic(auto, unfolding(crate::specs::Json::pairs_json, crate::specs::Json::FitsPairs))]
    fn to_json(&self, alloc: Global) -> Result<Json, OutOfMemory> {
        array_of(alloc, self.as_slice())
    }
}

/// Returns the JSON of an entry of a client table.
#[tactic(auto, unfolding(crate::specs::Json::client_json, crate::specs::Json::FitsNoted))]
fn client_to_json(alloc: Global, entry: &(u16, Noted)) -> Result<Json, OutOfMemory>
    ensures json { IfOk result (λ json. view json ≡ client_json entry.now) }
    ensures fits { IfOk result (λ _. PairFits FitsU16 FitsNoted entry.now) }
{
    triple(alloc, &entry.0, &entry.1.seq, &entry.1.reply)
}

impl ToJson for Ordered<u16, Noted> {
    ghost json_of = { clients_json };

    ghost Fits = { FitsClients };

    #[tactic(auto, unfolding(crate::specs::Json::clients_json, crate::specs::Json::FitsClients))]
    fn to_json(&self, alloc: Global) -> Result<Json, OutOfMemory> {
        let mut list = Vec::new(alloc);
        for entry in self.as_slice() {
            let json = client_to_json(alloc, entry)?;
            list.push(json)?;
        }
        Ok(Json::Array(list))
    }
}
