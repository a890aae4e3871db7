//! Keys and values, written as JSON strings.
ghost use Rattle.std.specs.Prelude.{◌≡◌, IsTrue, IfOk};
ghost use Rattle.std.specs.List.{list_all};
ghost use Rattle.serde_json.specs.Data.{string};
ghost use Rattle.serde_json.specs.View.{view};
ghost use Rattle.sc_base.specs.Text.{is_visible};
ghost use Rattle.sc_json_text.specs.rows.Held.{FitsKey, FitsValue};

use crate::to_json::ToJson;
use sc_base::{Key, OutOfMemory, Value};
use serde_json::Value as Json;
use std::alloc::Global;

/// Returns the JSON string of visible bytes.
#[tactic(auto, using(crate::proofs::WrittenTexts::visible_utf8))]
fn string_of(alloc: Global, bytes: &[u8]) -> Result<Json, OutOfMemory>
    requires { IsTrue (list_all is_visible bytes.now) }
    ensures { IfOk result (λ json. view json ≡ string bytes.now) }
{
    match str::from_utf8(bytes) {
        Ok(text) => Ok(Json::try_from_str(alloc, text)?),
        Err(_) => unreachable!(),
    }
}

impl ToJson for Key {
    ghost json_of = { string };

    ghost Fits = { FitsKey };

    fn to_json(&self, alloc: Global) -> Result<Json, OutOfMemory> {
        string_of(alloc, self.bytes())
    }
}

impl ToJson for Value {
    ghost json_of = { string };

    ghost Fits = { FitsValue };

    fn to_json(&self, alloc: Global) -> Result<Json, OutOfMemory> {
        string_of(alloc, self.bytes())
    }
}
