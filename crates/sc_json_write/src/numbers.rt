//! Numbers, written as JSON.
ghost use Rattle.sc_json_text.specs.rows.Shapes.{number_json};
ghost use Rattle.sc_json_text.specs.rows.Held.{FitsU8, FitsU16, FitsU32, FitsU64};

use crate::to_json::ToJson;
use sc_base::OutOfMemory;
use serde_json::Value as Json;
use std::alloc::Global;

impl ToJson for u8 {
    ghost json_of = { number_json };

    ghost Fits = { FitsU8 };

    fn to_json(&self, _alloc: Global) -> Result<Json, OutOfMemory> {
        Ok(Json::from(*self))
    }
}

impl ToJson for u16 {
    ghost json_of = { number_json };

    ghost Fits = { FitsU16 };

    fn to_json(&self, _alloc: Global) -> Result<Json, OutOfMemory> {
        Ok(Json::from(*self))
    }
}

impl ToJson for u32 {
    ghost json_of = { number_json };

    ghost Fits = { FitsU32 };

    fn to_json(&self, _alloc: Global) -> Result<Json, OutOfMemory> {
        Ok(Json::from(*self))
    }
}

impl ToJson for u64 {
    ghost json_of = { number_json };

    ghost Fits = { FitsU64 };

    fn to_json(&self, _alloc: Global) -> Result<Json, OutOfMemory> {
        Ok(Json::from(*self))
    }
}
