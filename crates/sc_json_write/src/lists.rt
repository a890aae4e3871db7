//! Lists, pairs, values that may be absent, and boxed values, written as JSON.
ghost use Rattle.std.specs.Prelude.{◌≡◌, OnOk, IfOk};
ghost use Rattle.serde_json.specs.View.{view};
ghost use Rattle.sc_base.specs.Among.{Each};
ghost use Rattle.sc_json_text.specs.rows.Held.{OptionFits, PairFits};
ghost use Rattle.sc_json_text.specs.rows.Shapes.{list_json, option_json, pair_json};

use crate::to_json::ToJson;
use crate::writing::pair;
use sc_base::{Boxed, OutOfMemory, Sequence};
use serde_json::Value as Json;
use std::alloc::Global;

/// Returns the array of the items' JSON.
pub(crate) fn array_of<T: ToJson>(alloc: Global, items: &[T]) -> Result<Json, OutOfMemory>
    ensures json { IfOk result (λ json. view json ≡ list_json T.json_of items.now) }
    ensures fits { OnOk result (Each T.Fits items.now) }
{
    let mut list = Vec::new(alloc);
    for item in items {
        let json = item.to_json(alloc)?;
        list.push(json)?;
    }
    Ok(Json::Array(list))
}

impl<T: ToJson + Drop> ToJson for Sequence<T> {
    ghost json_of = { list_json T.json_of };

    ghost Fits = { Each T.Fits };

    fn to_json(&self, alloc: Global) -> Result<Json, OutOfMemory> {
        array_of(alloc, self.as_slice())
    }
}

impl<A: ToJson + Drop, B: ToJson + Drop> ToJson for (A, B) {
    ghost json_of = { pair_json A.json_of B.json_of };

    ghost Fits = { PairFits A.Fits B.Fits };

    fn to_json(&self, alloc: Global) -> Result<Json, OutOfMemory> {
        pair(alloc, &self.0, &self.1)
    }
}

impl<T: ToJson + Drop> ToJson for Boxed<T> {
    ghost json_of = { T.json_of };

    ghost Fits = { T.Fits };

    fn to_json(&self, alloc: Global) -> Result<Json, OutOfMemory> {
        self.get().to_json(alloc)
    }
}

impl<T: ToJson> ToJson for Option<T> {
    ghost json_of = { option_json T.json_of };

    ghost Fits = { OptionFits T.Fits };

    fn to_json(&self, alloc: Global) -> Result<Json, OutOfMemory> {
        match self {
            Some(value) => value.to_json(alloc),
            None => Ok(Json::Null),
        }
    }
}
