//! Keys and values, read from JSON strings.
ghost use Rattle.serde_json.specs.Data.{string};
ghost use Rattle.sc_json_text.specs.rows.Held.{FitsKey, FitsValue};

use crate::errors::RowError;
use crate::from_json::{FromJson, Present};
use sc_base::{Key, Value};
use serde_json::Value as Json;
use std::alloc::Global;

impl FromJson for Key {
    ghost json_of = { string };

    ghost Fits = { FitsKey };

    #[tactic(auto, using(crate::proofs::TextSteps::is_string))]
    fn from_json(alloc: Global, json: &Json) -> Result<Key, RowError> {
        match json.as_str() {
            Some(text) => Ok(Key::try_new(alloc, text.as_bytes())?),
            None => Err(RowError::NoRow),
        }
    }
}

impl FromJson for Value {
    ghost json_of = { string };

    ghost Fits = { FitsValue };

    #[tactic(auto, using(crate::proofs::TextSteps::is_string))]
    fn from_json(alloc: Global, json: &Json) -> Result<Value, RowError> {
        match json.as_str() {
            Some(text) => Ok(Value::try_new(alloc, text.as_bytes())?),
            None => Err(RowError::NoRow),
        }
    }
}

impl Present for Key {
    ghost is_there = { λ key fits none. Prim.cc };
}

impl Present for Value {
    ghost is_there = { λ value fits none. Prim.cc };
}
