//! Lists, pairs, values that may be absent, and boxed values, read from JSON.
ghost use Rattle.std.specs.Prelude.{◌≡◌, List, IfOk};
ghost use Rattle.serde_json.specs.View.{view, items_view};
ghost use Rattle.sc_base.specs.Among.{Each};
ghost use Rattle.sc_json_text.specs.rows.Held.{OptionFits, PairFits};
ghost use Rattle.sc_json_text.specs.rows.Shapes.{items_json, list_json, option_json, pair_json};
ghost use Rattle.sc_json_read.specs.Reading.{Shows};

use crate::errors::RowError;
use crate::from_json::{FromJson, Present};
use crate::items::pair_in;
use sc_base::{Boxed, Sequence};
use serde_json::Value as Json;
use std::alloc::Global;

/// Returns the values that have these JSONs.
fn values_of<T: FromJson + Drop>(alloc: Global, list: &[Json]) -> Result<Vec<T>, RowError>
    ensures finds { (values : List T) → Each T.Fits values
        → items_view list.now ≡ items_json T.json_of values
        → Shows (λ found. found.items) values result }
    ensures exact { IfOk result (λ found. items_view list.now ≡ items_json T.json_of found.items) }
{
    let mut values = Vec::new(alloc);
    for json in list {
        let value = T::from_json(alloc, json)?;
        values.push(value)?;
    }
    Ok(values)
}

/// Returns the values of which the JSON is an array.
#[tactic(auto, using(crate::proofs::Arrays::is_array))]
pub(crate) fn items_of<T: FromJson + Drop>(alloc: Global, json: &Json) -> Result<Vec<T>, RowError>
    ensures finds { (values : List T) → Each T.Fits values
        → view json.now ≡ list_json T.json_of values
        → Shows (λ found. found.items) values result }
    ensures exact { IfOk result (λ found. view json.now ≡ list_json T.json_of found.items) }
{
    match json.as_array() {
        Some(list) => values_of(alloc, list.as_slice()),
        None => Err(RowError::NoRow),
    }
}

impl<T: FromJson + Drop> FromJson for Sequence<T> {
    ghost json_of = { list_json T.json_of };

    ghost Fits = { Each T.Fits };

    fn from_json(alloc: Global, json: &Json) -> Result<Sequence<T>, RowError> {
        let items = items_of(alloc, json)?;
        Ok(Sequence::from_vec(items))
    }
}

impl<T: FromJson + Drop> Present for Sequence<T> {
    ghost is_there = { λ list fits none. Prim.cc };
}

impl<A: FromJson + Drop, B: FromJson + Drop> FromJson for (A, B) {
    ghost json_of = { pair_json A.json_of B.json_of };

    ghost Fits = { PairFits A.Fits B.Fits };

    fn from_json(alloc: Global, json: &Json) -> Result<(A, B), RowError> {
        pair_in(alloc, json)
    }
}

impl<A: FromJson + Drop, B: FromJson + Drop> Present for (A, B) {
    ghost is_there = { λ pair fits none. Prim.cc };
}

impl<T: FromJson + Drop> FromJson for Boxed<T> {
    ghost json_of = { T.json_of };

    ghost Fits = { T.Fits };

    fn from_json(alloc: Global, json: &Json) -> Result<Boxed<T>, RowError> {
        let value = T::from_json(alloc, json)?;
        Ok(Boxed::new(alloc, value)?)
    }
}

impl<T: Present + Drop> Present for Boxed<T> {
    ghost is_there = { T.is_there };
}

impl<T: Present> FromJson for Option<T> {
    ghost json_of = { option_json T.FromJson.json_of };

    ghost Fits = { OptionFits T.FromJson.Fits };

    #[tactic(auto, using(crate::proofs::TextSteps::is_null))]
    fn from_json(alloc: Global, json: &Json) -> Result<Option<T>, RowError> {
        if json.is_null() {
            Ok(None)
        } else {
            let value = T::from_json(alloc, json)?;
            Ok(Some(value))
        }
    }
}
