//! Values with one JSON, and variants by their names.
ghost use Rattle.std.specs.Prelude.{◌≡◌, Ok, IsSomeAnd, IfOk, IfSome};
ghost use Rattle.serde_json.specs.View.{view};
ghost use Rattle.sc_json_read.specs.Reading.{Finds, IsWord, MayBeVariant, Spells, content_of};
ghost use Rattle.sc_json_text.specs.rows.Shapes.{variant_name};

use crate::errors::RowError;
use crate::from_json::FromJson;
use serde_json::Value as Json;
use std::alloc::Global;

/// Returns the value that has this JSON as a whole.
pub(crate) fn whole<T: FromJson>(alloc: Global, json: &Json) -> Result<T, RowError>
    ensures finds { (value : T) → T.Fits value → view json.now ≡ T.json_of value
        → Finds value result }
    ensures exact { IfOk result (λ value. view json.now ≡ T.json_of value) }
{
    T::from_json(alloc, json)
}

/// Returns the name and the content of the variant that the JSON may be. A variant without content,
/// a string, is its own content. `None` where the JSON is neither a string nor an object of one
/// member.
#[tactic(auto, using(crate::proofs::Members::is_no_variant))]
pub fn variant_parts(json: &Json) -> Option<(&str, &Json)>
    ensures finds { MayBeVariant (view json.now) → IsSomeAnd result (λ parts.
        (parts.0.now ≡ variant_name (view json.now))
        × (view parts.1.now ≡ content_of (view json.now))) }
    ensures exact { IfSome result (λ parts.
        Spells (view json.now) parts.0.now (view parts.1.now)) }
{
    match json {
        Json::String(name) => Some((name.as_str(), json)),
        Json::Object(members) => {
            if members.len() != 1 {
                return None;
            }
            match members.first_key_value() {
                Some((name, content)) => Some((name.as_str(), content)),
                None => None,
            }
        }
        _ => None,
    }
}

/// Returns the value of a variant without content, if the JSON is a string.
pub(crate) fn word<T: Drop>(json: &Json, value: T) -> Result<T, RowError>
    ensures finds { IsWord (view json.now) → result ≡ Ok value }
    ensures exact { IfOk result (λ found. (found ≡ value) × IsWord (view json.now)) }
{
    if json.is_string() {
        Ok(value)
    } else {
        Err(RowError::NoRow)
    }
}
