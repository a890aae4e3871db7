//! Objects and variants of JSON.
ghost use Rattle.std.specs.Prelude.{◌≡◌, IfOk, OnOk};
ghost use Rattle.serde_json.specs.Data.{put, string};
ghost use Rattle.serde_json.specs.View.{view, members_view};
ghost use Rattle.sc_json_text.specs.rows.Shapes.{variant};

use sc_base::OutOfMemory;
use sc_json_write::ToJson;
use serde_json::{Map, Value as Json};
use std::alloc::Global;

/// Adds a member with the JSON of a value to the members of an object.
pub(crate) fn add<T: ToJson>(
    members: &mut Map<String, Json>,
    alloc: Global,
    name: &str,
    value: &T,
) -> Result<(), OutOfMemory>
    ensures json { OnOk result (members_view members.new.entries
        ≡ put name.now (T.json_of value.now) (members_view members.old.entries)) }
    ensures fits { OnOk result (T.Fits value.now) }
{
    let json = value.to_json(alloc)?;
    serde_json::put(members, alloc, name, json)?;
    Ok(())
}

/// Returns the JSON of a variant without content.
pub(crate) fn unit(alloc: Global, name: &str) -> Result<Json, OutOfMemory>
    ensures { IfOk result (λ json. view json ≡ string name.now) }
{
    Ok(Json::try_from_str(alloc, name)?)
}

/// Returns the JSON of a variant with this content.
pub(crate) fn wrapped(alloc: Global, name: &str, content: Json) -> Result<Json, OutOfMemory>
    ensures { IfOk result (λ json. view json ≡ variant name.now (view content)) }
{
    let mut members = Map::new(alloc);
    serde_json::put(&mut members, alloc, name, content)?;
    Ok(Json::Object(members))
}

/// Returns the JSON of a variant whose content is one value.
pub(crate) fn variant_of<T: ToJson>(
    alloc: Global,
    name: &str,
    content: &T,
) -> Result<Json, OutOfMemory>
    ensures json { IfOk result (λ json. view json ≡ variant name.now (T.json_of content.now)) }
    ensures fits { OnOk result (T.Fits content.now) }
{
    let json = content.to_json(alloc)?;
    wrapped(alloc, name, json)
}
