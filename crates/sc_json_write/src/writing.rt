//! Objects, variants and arrays, written as JSON.
ghost use Rattle.std.specs.Prelude.{◌≡◌, OnOk, IfOk};
ghost use Rattle.serde_json.specs.Data.{array, item, no_items, object, put, no_members, string};
ghost use Rattle.serde_json.specs.View.{view, members_view};
ghost use Rattle.sc_json_text.specs.rows.Shapes.{variant};

use crate::to_json::ToJson;
use sc_base::OutOfMemory;
use serde_json::{Map, Value as Json};
use std::alloc::Global;

/// A member of an object: its name, and the value that is written as its content.
pub(crate) type Member<'a, T> = (&'a str, &'a T);

/// Adds a member to an object.
pub(crate) fn add<T: ToJson>(
    members: &mut Map<String, Json>,
    alloc: Global,
    member: Member<'_, T>,
) -> Result<(), OutOfMemory>
    ensures json { OnOk result (members_view members.new.entries
        ≡ put member.entry.0.now (T.json_of member.entry.1.now)
        (members_view members.old.entries)) }
    ensures fits { OnOk result (T.Fits member.entry.1.now) }
{
    let json = member.1.to_json(alloc)?;
    serde_json::put(members, alloc, member.0, json)?;
    Ok(())
}

/// Adds six members to an object.
pub(crate) fn add_six<A: ToJson, B: ToJson, C: ToJson, D: ToJson, E: ToJson, F: ToJson>(
    members: &mut Map<String, Json>,
    alloc: Global,
    first: Member<'_, A>,
    second: Member<'_, B>,
    third: Member<'_, C>,
    fourth: Member<'_, D>,
    fifth: Member<'_, E>,
    sixth: Member<'_, F>,
) -> Result<(), OutOfMemory>
    ensures json { OnOk result (members_view members.new.entries
        ≡ put sixth.entry.0.now (F.json_of sixth.entry.1.now)
        (put fifth.entry.0.now (E.json_of fifth.entry.1.now)
        (put fourth.entry.0.now (D.json_of fourth.entry.1.now)
        (put third.entry.0.now (C.json_of third.entry.1.now)
        (put second.entry.0.now (B.json_of second.entry.1.now)
        (put first.entry.0.now (A.json_of first.entry.1.now)
        (members_view members.old.entries))))))) }
    ensures fits { OnOk result (A.Fits first.entry.1.now × B.Fits second.entry.1.now
        × C.Fits third.entry.1.now × D.Fits fourth.entry.1.now × E.Fits fifth.entry.1.now
        × F.Fits sixth.entry.1.now) }
{
    add(members, alloc, first)?;
    add(members, alloc, second)?;
    add(members, alloc, third)?;
    add(members, alloc, fourth)?;
    add(members, alloc, fifth)?;
    add(members, alloc, sixth)?;
    Ok(())
}

/// Returns an object of one member.
pub(crate) fn one<A: ToJson>(alloc: Global, first: Member<'_, A>) -> Result<Json, OutOfMemory>
    ensures json { IfOk result (λ json. view json ≡ object
        (put first.entry.0.now (A.json_of first.entry.1.now) no_members)) }
    ensures fits { OnOk result (A.Fits first.entry.1.now) }
{
    let mut members = Map::new(alloc);
    add(&mut members, alloc, first)?;
    Ok(Json::Object(members))
}

/// Returns an object of two members.
pub(crate) fn two<A: ToJson, B: ToJson>(
    alloc: Global,
    first: Member<'_, A>,
    second: Member<'_, B>,
) -> Result<Json, OutOfMemory>
    ensures json { IfOk result (λ json. view json ≡ object
        (put second.entry.0.now (B.json_of second.entry.1.now)
        (put first.entry.0.now (A.json_of first.entry.1.now) no_members))) }
    ensures fits { OnOk result (A.Fits first.entry.1.now × B.Fits second.entry.1.now) }
{
    let mut members = Map::new(alloc);
    add(&mut members, alloc, first)?;
    add(&mut members, alloc, second)?;
    Ok(Json::Object(members))
}

/// Returns an object of three members.
pub(crate) fn three<A: ToJson, B: ToJson, C: ToJson>(
    alloc: Global,
    first: Member<'_, A>,
    second: Member<'_, B>,
    third: Member<'_, C>,
) -> Result<Json, OutOfMemory>
    ensures json { IfOk result (λ json. view json ≡ object
        (put third.entry.0.now (C.json_of third.entry.1.now)
        (put second.entry.0.now (B.json_of second.entry.1.now)
        (put first.entry.0.now (A.json_of first.entry.1.now) no_members)))) }
    ensures fits { OnOk result (A.Fits first.entry.1.now × B.Fits second.entry.1.now
        × C.Fits third.entry.1.now) }
{
    let mut members = Map::new(alloc);
    add(&mut members, alloc, first)?;
    add(&mut members, alloc, second)?;
    add(&mut members, alloc, third)?;
    Ok(Json::Object(members))
}

/// Returns an object of four members.
pub(crate) fn four<A: ToJson, B: ToJson, C: ToJson, D: ToJson>(
    alloc: Global,
    first: Member<'_, A>,
    second: Member<'_, B>,
    third: Member<'_, C>,
    fourth: Member<'_, D>,
) -> Result<Json, OutOfMemory>
    ensures json { IfOk result (λ json. view json ≡ object
        (put fourth.entry.0.now (D.json_of fourth.entry.1.now)
        (put third.entry.0.now (C.json_of third.entry.1.now)
        (put second.entry.0.now (B.json_of second.entry.1.now)
        (put first.entry.0.now (A.json_of first.entry.1.now) no_members))))) }
    ensures fits { OnOk result (A.Fits first.entry.1.now × B.Fits second.entry.1.now
        × C.Fits third.entry.1.now × D.Fits fourth.entry.1.now) }
{
    let mut members = Map::new(alloc);
    add(&mut members, alloc, first)?;
    add(&mut members, alloc, second)?;
    add(&mut members, alloc, third)?;
    add(&mut members, alloc, fourth)?;
    Ok(Json::Object(members))
}

/// Returns an object of five members.
pub(crate) fn five<A: ToJson, B: ToJson, C: ToJson, D: ToJson, E: ToJson>(
    alloc: Global,
    first: Member<'_, A>,
    second: Member<'_, B>,
    third: Member<'_, C>,
    fourth: Member<'_, D>,
    fifth: Member<'_, E>,
) -> Result<Json, OutOfMemory>
    ensures json { IfOk result (λ json. view json ≡ object
        (put fifth.entry.0.now (E.json_of fifth.entry.1.now)
        (put fourth.entry.0.now (D.json_of fourth.entry.1.now)
        (put third.entry.0.now (C.json_of third.entry.1.now)
        (put second.entry.0.now (B.json_of second.entry.1.now)
        (put first.entry.0.now (A.json_of first.entry.1.now) no_members)))))) }
    ensures fits { OnOk result (A.Fits first.entry.1.now × B.Fits second.entry.1.now
        × C.Fits third.entry.1.now × D.Fits fourth.entry.1.now × E.Fits fifth.entry.1.now) }
{
    let mut members = Map::new(alloc);
    add(&mut members, alloc, first)?;
    add(&mut members, alloc, second)?;
    add(&mut members, alloc, third)?;
    add(&mut members, alloc, fourth)?;
    add(&mut members, alloc, fifth)?;
    Ok(Json::Object(members))
}

/// Returns an object of six members.
pub(crate) fn six<A: ToJson, B: ToJson, C: ToJson, D: ToJson, E: ToJson, F: ToJson>(
    alloc: Global,
    first: Member<'_, A>,
    second: Member<'_, B>,
    third: Member<'_, C>,
    fourth: Member<'_, D>,
    fifth: Member<'_, E>,
    sixth: Member<'_, F>,
) -> Result<Json, OutOfMemory>
    ensures json { IfOk result (λ json. view json ≡ object
        (put sixth.entry.0.now (F.json_of sixth.entry.1.now)
        (put fifth.entry.0.now (E.json_of fifth.entry.1.now)
        (put fourth.entry.0.now (D.json_of fourth.entry.1.now)
        (put third.entry.0.now (C.json_of third.entry.1.now)
        (put second.entry.0.now (B.json_of second.entry.1.now)
        (put first.entry.0.now (A.json_of first.entry.1.now) no_members))))))) }
    ensures fits { OnOk result (A.Fits first.entry.1.now × B.Fits second.entry.1.now
        × C.Fits third.entry.1.now × D.Fits fourth.entry.1.now × E.Fits fifth.entry.1.now
        × F.Fits sixth.entry.1.now) }
{
    let mut map = Map::new(alloc);
    add_six(&mut map, alloc, first, second, third, fourth, fifth, sixth)?;
    Ok(Json::Object(map))
}

/// Returns a variant without content: the string of its name.
pub(crate) fn unit(alloc: Global, name: &str) -> Result<Json, OutOfMemory>
    ensures { IfOk result (λ json. view json ≡ string name.now) }
{
    Ok(Json::try_from_str(alloc, name)?)
}

/// Returns a variant with this content.
fn wrapped(alloc: Global, name: &str, content: Json) -> Result<Json, OutOfMemory>
    ensures { IfOk result (λ json. view json ≡ variant name.now (view content)) }
{
    let mut members = Map::new(alloc);
    serde_json::put(&mut members, alloc, name, content)?;
    Ok(Json::Object(members))
}

/// Returns a variant whose content is one value.
pub(crate) fn variant_of<T: ToJson>(
    alloc: Global,
    name: &str,
    content: &T,
) -> Result<Json, OutOfMemory>
    ensures json { IfOk result (λ json. view json ≡ variant name.now (T.json_of content.now)) }
    ensures fits { OnOk result (T.Fits content.now) }
{
    let json = content.to_json(alloc)?;
    wrapped(alloc, name, json)
}

/// Returns a variant whose content is an object of one member.
pub(crate) fn variant_one<A: ToJson>(
    alloc: Global,
    name: &str,
    first: Member<'_, A>,
) -> Result<Json, OutOfMemory>
    ensures json { IfOk result (λ json. view json ≡ variant name.now (object
        (put first.entry.0.now (A.json_of first.entry.1.now) no_members))) }
    ensures fits { OnOk result (A.Fits first.entry.1.now) }
{
    let content = one(alloc, first)?;
    wrapped(alloc, name, content)
}

/// Returns a variant whose content is an object of two members.
pub(crate) fn variant_two<A: ToJson, B: ToJson>(
    alloc: Global,
    name: &str,
    first: Member<'_, A>,
    second: Member<'_, B>,
) -> Result<Json, OutOfMemory>
    ensures json { IfOk result (λ json. view json ≡ variant name.now (object
        (put second.entry.0.now (B.json_of second.entry.1.now)
        (put first.entry.0.now (A.json_of first.entry.1.now) no_members)))) }
    ensures fits { OnOk result (A.Fits first.entry.1.now × B.Fits second.entry.1.now) }
{
    let content = two(alloc, first, second)?;
    wrapped(alloc, name, content)
}

/// Returns a variant whose content is an object of three members.
pub(crate) fn variant_three<A: ToJson, B: ToJson, C: ToJson>(
    alloc: Global,
    name: &str,
    first: Member<'_, A>,
    second: Member<'_, B>,
    third: Member<'_, C>,
) -> Result<Json, OutOfMemory>
    ensures json { IfOk result (λ json. view json ≡ variant name.now (object
        (put third.entry.0.now (C.json_of third.entry.1.now)
        (put second.entry.0.now (B.json_of second.entry.1.now)
        (put first.entry.0.now (A.json_of first.entry.1.now) no_members))))) }
    ensures fits { OnOk result (A.Fits first.entry.1.now × B.Fits second.entry.1.now
        × C.Fits third.entry.1.now) }
{
    let content = three(alloc, first, second, third)?;
    wrapped(alloc, name, content)
}

/// Returns a variant whose content is an object of four members.
pub(crate) fn variant_four<A: ToJson, B: ToJson, C: ToJson, D: ToJson>(
    alloc: Global,
    name: &str,
    first: Member<'_, A>,
    second: Member<'_, B>,
    third: Member<'_, C>,
    fourth: Member<'_, D>,
) -> Result<Json, OutOfMemory>
    ensures json { IfOk result (λ json. view json ≡ variant name.now (object
        (put fourth.entry.0.now (D.json_of fourth.entry.1.now)
        (put third.entry.0.now (C.json_of third.entry.1.now)
        (put second.entry.0.now (B.json_of second.entry.1.now)
        (put first.entry.0.now (A.json_of first.entry.1.now) no_members)))))) }
    ensures fits { OnOk result (A.Fits first.entry.1.now × B.Fits second.entry.1.now
        × C.Fits third.entry.1.now × D.Fits fourth.entry.1.now) }
{
    let content = four(alloc, first, second, third, fourth)?;
    wrapped(alloc, name, content)
}

/// Returns an array of two items.
pub(crate) fn pair<A: ToJson, B: ToJson>(
    alloc: Global,
    first: &A,
    second: &B,
) -> Result<Json, OutOfMemory>
    ensures json { IfOk result (λ json. view json
        ≡ array (item (A.json_of first.now) (item (B.json_of second.now) no_items))) }
    ensures fits { OnOk result (A.Fits first.now × B.Fits second.now) }
{
    let mut items = Vec::new(alloc);
    items.push(first.to_json(alloc)?)?;
    items.push(second.to_json(alloc)?)?;
    Ok(Json::Array(items))
}

/// Returns an array of three items.
pub(crate) fn triple<A: ToJson, B: ToJson, C: ToJson>(
    alloc: Global,
    first: &A,
    second: &B,
    third: &C,
) -> Result<Json, OutOfMemory>
    ensures json { IfOk result (λ json. view json ≡ array (item (A.json_of first.now)
        (item (B.json_of second.now) (item (C.json_of third.now) no_items)))) }
    ensures fits { OnOk result (A.Fits first.now × B.Fits second.now × C.Fits third.now) }
{
    let mut items = Vec::new(alloc);
    items.push(first.to_json(alloc)?)?;
    items.push(second.to_json(alloc)?)?;
    items.push(third.to_json(alloc)?)?;
    Ok(Json::Array(items))
}
