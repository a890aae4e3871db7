//! The items of arrays.
ghost use Rattle.std.specs.Prelude.{◌≡◌, Ok, IsOk, IfOk};
ghost use Rattle.serde_json.specs.Data.{Items, array, item, no_items};
ghost use Rattle.serde_json.specs.View.{view, items_view};
ghost use Rattle.sc_json_read.specs.Reading.{Finds, Shows};
ghost use Rattle.sc_json_text.specs.rows.Shapes.{pair_json};

use crate::errors::RowError;
use crate::from_json::FromJson;
use serde_json::Value as Json;
use std::alloc::Global;

/// Returns the items of an array.
#[tactic(auto, using(crate::proofs::Arrays::is_array))]
fn items_in(json: &Json) -> Result<&[Json], RowError>
    ensures finds { (ds : Items) → view json.now ≡ array ds → IsOk result }
    ensures exact { IfOk result (λ items. view json.now ≡ array (items_view items.now)) }
{
    match json.as_array() {
        Some(list) => Ok(list.as_slice()),
        None => Err(RowError::NoRow),
    }
}

/// Returns the value of the first item, and the items behind it.
fn first_of<'a, T: FromJson + Drop>(
    alloc: Global,
    items: &'a [Json],
) -> Result<(T, &'a [Json]), RowError>
    ensures finds { (value : T) (rest : Items) → T.Fits value
        → items_view items.now ≡ item (T.json_of value) rest
        → Shows (λ found. found.0) value result }
    ensures exact { IfOk result (λ found.
        items_view items.now ≡ item (T.json_of found.0) (items_view found.1.now)) }
{
    match items.split_first() {
        Some((first, rest)) => {
            let value = T::from_json(alloc, first)?;
            Ok((value, rest))
        }
        None => Err(RowError::NoRow),
    }
}

/// Returns the value that was read, if no item is left.
fn no_more<T: Drop>(items: &[Json], value: T) -> Result<T, RowError>
    ensures finds { items_view items.now ≡ no_items → result ≡ Ok value }
    ensures exact { IfOk result (λ found. (found ≡ value) × (items_view items.now ≡ no_items)) }
{
    match items.split_first() {
        Some(_) => Err(RowError::NoRow),
        None => Ok(value),
    }
}

/// Returns the values of an array's two items.
pub(crate) fn pair_in<A: FromJson + Drop, B: FromJson + Drop>(
    alloc: Global,
    json: &Json,
) -> Result<(A, B), RowError>
    ensures finds { (a : A) (b : B) → A.Fits a → B.Fits b
        → view json.now ≡ pair_json A.json_of B.json_of (a, b) → Finds (a, b) result }
    ensures exact { IfOk result (λ p. view json.now ≡ pair_json A.json_of B.json_of p) }
{
    let items = items_in(json)?;
    let (a, items) = first_of(alloc, items)?;
    let (b, items) = first_of(alloc, items)?;
    no_more(items, (a, b))
}

/// Returns the values of an array's three items.
pub(crate) fn triple_in<A: FromJson + Drop, B: FromJson + Drop, C: FromJson + Drop>(
    alloc: Global,
    json: &Json,
) -> Result<(A, B, C), RowError>
    ensures finds { (a : A) (b : B) (c : C) → A.Fits a → B.Fits b → C.Fits c
        → view json.now
        ≡ array (item (A.json_of a) (item (B.json_of b) (item (C.json_of c) no_items)))
        → Finds (a, b, c) result }
    ensures exact { IfOk result (λ p. view json.now
        ≡ array (item (A.json_of p.0) (item (B.json_of p.1) (item (C.json_of p.2) no_items)))) }
{
    let items = items_in(json)?;
    let (a, items) = first_of(alloc, items)?;
    let (b, items) = first_of(alloc, items)?;
    let (c, items) = first_of(alloc, items)?;
    no_more(items, (a, b, c))
}
