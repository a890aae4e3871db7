//! The members of an object, read in their order.
ghost use Rattle.std.specs.Prelude.{◌≡◌, Ok, IsOk, IsSomeAnd, IfOk, IfSome};
ghost use Rattle.serde_json.specs.Data.{Data, Members, object, member, no_members};
ghost use Rattle.serde_json.specs.View.{view, members_view};
ghost use Rattle.sc_json_read.specs.Reading.{Finds};

use crate::errors::RowError;
use crate::from_json::FromJson;
use serde_json::Value as Json;
use std::alloc::Global;
use std::collections::btree_map::Iter;

/// Returns the members of an object.
pub(crate) fn members_of(json: &Json) -> Result<Iter<String, Json>, RowError>
    ensures finds { (ms : Members) → view json.now ≡ object ms → IsOk result }
    ensures exact { IfOk result (λ members. view json.now ≡ object (members_view members)) }
{
    match json {
        Json::Object(members) => Ok(members.iter()),
        _ => Err(RowError::NoRow),
    }
}

/// Returns the content of the next member, if it has this name.
fn content_at<'a>(members: &mut Iter<'a, String, Json>, name: &str) -> Option<&'a Json>
    ensures finds { (content : Data) (rest : Members)
        → members_view members.old ≡ member name.now content rest
        → IsSomeAnd result (λ found. view found.now ≡ content) }
    ensures exact { IfSome result (λ found. members_view members.old
        ≡ member name.now (view found.now) (members_view members.new)) }
{
    match members.next() {
        Some((key, content)) if key.as_str() == name => Some(content),
        _ => None,
    }
}

/// Returns the value of the next member, if it has this name.
pub(crate) fn next_of<T: FromJson>(
    alloc: Global,
    members: &mut Iter<String, Json>,
    name: &str,
) -> Result<T, RowError>
    ensures finds { (value : T) (rest : Members) → T.Fits value
        → members_view members.old ≡ member name.now (T.json_of value) rest → Finds value result }
    ensures exact { IfOk result (λ value. members_view members.old
        ≡ member name.now (T.json_of value) (members_view members.new)) }
{
    match content_at(members, name) {
        Some(content) => T::from_json(alloc, content),
        None => Err(RowError::NoRow),
    }
}

/// Returns the values of the next two members, if they have these names.
pub(crate) fn two_next<A: FromJson + Drop, B: FromJson + Drop>(
    alloc: Global,
    members: &mut Iter<String, Json>,
    first: &str,
    second: &str,
) -> Result<(A, B), RowError>
    ensures finds { (a : A) (b : B) (rest : Members)
        → A.Fits a → B.Fits b
        → members_view members.old
        ≡ member first.now (A.json_of a) (member second.now (B.json_of b) rest)
        → Finds (a, b) result }
    ensures exact { IfOk result (λ p. members_view members.old
        ≡ member first.now (A.json_of p.0)
        (member second.now (B.json_of p.1) (members_view members.new))) }
{
    let a = next_of(alloc, members, first)?;
    let b = next_of(alloc, members, second)?;
    Ok((a, b))
}

/// Returns the values of the next three members, if they have these names.
pub(crate) fn three_next<A: FromJson + Drop, B: FromJson + Drop, C: FromJson + Drop>(
    alloc: Global,
    members: &mut Iter<String, Json>,
    first: &str,
    second: &str,
    third: &str,
) -> Result<(A, B, C), RowError>
    ensures finds { (a : A) (b : B) (c : C) (rest : Members)
        → A.Fits a → B.Fits b → C.Fits c
        → members_view members.old
        ≡ member first.now (A.json_of a)
        (member second.now (B.json_of b)
        (member third.now (C.json_of c) rest))
        → Finds (a, b, c) result }
    ensures exact { IfOk result (λ p. members_view members.old
        ≡ member first.now (A.json_of p.0)
        (member second.now (B.json_of p.1)
        (member third.now (C.json_of p.2) (members_view members.new)))) }
{
    let (a, b) = two_next(alloc, members, first, second)?;
    let c = next_of(alloc, members, third)?;
    Ok((a, b, c))
}

/// Returns the values of the next four members, if they have these names.
pub(crate) fn four_next<
    A: FromJson + Drop,
    B: FromJson + Drop,
    C: FromJson + Drop,
    D: FromJson + Drop,
>(
    alloc: Global,
    members: &mut Iter<String, Json>,
    first: &str,
    second: &str,
    third: &str,
    fourth: &str,
) -> Result<(A, B, C, D), RowError>
    ensures finds { (a : A) (b : B) (c : C) (d : D) (rest : Members)
        → A.Fits a → B.Fits b → C.Fits c → D.Fits d
        → members_view members.old
        ≡ member first.now (A.json_of a)
        (member second.now (B.json_of b)
        (member third.now (C.json_of c)
        (member fourth.now (D.json_of d) rest)))
        → Finds (a, b, c, d) result }
    ensures exact { IfOk result (λ p. members_view members.old
        ≡ member first.now (A.json_of p.0)
        (member second.now (B.json_of p.1)
        (member third.now (C.json_of p.2)
        (member fourth.now (D.json_of p.3) (members_view members.new))))) }
{
    let (a, b) = two_next(alloc, members, first, second)?;
    let (c, d) = two_next(alloc, members, third, fourth)?;
    Ok((a, b, c, d))
}

/// Returns the values of the next five members, if they have these names.
pub(crate) fn five_next<
    A: FromJson + Drop,
    B: FromJson + Drop,
    C: FromJson + Drop,
    D: FromJson + Drop,
    E: FromJson + Drop,
>(
    alloc: Global,
    members: &mut Iter<String, Json>,
    first: &str,
    second: &str,
    third: &str,
    fourth: &str,
    fifth: &str,
) -> Result<(A, B, C, D, E), RowError>
    ensures finds { (a : A) (b : B) (c : C) (d : D) (e : E) (rest : Members)
        → A.Fits a → B.Fits b → C.Fits c → D.Fits d → E.Fits e
        → members_view members.old
        ≡ member first.now (A.json_of a)
        (member second.now (B.json_of b)
        (member third.now (C.json_of c)
        (member fourth.now (D.json_of d)
        (member fifth.now (E.json_of e) rest))))
        → Finds (a, b, c, d, e) result }
    ensures exact { IfOk result (λ p. members_view members.old
        ≡ member first.now (A.json_of p.0)
        (member second.now (B.json_of p.1)
        (member third.now (C.json_of p.2)
        (member fourth.now (D.json_of p.3)
        (member fifth.now (E.json_of p.4) (members_view members.new)))))) }
{
    let (a, b, c) = three_next(alloc, members, first, second, third)?;
    let (d, e) = two_next(alloc, members, fourth, fifth)?;
    Ok((a, b, c, d, e))
}

/// Returns the values of the next six members, if they have these names.
pub(crate) fn six_next<
    A: FromJson + Drop,
    B: FromJson + Drop,
    C: FromJson + Drop,
    D: FromJson + Drop,
    E: FromJson + Drop,
    F: FromJson + Drop,
>(
    alloc: Global,
    members: &mut Iter<String, Json>,
    first: &str,
    second: &str,
    third: &str,
    fourth: &str,
    fifth: &str,
    sixth: &str,
) -> Result<(A, B, C, D, E, F), RowError>
    ensures finds { (a : A) (b : B) (c : C) (d : D) (e : E) (f : F) (rest : Members)
        → A.Fits a → B.Fits b → C.Fits c → D.Fits d → E.Fits e → F.Fits f
        → members_view members.old
        ≡ member first.now (A.json_of a)
        (member second.now (B.json_of b)
        (member third.now (C.json_of c)
        (member fourth.now (D.json_of d)
        (member fifth.now (E.json_of e)
        (member sixth.now (F.json_of f) rest)))))
        → Finds (a, b, c, d, e, f) result }
    ensures exact { IfOk result (λ p. members_view members.old
        ≡ member first.now (A.json_of p.0)
        (member second.now (B.json_of p.1)
        (member third.now (C.json_of p.2)
        (member fourth.now (D.json_of p.3)
        (member fifth.now (E.json_of p.4)
        (member sixth.now (F.json_of p.5) (members_view members.new))))))) }
{
    let (a, b, c) = three_next(alloc, members, first, second, third)?;
    let (d, e, f) = three_next(alloc, members, fourth, fifth, sixth)?;
    Ok((a, b, c, d, e, f))
}

/// Returns the value that was read, if no member is left.
pub(crate) fn at_end<T: Drop>(members: &mut Iter<String, Json>, value: T) -> Result<T, RowError>
    ensures finds { members_view members.old ≡ no_members → result ≡ Ok value }
    ensures exact { IfOk result (λ found. (found ≡ value)
        × (members_view members.old ≡ no_members)) }
{
    match members.next() {
        Some(_) => Err(RowError::NoRow),
        None => Ok(value),
    }
}
