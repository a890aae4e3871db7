//! Objects with members of these names, in this order, and no others.
ghost use Rattle.std.specs.Prelude.{◌≡◌, IfOk, [], ◌∷◌};
ghost use Rattle.serde_json.specs.View.{view};
ghost use Rattle.sc_json_read.specs.Reading.{Finds};
ghost use Rattle.sc_json_text.specs.rows.Shapes.{fields};

use crate::errors::RowError;
use crate::from_json::FromJson;
use crate::next_members::{
    at_end, five_next, four_next, members_of, next_of, six_next, three_next, two_next,
};
use serde_json::Value as Json;
use std::alloc::Global;

/// Returns the value of an object's only member, if it has this name.
pub(crate) fn single_of<A: FromJson + Drop>(
    alloc: Global,
    json: &Json,
    name: &str,
) -> Result<A, RowError>
    ensures finds { (a : A)
        → A.Fits a
        → view json.now ≡ fields ((name.now, A.json_of a) ∷ [])
        → Finds a result }
    ensures exact { IfOk result (λ p. view json.now ≡ fields ((name.now, A.json_of p) ∷ [])) }
{
    let mut members = members_of(json)?;
    let found = next_of(alloc, &mut members, name)?;
    at_end(&mut members, found)
}

/// Returns the values of an object's two members, if they have these names, in this order.
pub fn pair_of<A: FromJson + Drop, B: FromJson + Drop>(
    alloc: Global,
    json: &Json,
    first: &str,
    second: &str,
) -> Result<(A, B), RowError>
    ensures finds { (a : A) (b : B)
        → A.Fits a → B.Fits b
        → view json.now ≡ fields ((first.now, A.json_of a) ∷ (second.now, B.json_of b) ∷ [])
        → Finds (a, b) result }
    ensures exact { IfOk result (λ p. view json.now ≡ fields
        ((first.now, A.json_of p.0)
        ∷ (second.now, B.json_of p.1)
        ∷ [])) }
{
    let mut members = members_of(json)?;
    let found = two_next(alloc, &mut members, first, second)?;
    at_end(&mut members, found)
}

/// Returns the values of an object's three members, if they have these names, in this order.
pub fn triple_of<A: FromJson + Drop, B: FromJson + Drop, C: FromJson + Drop>(
    alloc: Global,
    json: &Json,
    first: &str,
    second: &str,
    third: &str,
) -> Result<(A, B, C), RowError>
    ensures finds { (a : A) (b : B) (c : C)
        → A.Fits a → B.Fits b → C.Fits c
        → view json.now ≡ fields
        ((first.now, A.json_of a)
        ∷ (second.now, B.json_of b)
        ∷ (third.now, C.json_of c)
        ∷ [])
        → Finds (a, b, c) result }
    ensures exact { IfOk result (λ p. view json.now ≡ fields
        ((first.now, A.json_of p.0)
        ∷ (second.now, B.json_of p.1)
        ∷ (third.now, C.json_of p.2)
        ∷ [])) }
{
    let mut members = members_of(json)?;
    let found = three_next(alloc, &mut members, first, second, third)?;
    at_end(&mut members, found)
}

/// Returns the values of an object's four members, if they have these names, in this order.
pub fn four_of<A: FromJson + Drop, B: FromJson + Drop, C: FromJson + Drop, D: FromJson + Drop>(
    alloc: Global,
    json: &Json,
    first: &str,
    second: &str,
    third: &str,
    fourth: &str,
) -> Result<(A, B, C, D), RowError>
    ensures finds { (a : A) (b : B) (c : C) (d : D)
        → A.Fits a → B.Fits b → C.Fits c → D.Fits d
        → view json.now ≡ fields
        ((first.now, A.json_of a)
        ∷ (second.now, B.json_of b)
        ∷ (third.now, C.json_of c)
        ∷ (fourth.now, D.json_of d)
        ∷ [])
        → Finds (a, b, c, d) result }
    ensures exact { IfOk result (λ p. view json.now ≡ fields
        ((first.now, A.json_of p.0)
        ∷ (second.now, B.json_of p.1)
        ∷ (third.now, C.json_of p.2)
        ∷ (fourth.now, D.json_of p.3)
        ∷ [])) }
{
    let mut members = members_of(json)?;
    let found = four_next(alloc, &mut members, first, second, third, fourth)?;
    at_end(&mut members, found)
}

/// Returns the values of an object's five members, if they have these names, in this order.
pub(crate) fn five_of<
    A: FromJson + Drop,
    B: FromJson + Drop,
    C: FromJson + Drop,
    D: FromJson + Drop,
    E: FromJson + Drop,
>(
    alloc: Global,
    json: &Json,
    first: &str,
    second: &str,
    third: &str,
    fourth: &str,
    fifth: &str,
) -> Result<(A, B, C, D, E), RowError>
    ensures finds { (a : A) (b : B) (c : C) (d : D) (e : E)
        → A.Fits a → B.Fits b → C.Fits c → D.Fits d → E.Fits e
        → view json.now ≡ fields
        ((first.now, A.json_of a)
        ∷ (second.now, B.json_of b)
        ∷ (third.now, C.json_of c)
        ∷ (fourth.now, D.json_of d)
        ∷ (fifth.now, E.json_of e)
        ∷ [])
        → Finds (a, b, c, d, e) result }
    ensures exact { IfOk result (λ p. view json.now ≡ fields
        ((first.now, A.json_of p.0)
        ∷ (second.now, B.json_of p.1)
        ∷ (third.now, C.json_of p.2)
        ∷ (fourth.now, D.json_of p.3)
        ∷ (fifth.now, E.json_of p.4)
        ∷ [])) }
{
    let mut members = members_of(json)?;
    let found = five_next(alloc, &mut members, first, second, third, fourth, fifth)?;
    at_end(&mut members, found)
}

/// Returns the values of an object's six members, if they have these names, in this order.
pub(crate) fn six_of<
    A: FromJson + Drop,
    B: FromJson + Drop,
    C: FromJson + Drop,
    D: FromJson + Drop,
    E: FromJson + Drop,
    F: FromJson + Drop,
>(
    alloc: Global,
    json: &Json,
    first: &str,
    second: &str,
    third: &str,
    fourth: &str,
    fifth: &str,
    sixth: &str,
) -> Result<(A, B, C, D, E, F), RowError>
    ensures finds { (a : A) (b : B) (c : C) (d : D) (e : E) (f : F)
        → A.Fits a → B.Fits b → C.Fits c → D.Fits d → E.Fits e → F.Fits f
        → view json.now ≡ fields
        ((first.now, A.json_of a)
        ∷ (second.now, B.json_of b)
        ∷ (third.now, C.json_of c)
        ∷ (fourth.now, D.json_of d)
        ∷ (fifth.now, E.json_of e)
        ∷ (sixth.now, F.json_of f)
        ∷ [])
        → Finds (a, b, c, d, e, f) result }
    ensures exact { IfOk result (λ p. view json.now ≡ fields
        ((first.now, A.json_of p.0)
        ∷ (second.now, B.json_of p.1)
        ∷ (third.now, C.json_of p.2)
        ∷ (fourth.now, D.json_of p.3)
        ∷ (fifth.now, E.json_of p.4)
        ∷ (sixth.now, F.json_of p.5)
        ∷ [])) }
{
    let mut members = members_of(json)?;
    let found = six_next(
        alloc,
        &mut members,
        first,
        second,
        third,
        fourth,
        fifth,
        sixth,
    )?;
    at_end(&mut members, found)
}

/// Returns the values of an object's twelve members, if they have these names, in this order, as
/// two times six.
pub(crate) fn twelve_of<
    A: FromJson + Drop,
    B: FromJson + Drop,
    C: FromJson + Drop,
    D: FromJson + Drop,
    E: FromJson + Drop,
    F: FromJson + Drop,
    G: FromJson + Drop,
    H: FromJson + Drop,
    I: FromJson + Drop,
    J: FromJson + Drop,
    K: FromJson + Drop,
    L: FromJson + Drop,
>(
    alloc: Global,
    json: &Json,
    firsts: (&str, &str, &str, &str, &str, &str),
    lasts: (&str, &str, &str, &str, &str, &str),
) -> Result<((A, B, C, D, E, F), (G, H, I, J, K, L)), RowError>
    ensures finds { (a : A) (b : B) (c : C) (d : D) (e : E) (f : F)
        (g : G) (h : H) (i : I) (j : J) (k : K) (l : L)
        → A.Fits a → B.Fits b → C.Fits c → D.Fits d → E.Fits e → F.Fits f
        → G.Fits g → H.Fits h → I.Fits i → J.Fits j → K.Fits k → L.Fits l
        → view json.now ≡ fields
        ((firsts.entry.0.now, A.json_of a)
        ∷ (firsts.entry.1.now, B.json_of b)
        ∷ (firsts.entry.2.now, C.json_of c)
        ∷ (firsts.entry.3.now, D.json_of d)
        ∷ (firsts.entry.4.now, E.json_of e)
        ∷ (firsts.entry.5.now, F.json_of f)
        ∷ (lasts.entry.0.now, G.json_of g)
        ∷ (lasts.entry.1.now, H.json_of h)
        ∷ (lasts.entry.2.now, I.json_of i)
        ∷ (lasts.entry.3.now, J.json_of j)
        ∷ (lasts.entry.4.now, K.json_of k)
        ∷ (lasts.entry.5.now, L.json_of l)
        ∷ [])
        → Finds ((a, b, c, d, e, f), (g, h, i, j, k, l)) result }
    ensures exact { IfOk result (λ p. view json.now ≡ fields
        ((firsts.entry.0.now, A.json_of p.0.0)
        ∷ (firsts.entry.1.now, B.json_of p.0.1)
        ∷ (firsts.entry.2.now, C.json_of p.0.2)
        ∷ (firsts.entry.3.now, D.json_of p.0.3)
        ∷ (firsts.entry.4.now, E.json_of p.0.4)
        ∷ (firsts.entry.5.now, F.json_of p.0.5)
        ∷ (lasts.entry.0.now, G.json_of p.1.0)
        ∷ (lasts.entry.1.now, H.json_of p.1.1)
        ∷ (lasts.entry.2.now, I.json_of p.1.2)
        ∷ (lasts.entry.3.now, J.json_of p.1.3)
        ∷ (lasts.entry.4.now, K.json_of p.1.4)
        ∷ (lasts.entry.5.now, L.json_of p.1.5)
        ∷ [])) }
{
    let mut members = members_of(json)?;
    let (first, second, third, fourth, fifth, sixth) = firsts;
    let begun = six_next(
        alloc,
        &mut members,
        first,
        second,
        third,
        fourth,
        fifth,
        sixth,
    )?;
    let (first, second, third, fourth, fifth, sixth) = lasts;
    let ended = six_next(
        alloc,
        &mut members,
        first,
        second,
        third,
        fourth,
        fifth,
        sixth,
    )?;
    at_end(&mut members, (begun, ended))
}
