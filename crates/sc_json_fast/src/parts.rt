//! Values between fixed words of a text.
ghost use Rattle.std.specs.Prelude.{◌≡◌, ◌++◌, IfSome};
ghost use Rattle.serde_json.specs.Written.{compact_text};
ghost use Rattle.sc_json_fast.specs.Prefixes.{IsOnly};

use crate::from_text::FromText;
use crate::words::behind;
use std::alloc::Global;

/// Returns the value behind a fixed word that begins the bytes, and the bytes behind it.
#[inline]
pub(crate) fn next<'a, T: FromText>(
    alloc: Global,
    bytes: &'a [u8],
    word: &[u8],
) -> Option<(T, &'a [u8])>
    ensures text { IfSome result (λ found. bytes.now
        ≡ word.now ++ (compact_text (T.json_of found.0) ++ found.1.now)) }
    ensures only { IfSome result (λ found. IsOnly T.json_of T.Fits found.0) }
{
    T::take(alloc, behind(bytes, word)?)
}

/// Returns the value between two fixed words, and the bytes behind them.
#[inline]
pub(crate) fn one_of<'a, T: FromText + Drop>(
    alloc: Global,
    bytes: &'a [u8],
    first: &[u8],
    last: &[u8],
) -> Option<(T, &'a [u8])>
    ensures text { IfSome result (λ found. bytes.now
        ≡ first.now ++ (compact_text (T.json_of found.0) ++ (last.now ++ found.1.now))) }
    ensures only { IfSome result (λ found. IsOnly T.json_of T.Fits found.0) }
{
    let (value, rest) = next(alloc, bytes, first)?;
    let rest = behind(rest, last)?;
    Some((value, rest))
}

/// Returns the two values between three fixed words, and the bytes behind them.
#[inline]
pub(crate) fn two_of<'a, A: FromText + Drop, B: FromText + Drop>(
    alloc: Global,
    bytes: &'a [u8],
    first: &[u8],
    second: &[u8],
    last: &[u8],
) -> Option<(A, B, &'a [u8])>
    ensures text { IfSome result (λ found. bytes.now
        ≡ first.now ++ (compact_text (A.json_of found.0)
        ++ (second.now ++ (compact_text (B.json_of found.1) ++ (last.now ++ found.2.now))))) }
    ensures a { IfSome result (λ found. IsOnly A.json_of A.Fits found.0) }
    ensures b { IfSome result (λ found. IsOnly B.json_of B.Fits found.1) }
{
    let (a, rest) = next(alloc, bytes, first)?;
    let (b, rest) = one_of(alloc, rest, second, last)?;
    Some((a, b, rest))
}

/// Returns the three values between four fixed words, and the bytes behind them.
#[inline]
pub(crate) fn three_of<'a, A: FromText + Drop, B: FromText + Drop, C: FromText + Drop>(
    alloc: Global,
    bytes: &'a [u8],
    first: &[u8],
    second: &[u8],
    third: &[u8],
    last: &[u8],
) -> Option<(A, B, C, &'a [u8])>
    ensures text { IfSome result (λ found. bytes.now
        ≡ first.now ++ (compact_text (A.json_of found.0)
        ++ (second.now ++ (compact_text (B.json_of found.1)
        ++ (third.now ++ (compact_text (C.json_of found.2) ++ (last.now ++ found.3.now))))))) }
    ensures a { IfSome result (λ found. IsOnly A.json_of A.Fits found.0) }
    ensures b { IfSome result (λ found. IsOnly B.json_of B.Fits found.1) }
    ensures c { IfSome result (λ found. IsOnly C.json_of C.Fits found.2) }
{
    let (a, rest) = next(alloc, bytes, first)?;
    let (b, c, rest) = two_of(alloc, rest, second, third, last)?;
    Some((a, b, c, rest))
}

/// Returns the four values between five fixed words, and the bytes behind them.
#[inline]
pub(crate) fn four_of<
    'a,
    A: FromText + Drop,
    B: FromText + Drop,
    C: FromText + Drop,
    D: FromText + Drop,
>(
    alloc: Global,
    bytes: &'a [u8],
    first: &[u8],
    second: &[u8],
    third: &[u8],
    fourth: &[u8],
    last: &[u8],
) -> Option<(A, B, C, D, &'a [u8])>
    ensures text { IfSome result (λ found. bytes.now
        ≡ first.now ++ (compact_text (A.json_of found.0)
        ++ (second.now ++ (compact_text (B.json_of found.1)
        ++ (third.now ++ (compact_text (C.json_of found.2)
        ++ (fourth.now ++ (compact_text (D.json_of found.3) ++ (last.now ++ found.4.now))))))))) }
    ensures a { IfSome result (λ found. IsOnly A.json_of A.Fits found.0) }
    ensures b { IfSome result (λ found. IsOnly B.json_of B.Fits found.1) }
    ensures c { IfSome result (λ found. IsOnly C.json_of C.Fits found.2) }
    ensures d { IfSome result (λ found. IsOnly D.json_of D.Fits found.3) }
{
    let (a, rest) = next(alloc, bytes, first)?;
    let (b, c, d, rest) = three_of(alloc, rest, second, third, fourth, last)?;
    Some((a, b, c, d, rest))
}
