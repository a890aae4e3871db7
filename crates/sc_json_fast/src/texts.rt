//! Keys and values, read from their texts, which are JSON strings.
ghost use Rattle.std.specs.Prelude.{◌≡◌, ◌≤◌, ◌++◌, length, IfSome};
ghost use Rattle.std.specs.List.{list_all};
ghost use Rattle.serde_json.specs.Data.{string};
ghost use Rattle.serde_json.specs.Written.{compact_text};
ghost use Rattle.sc_json_text.specs.rows.Held.{FitsKey, FitsValue};
ghost use Rattle.sc_json_text.specs.rows.Shapes.{option_json};
ghost use Rattle.sc_json_text.specs.rows.Held.{OptionFits};
ghost use Rattle.sc_json_fast.specs.Prefixes.{is_bare};

use crate::from_text::FromText;
use crate::words::behind;
use sc_base::{Key, Value};
use std::alloc::Global;

// Returns the number of bytes before the first quote.
fn quote_at(bytes: &[u8]) -> usize
    ensures { result ≤ length bytes.now }
{
    match bytes.iter().position(|byte| *byte == b'"') {
        Some(count) => count,
        None => bytes.len(),
    }
}

// Returns whether a JSON string has the byte as it is.
fn is_bare(byte: u8) -> bool
    ensures { result ≡ is_bare byte }
{
    32 <= byte && byte != b'"' && byte != b'\\'
}

// Returns whether a JSON string has each of the bytes as it is.
fn are_bare(bytes: &[u8]) -> bool
    ensures { result ≡ list_all is_bare bytes.now }
{
    bytes.iter().all(|byte| is_bare(*byte))
}

// Returns the content of the JSON string that begins the bytes, if it has each byte as it is, and
// the bytes behind it.
fn string_at(bytes: &[u8]) -> Option<(&[u8], &[u8])>
    ensures { IfSome result
        (λ found. bytes.now ≡ compact_text (string found.0.now) ++ found.1.now) }
{
    let inner = behind(bytes, b"\"")?;
    let (text, quoted) = inner.split_at(quote_at(inner));
    let rest = behind(quoted, b"\"")?;
    if are_bare(text) {
        Some((text, rest))
    } else {
        None
    }
}

impl FromText for Key {
    ghost json_of = { string };

    ghost Fits = { FitsKey };

    fn take(alloc: Global, bytes: &[u8]) -> Option<(Key, &[u8])> {
        let (text, rest) = string_at(bytes)?;
        match Key::try_new(alloc, text) {
            Ok(key) => Some((key, rest)),
            Err(_) => None,
        }
    }
}

impl FromText for Value {
    ghost json_of = { string };

    ghost Fits = { FitsValue };

    fn take(alloc: Global, bytes: &[u8]) -> Option<(Value, &[u8])> {
        let (text, rest) = string_at(bytes)?;
        match Value::try_new(alloc, text) {
            Ok(value) => Some((value, rest)),
            Err(_) => None,
        }
    }
}

impl FromText for Option<Value> {
    ghost json_of = { option_json string };

    ghost Fits = { OptionFits FitsValue };

    fn take(alloc: Global, bytes: &[u8]) -> Option<(Option<Value>, &[u8])> {
        if let Some(rest) = behind(bytes, b"null") {
            return Some((None, rest));
        }
        let (value, rest) = Value::take(alloc, bytes)?;
        Some((Some(value), rest))
    }
}
