//! What single words of a line spell.
ghost use Rattle.std.specs.Prelude.{◌≡◌, ◌≤◌, map, drop, IfOk, IfSome};
ghost use Rattle.sc_texts.specs.lines.Words.{same, nth, count_in, key_in, value_in};

use sc_base::{Key, KeyError, OutOfMemory, Value, read_number};
use std::alloc::Global;

/// Returns whether two texts are equal.
pub fn is_text(text: &[u8], other: &[u8]) -> bool
    ensures { result ≡ same text.now other.now }
{
    text == other
}

/// Returns the k-th of these texts, counted from 0, or the empty text where there is none.
pub fn nth<'a>(texts: &[&'a [u8]], k: usize) -> &'a [u8]
    ensures { result.now ≡ nth (map (λ text. text.now) texts.now) k }
{
    if k < texts.len() { texts[k] } else { b"" }
}

/// Returns the texts from the n-th on, counted from 0, or none where there are fewer.
pub fn rest<'a, 'b>(texts: &'b [&'a [u8]], n: usize) -> &'b [&'a [u8]]
    ensures { map (λ text. text.now) result.now ≡ drop n (map (λ text. text.now) texts.now) }
{
    if n <= texts.len() { &texts[n..] } else { &[] }
}

/// Returns the number from 1 to `most` that a word spells, or `None` where it spells none.
pub fn count_in(word: &[u8], most: u32) -> Option<u32>
    ensures same { result ≡ count_in most word.now }
    ensures bounds { IfSome result (λ n. (1 ≤ n) × (n ≤ most)) }
{
    match read_number(word, most as u64) {
        Some(n) if 1 <= n => Some(n as u32),
        _ => None,
    }
}

/// Returns the key that a word spells, or `None` where it spells none.
pub(crate) fn key_in(alloc: Global, word: &[u8]) -> Result<Option<Key>, OutOfMemory>
    ensures { IfOk result (λ key. key ≡ key_in word.now) }
{
    match Key::try_new(alloc, word) {
        Ok(key) => Ok(Some(key)),
        Err(KeyError::OutOfMemory) => Err(OutOfMemory),
        Err(KeyError::Empty | KeyError::TooLong { .. } | KeyError::BadByte { .. }) => Ok(None),
    }
}

/// Returns the value that a word spells, or `None` where it spells none.
pub(crate) fn value_in(alloc: Global, word: &[u8]) -> Result<Option<Value>, OutOfMemory>
    ensures { IfOk result (λ value. value ≡ value_in word.now) }
{
    match Value::try_new(alloc, word) {
        Ok(value) => Ok(Some(value)),
        Err(KeyError::OutOfMemory) => Err(OutOfMemory),
        Err(KeyError::Empty | KeyError::TooLong { .. } | KeyError::BadByte { .. }) => Ok(None),
    }
}
