//! Fixed words, numbers, strings, lists and JSON, appended to a text.
ghost use Rattle.std.specs.Prelude.{◌≡◌, ◌++◌, IsTrue, true, false, decimal, OnOk};
ghost use Rattle.std.specs.List.{list_all};
ghost use Rattle.json.specs.Print.{escape_byte};
ghost use Rattle.serde_json.specs.Data.{Data, string};
ghost use Rattle.serde_json.specs.View.{view};
ghost use Rattle.serde_json.specs.Written.{comma_if, compact_text, has_float};
ghost use Rattle.sc_base.specs.Text.{is_visible};
ghost use Rattle.sc_json_text.specs.rows.Shapes.{list_json};

use itoa::Buffer;
use sc_base::OutOfMemory;
use serde_json::Value as Json;
use std::alloc::Global;

/// A type whose values are appended to a text as JSON.
pub(crate) trait ToText: Sized {
    /// The JSON of a value.
    ghost json_of: { Self → Data };

    /// Appends the compact text of the value's JSON. The only error is out of memory.
    fn add_to(&self, text: &mut Vec<u8>) -> Result<(), OutOfMemory>
        ensures { OnOk result (text.new.items ≡
            text.old.items ++ compact_text (json_of self.now)) };
}

/// Appends a fixed word. One of one byte is pushed, since many are, and a copy of a slice costs more.
#[inline]
pub(crate) fn add_word(text: &mut Vec<u8>, word: &[u8]) -> Result<(), OutOfMemory>
    ensures { OnOk result (text.new.items ≡ text.old.items ++ word.now) }
{
    if word.len() == 1 {
        text.push(word[0])?;
        return Ok(());
    }
    text.extend_from_slice(word)?;
    Ok(())
}

/// Appends a fixed word, and a value behind it.
#[inline]
pub(crate) fn add_next<T: ToText>(
    text: &mut Vec<u8>,
    word: &[u8],
    value: &T,
) -> Result<(), OutOfMemory>
    ensures { OnOk result (text.new.items ≡
        text.old.items ++ (word.now ++ compact_text (T.json_of value.now))) }
{
    add_word(text, word)?;
    value.add_to(text)
}

/// Appends a number in decimal digits.
pub(crate) fn add_number(text: &mut Vec<u8>, number: u64) -> Result<(), OutOfMemory>
    ensures { OnOk result (text.new.items ≡ text.old.items ++ decimal number) }
{
    let mut digits = Buffer::new();
    text.extend_from_slice(digits.format(number).as_bytes())?;
    Ok(())
}

// Appends what stands in a JSON string for a visible byte.
#[inline]
fn add_byte(text: &mut Vec<u8>, byte: u8) -> Result<(), OutOfMemory>
    requires { is_visible byte ≡ true }
    ensures { OnOk result (text.new.items ≡ text.old.items ++ escape_byte byte) }
{
    if byte == b'"' || byte == b'\\' {
        return add_word(text, &[b'\\', byte]);
    }
    text.push(byte)?;
    Ok(())
}

/// Appends the JSON string of visible bytes.
pub(crate) fn add_string(text: &mut Vec<u8>, bytes: &[u8]) -> Result<(), OutOfMemory>
    requires { IsTrue (list_all is_visible bytes.now) }
    ensures { OnOk result (text.new.items ≡
        text.old.items ++ compact_text (string bytes.now)) }
{
    text.push(b'"')?;
    for byte in bytes {
        add_byte(text, *byte)?;
    }
    text.push(b'"')?;
    Ok(())
}

// Appends a comma, where something stands before.
#[inline]
fn add_comma(text: &mut Vec<u8>, later: bool) -> Result<(), OutOfMemory>
    ensures { OnOk result (text.new.items ≡ text.old.items ++ comma_if later) }
{
    if later {
        return add_word(text, b",");
    }
    Ok(())
}

/// Appends the array of these values.
pub(crate) fn add_list<T: ToText>(text: &mut Vec<u8>, values: &[T]) -> Result<(), OutOfMemory>
    ensures { OnOk result (text.new.items ≡
        text.old.items ++ compact_text (list_json T.json_of values.now)) }
{
    add_word(text, b"[")?;
    let mut later = false;
    for value in values {
        add_comma(text, later)?;
        value.add_to(text)?;
        later = true;
    }
    add_word(text, b"]")
}

/// Appends the compact text of a JSON without floats.
pub(crate) fn add_json(alloc: Global, text: &mut Vec<u8>, json: &Json) -> Result<(), OutOfMemory>
    requires { has_float (view json.now) ≡ false }
    ensures { OnOk result (text.new.items ≡ text.old.items ++ compact_text (view json.now)) }
{
    let bytes = json.to_vec(alloc)?;
    text.extend_from_slice(bytes.as_slice())?;
    Ok(())
}
