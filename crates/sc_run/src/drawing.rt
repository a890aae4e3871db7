//! Requests that are drawn.
ghost use Rattle.std.specs.Prelude.{◌≡◌, ◌≤◌, ◌<◌, ◌+◌, ◌*◌, ◌∷◌, None, IfOk};
ghost use Rattle.std.specs.Fmt.{decimal};
ghost use Rattle.sc_base.specs.Limits.{longest_key, longest_value};
ghost use Rattle.sc_base.specs.TextErrors.{text_error};
ghost use Rattle.sc_scenario.specs.scenario.Made.{made_key, made_value, made_op, made_ops};

use sc_base::{Key, Op, OutOfMemory, Sequence, Value};
use sc_texts::Chance;
use std::alloc::Global;

// Returns a byte followed by the digits of a number.
fn numbered(alloc: Global, byte: u8, number: u16) -> Result<Vec<u8>, OutOfMemory>
    ensures { IfOk result (λ text. text.items ≡ byte ∷ decimal number) }
{
    let digits = format!(in alloc; "{number}")?;
    let mut text = Vec::new(alloc);
    text.push(byte)?;
    text.extend_from_slice(digits.as_bytes())?;
    Ok(text)
}

// Returns the key of a text that is one, so that only memory can be missing.
fn kept_key(alloc: Global, text: &[u8]) -> Result<Key, OutOfMemory>
    requires { text_error longest_key text.now ≡ None }
    ensures { IfOk result (λ key. key ≡ text.now) }
{
    match Key::try_new(alloc, text) {
        Ok(key) => Ok(key),
        Err(_) => Err(OutOfMemory),
    }
}

// Returns the value of a text that is one, so that only memory can be missing.
fn kept_value(alloc: Global, text: &[u8]) -> Result<Value, OutOfMemory>
    requires { text_error longest_value text.now ≡ None }
    ensures { IfOk result (λ value. value ≡ text.now) }
{
    match Value::try_new(alloc, text) {
        Ok(value) => Ok(value),
        Err(_) => Err(OutOfMemory),
    }
}

fn made_key(alloc: Global, word: u32, client: u16) -> Result<Key, OutOfMemory>
    ensures { IfOk result (λ key. key ≡ made_key word client) }
{
    let text = numbered(alloc, 33 + (word % 94) as u8, client)?;
    kept_key(alloc, &text)
}

fn made_value(alloc: Global, number: u16) -> Result<Value, OutOfMemory>
    ensures { IfOk result (λ value. value ≡ made_value number) }
{
    let text = numbered(alloc, b'v', number)?;
    kept_value(alloc, &text)
}

// Returns the client's request with this number, by its two random words.
fn made_op(alloc: Global, words: (u32, u32), client: u16, number: u16) -> Result<Op, OutOfMemory>
    ensures { IfOk result (λ op. op ≡ made_op words client number) }
{
    let key = made_key(alloc, words.1, client)?;
    if words.0 % 3 == 0 {
        return Ok(Op::Get { key });
    }
    if words.0 % 3 == 1 {
        let value = made_value(alloc, number)?;
        return Ok(Op::Put { key, value });
    }
    Ok(Op::Del { key })
}

/// Returns the requests of the client that comes after `before` others with `n` requests each,
/// drawn from the generator's next words.
pub(crate) fn made_ops(
    alloc: Global,
    chance: &mut Chance,
    before: u16,
    n: u16,
) -> Result<Sequence<Op>, OutOfMemory>
    requires few { before < 64 }
    requires short { n ≤ 1000 }
    requires here { chance.old.step ≡ before * n }
    ensures ops { IfOk result (λ ops. ops ≡ made_ops chance.old.number n before n) }
    ensures after { IfOk result (λ _. chance.new ≡ record chance.old { step = before * n + n }) }
{
    let mut ops = Sequence::new(alloc);
    for k in 0..n {
        let words = chance.draw();
        ops.push(made_op(alloc, words, before + 1, k + 1)?)?;
    }
    Ok(ops)
}
