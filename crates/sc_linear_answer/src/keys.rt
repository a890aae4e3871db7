//! How many requests and keys a history has.
ghost use Rattle.std.specs.Prelude.{◌≡◌, ◌≤◌, ℕ, List, length, IfOk, OnOk};
ghost use Rattle.sc_linear_answer.specs.Keys.{HasKeys, keys_of, request_count, with_key};

use sc_base::OutOfMemory;
use sc_history::{Act, Event};
use std::alloc::Global;
use std::collections::HashSet;

/// Returns the number of requests.
pub fn request_count(events: &[Event]) -> u64
    ensures same { result ≡ request_count events.now }
    ensures within { result ≤ length events.now }
{
    let mut count = 0u64;
    for event in events {
        count += match event.act {
            Act::Begin(_) => 1,
            Act::End(_) => 0,
        };
    }
    count
}

// Notes the key of a request that begins.
fn note<'a>(keys: &mut HashSet<&'a [u8]>, act: &'a Act) -> Result<(), OutOfMemory>
    ensures { (before : List (List ℕ)) → HasKeys keys.old before →
        OnOk result (HasKeys keys.new (with_key before act.now)) }
{
    if let Act::Begin(op) = act {
        keys.insert(op.key().bytes())?;
    }
    Ok(())
}

/// Returns the number of keys of the requests.
pub fn key_count(alloc: Global, events: &[Event]) -> Result<u64, OutOfMemory>
    ensures { IfOk result (λ count. count ≡ length (keys_of events.now)) }
{
    let mut keys = HashSet::new(alloc);
    for event in events {
        note(&mut keys, &event.act)?;
    }
    Ok(keys.len() as u64)
}
