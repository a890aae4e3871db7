//! The pairs of a part of an arc, in the order of the ring from the part's start on.
ghost use Rattle.std.specs.Prelude.{◌≡◌, ◌<◌, ◌^◌, ◌++◌, ◌∷◌, [], not, AllPairs, IfOk, IsOk, OnOk};
ghost use Rattle.std.specs.List.{filter};
ghost use Rattle.sc_base.specs.Among.{Each};
ghost use Rattle.sc_base.specs.Limits.{longest_key};
ghost use Rattle.sc_base.specs.Text.{IsText};
ghost use Rattle.sc_world_entries.specs.scans.Order.{held, is_low, ordered, ComesBefore};

use sc_base::{Dup, Key, OutOfMemory, Pairs, RingArc, Value};
use std::alloc::Global;

// Proves that the keys are texts, as each key is. It has no effect.
fn have_texts(pairs: &[(Key, Value)])
    ensures { Each (λ pair. IsText longest_key pair.0) pairs.now }
{
    for pair in pairs {
        let _bytes = pair.0.bytes();
    }
}

// Appends a copy of a pair.
fn add(alloc: Global, list: &mut Vec<(Key, Value)>, pair: &(Key, Value)) -> Result<(), OutOfMemory>
    ensures { OnOk result (list.new.items ≡ list.old.items ++ pair.now ∷ []) }
{
    let key = pair.0.dup(alloc)?;
    let value = pair.1.dup(alloc)?;
    list.push((key, value))?;
    Ok(())
}

// Appends those pairs whose keys the part holds from its start up to the end of the ring, in the
// order in which they are given.
fn add_high(
    alloc: Global,
    list: &mut Vec<(Key, Value)>,
    part: &RingArc,
    pairs: &[(Key, Value)],
) -> Result<(), OutOfMemory>
    ensures list { OnOk result (list.new.items ≡ list.old.items
        ++ filter (λ pair. not (is_low part.now pair)) (held part.now pairs.now)) }
    ensures none { held part.now pairs.now ≡ [] → IsOk result }
{
    for pair in pairs {
        let pos = pair.0.pos();
        if part.holds(pos) && part.lo() <= pos {
            add(alloc, list, pair)?;
        }
    }
    Ok(())
}

// Appends those pairs whose keys the part holds at positions below its start, where it goes over
// the end of the ring.
fn add_low(
    alloc: Global,
    list: &mut Vec<(Key, Value)>,
    part: &RingArc,
    pairs: &[(Key, Value)],
) -> Result<(), OutOfMemory>
    ensures list { OnOk result (list.new.items ≡ list.old.items
        ++ filter (is_low part.now) (held part.now pairs.now)) }
    ensures start { part.now.lo < 2 ^ 32 }
    ensures none { held part.now pairs.now ≡ [] → IsOk result }
{
    let start = part.lo();
    for pair in pairs {
        let pos = pair.0.pos();
        if part.holds(pos) && pos < start {
            add(alloc, list, pair)?;
        }
    }
    Ok(())
}

/// Returns the pairs whose keys a part holds, by the distance of their positions from the part's
/// start, and by their keys where positions are the same. The only error is out of memory, where the
/// part holds a key.
pub fn ordered(
    alloc: Global,
    part: &RingArc,
    pairs: &Pairs,
) -> Result<Vec<(Key, Value)>, OutOfMemory>
    ensures same { IfOk result (λ list. list.items ≡ ordered part.now pairs.now) }
    ensures rises { IfOk result (λ list. AllPairs (ComesBefore part.now) list.items) }
    ensures none { held part.now pairs.now ≡ [] → IsOk result }
{
    let mut list = Vec::new(alloc);
    let all = pairs.as_slice();
    have_texts(all);
    add_high(alloc, &mut list, part, all)?;
    add_low(alloc, &mut list, part, all)?;
    Ok(list)
}
