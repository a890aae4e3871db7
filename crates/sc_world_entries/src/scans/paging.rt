//! How a list of pairs is cut into pages.
ghost use Rattle.std.specs.Prelude.{◌≡◌, ◌≤◌, ◌++◌, ◌∷◌, [], length, take, drop, IfOk, IsOk};
ghost use Rattle.std.specs.Option.{option_copied};
ghost use Rattle.sc_world_entries.specs.scans.Pages.{after_key, last_key, next_key};

use crate::scans::pages::Page;
use sc_base::{Dup, Key, OutOfMemory, Value};
use std::alloc::Global;

// Returns the number of pairs up to and with the first one of a key: the length of the list where
// no pair has the key, and 0 where no key is given.
fn place_after(all: &[(Key, Value)], after: Option<&Key>) -> usize
    ensures within { result ≤ length all.now }
    ensures rest { drop result all.now ≡ after_key (option_copied after.entry) all.now }
{
    let Some(key) = after else {
        return 0;
    };
    for (i, pair) in all.iter().enumerate() {
        if pair.0 == *key {
            return i + 1;
        }
    }
    all.len()
}

fn dup_all(alloc: Global, pairs: &[(Key, Value)]) -> Result<Vec<(Key, Value)>, OutOfMemory>
    ensures copy { IfOk result (λ copy. copy.items ≡ pairs.now) }
    ensures none { pairs.now ≡ [] → IsOk result }
{
    let mut copy = Vec::new(alloc);
    for pair in pairs {
        copy.push((pair.0.dup(alloc)?, pair.1.dup(alloc)?))?;
    }
    Ok(copy)
}

fn last_key(alloc: Global, pairs: &[(Key, Value)]) -> Result<Option<Key>, OutOfMemory>
    ensures key { IfOk result (λ key. key ≡ last_key pairs.now) }
    ensures none { pairs.now ≡ [] → IsOk result }
{
    match pairs.get(pairs.len().saturating_sub(1)) {
        Some(pair) => Ok(Some(pair.0.dup(alloc)?)),
        None => Ok(None),
    }
}

/// Returns the first `most` pairs behind a key of the list, or from the start where no key is
/// given, and the last of their keys where more pairs follow. A page of no pairs gives no key, and
/// behind a key that the list lacks there is nothing. Where the keys of the list differ and `most`
/// is at least 1, the pages from the start on, each behind the key that the one before it gave,
/// until one gives none, are the list (`pages_follow`). The only error is out of memory, where the
/// page has a pair.
pub fn page(
    alloc: Global,
    all: &[(Key, Value)],
    after: Option<&Key>,
    most: u32,
) -> Result<Page, OutOfMemory>
    ensures pairs { IfOk result (λ page.
        page.pairs.items ≡ take most (after_key (option_copied after.entry) all.now)) }
    ensures next { IfOk result (λ page.
        page.next ≡ next_key most (after_key (option_copied after.entry) all.now)) }
    ensures none { take most (after_key (option_copied after.entry) all.now) ≡ [] → IsOk result }
{
    let rest = &all[place_after(all, after)..];
    if rest.len() <= most as usize {
        return Ok(Page {
            pairs: dup_all(alloc, rest)?,
            next: None,
        });
    }
    let given = &rest[..most as usize];
    Ok(Page {
        pairs: dup_all(alloc, given)?,
        next: last_key(alloc, given)?,
    })
}
