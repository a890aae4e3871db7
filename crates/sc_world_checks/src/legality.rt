//! Whether a history is legal: it is replayed on one map.
ghost use Rattle.std.specs.Prelude.{◌≡◌, ◌↔◌, ◌<◌, IsTrue, IfOk, All, AllPairs};
ghost use Rattle.std.specs.FinMap.{empty};
ghost use Rattle.sc_words.specs.ideal.History.{HasStoreReplies, AreApart, Legal};

use sc_base::{OutOfMemory, Same};
use sc_group_parts::Store;
use sc_words::Entry;
use std::alloc::Global;

// Returns whether each entry has the reply that the map gives after the entries before it.
fn has_store_replies(alloc: Global, entries: &[Entry]) -> Result<bool, OutOfMemory>
    ensures { IfOk result (λ has. IsTrue has ↔ HasStoreReplies empty entries.now) }
{
    let mut store = Store::new(alloc);
    for entry in entries {
        let reply = store.apply(&entry.op)?;
        if !reply.is_same(&entry.reply) {
            return Ok(false);
        }
    }
    Ok(true)
}

// Returns whether none of the entries has the client and the number of this one.
fn is_apart(entries: &[Entry], entry: &Entry) -> bool
    ensures { IsTrue result ↔ All (λ other. AreApart other entry.now) entries.now }
{
    for other in entries {
        if other.client == entry.client && other.seq == entry.seq {
            return false;
        }
    }
    true
}

// Returns whether no client's number occurs twice.
fn is_once(entries: &[Entry]) -> bool
    ensures { IsTrue result ↔ AllPairs AreApart entries.now }
{
    for i in 0..entries.len() {
        if !is_apart(&entries[..i], &entries[i]) {
            return false;
        }
    }
    true
}

/// Returns whether a history is legal: replaying its operations in order on one empty map gives its
/// replies, and no client's number occurs twice (the sequential object of linearizability: Herlihy
/// and Wing, 1990). The only error is out of memory.
pub fn legal(alloc: Global, entries: &[Entry]) -> Result<bool, OutOfMemory>
    ensures { IfOk result (λ is_legal. IsTrue is_legal ↔ Legal entries.now) }
{
    let replayed = has_store_replies(alloc, entries)?;
    Ok(replayed && is_once(entries))
}
