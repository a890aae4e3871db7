//! Searches for pending mail by the receivers and counts of all mail.
ghost use Rattle.std.specs.Prelude.{◌≡◌, ◌<◌, ◌+◌, ◌-◌, ◌^◌, ◌==◌, ◌++◌, length, replicate, nat_lt, IfOk, OnOk, slice_index, if◌then◌else◌};
ghost use Rattle.std.specs.List.{list_any};
ghost use Rattle.sc_actor.specs.Mail.{numbers};
ghost use Rattle.sc_actor.specs.System.{kth};
ghost use Rattle.sc_thread_ledger.specs.Kept.{runs, counts_for};

use sc_base::OutOfMemory;
use std::alloc::Global;

fn is_among(crashed: &[u32], who: u32) -> bool
    ensures { result ≡ list_any (λ c. c == who) crashed.now }
{
    crashed.iter().any(|c| *c == who)
}

/// Returns whether `who` is the number of an actor that has not crashed.
pub(crate) fn runs(actors: u32, crashed: &[u32], who: u32) -> bool
    ensures { result ≡ runs actors crashed.now who }
{
    0 < who && who <= actors && !is_among(crashed, who)
}

/// Returns whether mail to `receiver` can be pending for `who`, or for any actor where `who` is 0.
pub(crate) fn counts_for(actors: u32, crashed: &[u32], who: u32, receiver: u32) -> bool
    ensures { result ≡ counts_for actors crashed.now who receiver }
{
    (who == 0 || receiver == who) && runs(actors, crashed, receiver)
}

/// Returns whether the mail with this number has a copy.
pub(crate) fn has_copy(counts: &[u32], number: u32) -> bool
    ensures { result ≡ nat_lt 0 (slice_index counts.now (number - 1)) }
{
    let place = (number as usize).saturating_sub(1);
    place < counts.len() && counts[place] > 0
}

// Returns the copies that count, 0 where the receiver does not. The receiver is checked only where
// there are copies.
fn open_copies(actors: u32, crashed: &[u32], who: u32, receiver: u32, count: u32) -> u32
    ensures { result ≡ (if counts_for actors crashed.now who receiver then count else 0) }
{
    if count > 0 && counts_for(actors, crashed, who, receiver) {
        count
    } else {
        0
    }
}

/// Returns the number of the k-th pending mail, counted from 1, of actor `who`, or of all where
/// `who` is 0. It goes through the mails one by one.
pub(crate) fn kth_open(
    receivers: &[u32],
    counts: &[u32],
    actors: u32,
    crashed: &[u32],
    who: u32,
    k: u32,
) -> Option<u32>
    requires first { 0 < k }
    requires few { length receivers.now < 2 ^ 32 - 1 }
    ensures { result
        ≡ kth (numbers (counts_for actors crashed.now who) 1 receivers.now counts.now) k }
{
    let mut left = k;
    let both = receivers.len().min(counts.len());
    for i in 0..both {
        let count = open_copies(actors, crashed, who, receivers[i], counts[i]);
        if left <= count {
            return Some(i as u32 + 1);
        }
        left -= count;
    }
    None
}

/// Appends a number as often as it has copies.
pub(crate) fn add_copies(found: &mut Vec<u32>, number: u32, count: u32) -> Result<(), OutOfMemory>
    ensures { OnOk result (found.new.items ≡ found.old.items ++ replicate count number) }
{
    for i in 0..count {
        let _ = i;
        found.push(number)?;
    }
    Ok(())
}

/// Returns the numbers of all pending mail, each as often as it has copies. It goes through the
/// mails one by one.
pub(crate) fn open_numbers(
    alloc: Global,
    receivers: &[u32],
    counts: &[u32],
    actors: u32,
    crashed: &[u32],
) -> Result<Vec<u32>, OutOfMemory>
    requires few { length receivers.now < 2 ^ 32 - 1 }
    ensures { IfOk result
        (λ found.
        found.items ≡ numbers (counts_for actors crashed.now 0) 1 receivers.now counts.now) }
{
    let mut found = Vec::new(alloc);
    let both = receivers.len().min(counts.len());
    for i in 0..both {
        let count = open_copies(actors, crashed, 0, receivers[i], counts[i]);
        add_copies(&mut found, i as u32 + 1, count)?;
    }
    Ok(found)
}
