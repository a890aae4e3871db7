//! Picks one of the pending copies without a list of them all.
ghost use Rattle.std.specs.Prelude.{◌≡◌, ◌==◌, ◌-◌, ◌+◌, ◌<◌, ◌≤◌, ◌^◌, length, filter, take, slice_get, slice_index, if◌then◌else◌, IfOk, IsOk};
ghost use Rattle.sc_thread_ledger.specs.Queues.{copies_in};
ghost use Rattle.sc_thread_ledger.specs.Spots.{is_one_of, copies_for, picked_spot, spot_behind, spots_from};

use crate::copies::Copies;
use crate::spots::Spot;
use sc_base::OutOfMemory;
use std::alloc::Global;

// Returns the receiver of the mail with this number, or 0 where there is none.
fn receiver_of(receivers: &[u32], number: u32) -> u32
    ensures { result ≡ slice_index receivers.now (number - 1) }
{
    let place = (number as usize).saturating_sub(1);
    receivers.get(place).copied().unwrap_or(0)
}

// Returns whether `who` is one of the actors `whos`. Most lists have each number at its own place,
// from 1 on, so that place is checked first.
fn is_one_of(whos: &[u32], who: u32) -> bool
    ensures { result ≡ is_one_of whos.now who }
{
    let place = (who as usize).saturating_sub(1);
    if place < whos.len() && whos[place] == who {
        return true;
    }
    whos.iter().any(|one| *one == who)
}

// Returns the sum, or `Err(OutOfMemory)` where it is 2^32 or more: no memory holds that many
// copies.
fn added(many: u32, more: u32) -> Result<u32, OutOfMemory>
    ensures sum { IfOk result (λ sum. sum ≡ many + more) }
    ensures fits { many + more < 2 ^ 32 → IsOk result }
{
    match many.checked_add(more) {
        Some(sum) => Ok(sum),
        None => Err(OutOfMemory),
    }
}

// Returns the copies of an entry, where it is asked for, and else 0.
fn share(asked: bool, count: u32) -> u32
    ensures { result ≡ (if asked then count else 0) }
{
    if asked { count } else { 0 }
}

// Returns how many of the copies are for one of the actors `whos`.
fn count_for(copies: &[(u32, u32)], receivers: &[u32], whos: &[u32]) -> Result<u32, OutOfMemory>
    ensures many { IfOk result (λ many.
        many ≡ length (copies_for whos.now (spots_from receivers.now (copies_in copies.now)))) }
    ensures fits { length (copies_for whos.now (spots_from receivers.now (copies_in copies.now)))
        < 2 ^ 32 → IsOk result }
{
    let mut many = 0u32;
    for entry in copies {
        let asked = is_one_of(whos, receiver_of(receivers, entry.0));
        let more = added(many, share(asked, entry.1))?;
        many = more;
    }
    Ok(many)
}

// Returns how many of the copies of the first `entries` entries have the receiver `who`.
fn count_to(
    copies: &[(u32, u32)],
    receivers: &[u32],
    who: u32,
    entries: usize,
) -> Result<u32, OutOfMemory>
    requires { entries ≤ length copies.now }
    ensures many { IfOk result (λ many.
        many ≡ length
        (filter (λ s. s.who == who)
        (spots_from receivers.now (copies_in (take entries copies.now))))) }
    ensures fits { length
        (filter (λ s. s.who == who)
        (spots_from receivers.now (copies_in (take entries copies.now)))) < 2 ^ 32 → IsOk result }
{
    let mut many = 0u32;
    for i in 0..entries {
        let entry = copies[i];
        let asked = receiver_of(receivers, entry.0) == who;
        let more = added(many, share(asked, entry.1))?;
        many = more;
    }
    Ok(many)
}

// Returns the copy of `number` that comes after the first `entries` entries and after `own` copies
// of its own.
fn spot_behind(
    copies: &[(u32, u32)],
    receivers: &[u32],
    entries: usize,
    number: u32,
    own: u32,
) -> Result<Spot, OutOfMemory>
    requires { entries ≤ length copies.now }
    ensures spot { IfOk result (λ spot. spot ≡ spot_behind receivers.now
        (spots_from receivers.now (copies_in (take entries copies.now))) number own) }
    ensures fits { (spot_behind receivers.now
        (spots_from receivers.now (copies_in (take entries copies.now))) number own).k
        < 2 ^ 32 → IsOk result }
{
    let who = receiver_of(receivers, number);
    let before = count_to(copies, receivers, who, entries)?;
    let last = added(before, own)?;
    let k = added(last, 1)?;
    Ok(Spot { number, who, k })
}

// Returns, of the copies for the actors `whos`, the one at the place `n`, from 0.
fn nth_for(
    copies: &[(u32, u32)],
    receivers: &[u32],
    whos: &[u32],
    n: u32,
) -> Result<Option<Spot>, OutOfMemory>
    ensures spot { IfOk result (λ spot. spot ≡ slice_get
        (copies_for whos.now (spots_from receivers.now (copies_in copies.now))) n) }
    ensures fits { length (copies_in copies.now) < 2 ^ 32 → IsOk result }
{
    let mut left = n;
    for i in 0..copies.len() {
        let entry = copies[i];
        let asked = is_one_of(whos, receiver_of(receivers, entry.0));
        let own = share(asked, entry.1);
        if left < own {
            let spot = spot_behind(copies, receivers, i, entry.0, left)?;
            return Ok(Some(spot));
        }
        left -= own;
    }
    Ok(None)
}

/// Returns, of the copies for the actors `whos`, the one at the place `word` modulo their number,
/// if there is any.
pub(crate) fn picked(
    copies: &[(u32, u32)],
    receivers: &[u32],
    whos: &[u32],
    word: u32,
) -> Result<Option<Spot>, OutOfMemory>
    ensures spot { IfOk result (λ spot. spot ≡ picked_spot
        (copies_for whos.now (spots_from receivers.now (copies_in copies.now))) word) }
    ensures fits { length (copies_in copies.now) < 2 ^ 32 → IsOk result }
{
    let many = count_for(copies, receivers, whos)?;
    if many == 0 {
        return Ok(None);
    }
    nth_for(copies, receivers, whos, word % many)
}

/// Returns, of the copies of the mails with these numbers that are for the actors `whos`, the one
/// at the place `word` modulo their number, if there is any.
pub(crate) fn picked_of(
    alloc: Global,
    numbers: &[u32],
    receivers: &[u32],
    whos: &[u32],
    word: u32,
) -> Result<Option<Spot>, OutOfMemory>
    ensures { IfOk result (λ spot. spot ≡ picked_spot
        (copies_for whos.now (spots_from receivers.now numbers.now)) word) }
{
    let copies = each_once(alloc, numbers)?;
    picked(copies.as_slice(), receivers, whos, word)
}

// Returns each of the numbers as an entry with one copy.
fn each_once(alloc: Global, numbers: &[u32]) -> Result<Copies, OutOfMemory>
    ensures { IfOk result (λ copies. copies_in copies.items ≡ numbers.now) }
{
    let mut copies = Vec::new(alloc);
    copies.reserve(numbers.len())?;
    for number in numbers {
        copies.push((*number, 1))?;
    }
    Ok(copies)
}
