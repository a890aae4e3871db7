//! Where each pending copy stands among its receiver's pending mail.
ghost use Rattle.std.specs.Prelude.{◌≡◌, ◌+◌, ◌<◌, ◌^◌, ◌==◌, ◌++◌, ◌∷◌, [], List, IfOk, IsOk, length, filter};
ghost use Rattle.sc_thread_ledger.specs.declared.spots.Spot.{Spot};
ghost use Rattle.sc_thread_ledger.specs.Spots.{AreCounted, IsNext, spot_after, spots_from};

use sc_base::{OutOfMemory, Sequence};
use std::alloc::Global;

/// A pending copy of a mail: the number of the mail, its receiver `who`, and the copy's place `k`,
/// from 1, among the receiver's pending mail.
#[derive(Clone, Copy, Debug, PartialEq, Eq)]
pub struct Spot {
    /// The number of the mail.
    pub number: u32,
    /// The receiver of the mail.
    pub who: u32,
    /// The place among the receiver's pending mail, from 1.
    pub k: u32,
}

/// All that is pending at one moment.
#[derive(Drop)]
pub struct Look {
    /// The number of mails that were sent so far.
    pub sent: u32,
    /// Each pending copy of all mail, in ascending order of number.
    pub pending: Sequence<Spot>,
}

/// The number of mails that were sent so far, and one pending copy that was picked.
#[derive(Clone, Copy, Debug, PartialEq, Eq)]
pub struct Glance {
    /// The number of mails that were sent so far.
    pub sent: u32,
    /// The copy that was picked, if there was any to pick.
    pub spot: Option<Spot>,
}

// Returns how many of the copies have the receiver `who`: by its count, where there is one, and
// else by a look at all copies.
fn copies_to(spots: &[Spot], counts: &[u32], who: u32) -> usize
    requires { AreCounted counts.now spots.now }
    ensures { result ≡ length (filter (λ s. s.who == who) spots.now) }
{
    let place = who as usize;
    if place < counts.len() {
        return counts[place] as usize;
    }
    spots.iter().filter(|s| s.who == who).count()
}

// Returns the copy of the mail `number` that comes after the copies `before`.
fn spot_after(
    receivers: &[u32],
    before: &[Spot],
    counts: &[u32],
    number: u32,
) -> Result<Spot, OutOfMemory>
    requires { AreCounted counts.now before.now }
    ensures spot { IfOk result (λ spot. spot ≡ spot_after receivers.now before.now number) }
    ensures fits { (spot_after receivers.now before.now number).k < 2 ^ 32 → IsOk result }
{
    let place = (number as usize).saturating_sub(1);
    let who = receivers.get(place).copied().unwrap_or(0);
    let Ok(k) = u32::try_from(copies_to(before, counts, who).saturating_add(1)) else {
        return Err(OutOfMemory);
    };
    Ok(Spot { number, who, k })
}

// Returns the counts of the receivers up to `most`, where there is no copy yet.
fn no_counts(alloc: Global, most: u32) -> Result<Vec<u32>, OutOfMemory>
    ensures { IfOk result (λ counts. AreCounted counts.items []) }
{
    let mut counts = Vec::new(alloc);
    for i in 0..most.saturating_add(1) {
        let _ = i;
        counts.push(0)?;
    }
    Ok(counts)
}

// Counts one more copy of its receiver.
fn count_spot(counts: &mut Vec<u32>, spot: Spot)
    ensures { (before : List Spot) → AreCounted counts.old.items before → IsNext before spot →
        AreCounted counts.new.items (before ++ spot ∷ []) }
{
    let place = spot.who as usize;
    if place < counts.len() {
        counts[place] = spot.k;
    }
}

/// Returns the copies of the mails with these numbers, each with its place. `Err(OutOfMemory)`
/// comes also where a place would pass 2^32 - 1. It is fast where the receivers have the numbers up
/// to `most`.
pub(crate) fn spots_from(
    alloc: Global,
    most: u32,
    receivers: &[u32],
    numbers: &[u32],
) -> Result<Sequence<Spot>, OutOfMemory>
    ensures { IfOk result (λ spots. spots ≡ spots_from receivers.now numbers.now) }
{
    let mut counts = no_counts(alloc, most)?;
    let mut spots = Vec::new(alloc);
    spots.reserve(numbers.len())?;
    for number in numbers {
        let spot = spot_after(receivers, spots.as_slice(), counts.as_slice(), *number)?;
        count_spot(&mut counts, spot);
        spots.push(spot)?;
    }
    Ok(Sequence::from_vec(spots))
}
