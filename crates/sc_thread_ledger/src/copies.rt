//! Pending mail by number, in ascending order, each number with its copies.
ghost use Rattle.std.specs.Prelude.{◌≡◌, ◌==◌, ◌<◌, ◌∷◌, ◌++◌, [], IfOk, OnOk, nat_eq, insert, position};
ghost use Rattle.std.specs.Map.{remove_entry};
ghost use Rattle.indexmap.specs.IndexMap.{insert_entry};
ghost use Rattle.sc_actor.specs.System.{kth};
ghost use Rattle.sc_thread_ledger.specs.Queues.{copies_in, lower, recounted};

use crate::finding::add_copies;
use sc_base::OutOfMemory;
use std::alloc::Global;

/// The numbers of pending mail, each with its number of copies, ascending. Mail is mostly taken
/// from the beginning and appended at the end, so a plain list is faster than a map, which would
/// have to keep its table in step.
pub(crate) type Copies = Vec<(u32, u32)>;

// Returns how many of the numbers are lower than `number`.
fn lower(copies: &[(u32, u32)], number: u32) -> usize
    ensures { result ≡ lower copies.now number }
{
    copies.iter().filter(|entry| entry.0 < number).count()
}

// Returns the place of a number, if it is there.
fn place_of(copies: &[(u32, u32)], number: u32) -> Option<usize>
    ensures { result ≡ position (λ entry. entry.0 == number) copies.now }
{
    copies.iter().position(|entry| entry.0 == number)
}

// Removes a number, if it is there.
fn take_out(copies: &mut Copies, number: u32)
    ensures { copies.new.items ≡ remove_entry (nat_eq number) copies.old.items }
{
    if let Some(place) = place_of(copies.as_slice(), number) {
        copies.remove(place);
    }
}

// Sets the count of a number. A number that is not there is appended.
fn replace(copies: &mut Copies, number: u32, count: u32) -> Result<(), OutOfMemory>
    ensures { OnOk result (copies.new.items ≡ insert_entry nat_eq copies.old.items number count) }
{
    match place_of(copies.as_slice(), number) {
        Some(place) => copies[place] = (number, count),
        None => copies.push((number, count))?,
    }
    Ok(())
}

// Inserts a number that has no entry at its place by number.
fn put_back(copies: &mut Copies, number: u32, count: u32) -> Result<(), OutOfMemory>
    ensures { OnOk result
        (copies.new.items
        ≡ insert copies.old.items (lower copies.old.items number) (number, count)) }
{
    let place = lower(copies.as_slice(), number);
    copies.insert(place, (number, count))?;
    Ok(())
}

/// Sets the number of copies of a mail to `count`. With `back` the mail had no copy before, and is
/// inserted at its place by number.
pub(crate) fn recount(
    copies: &mut Copies,
    number: u32,
    back: bool,
    count: u32,
) -> Result<(), OutOfMemory>
    ensures { OnOk result (copies.new.items ≡ recounted copies.old.items number back count) }
{
    if count == 0 {
        take_out(copies, number);
        return Ok(());
    }
    if back {
        return put_back(copies, number, count);
    }
    replace(copies, number, count)
}

/// Appends a new number, which has to be the greatest for the list to stay ascending.
pub(crate) fn add_last(copies: &mut Copies, number: u32, count: u32) -> Result<(), OutOfMemory>
    ensures { OnOk result (copies.new.items ≡ copies.old.items ++ (number, count) ∷ []) }
{
    copies.push((number, count))?;
    Ok(())
}

/// Returns the k-th of the numbers, counted from 1, each taken as often as it has copies.
pub(crate) fn kth_in(copies: &[(u32, u32)], k: u32) -> Option<u32>
    requires { 0 < k }
    ensures { result ≡ kth (copies_in copies.now) k }
{
    let mut left = k;
    for entry in copies {
        if left <= entry.1 {
            return Some(entry.0);
        }
        left -= entry.1;
    }
    None
}

/// Returns the numbers, each as often as it has copies.
pub(crate) fn numbers_in(alloc: Global, copies: &[(u32, u32)]) -> Result<Vec<u32>, OutOfMemory>
    ensures { IfOk result (λ found. found.items ≡ copies_in copies.now) }
{
    let mut found = Vec::new(alloc);
    found.reserve(copies.len())?;
    for entry in copies {
        add_copies(&mut found, entry.0, entry.1)?;
    }
    Ok(found)
}
