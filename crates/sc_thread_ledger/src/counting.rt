//! What one more row adds to the counts.
ghost use Rattle.std.specs.Prelude.{◌≡◌, ℕ, ◌+◌, ◌-◌, ◌<◌, ◌≤◌, ◌^◌, ◌++◌, ◌∷◌, [], map, min, length, replicate, sum_by, slice_index, vec_len, vec_capacity, if◌then◌else◌};
ghost use Rattle.sc_actor.specs.Mail.{counts_at, is_crash};
ghost use Rattle.sc_actor.specs.Counted.{mail_bytes};

use sc_actor::{Event, Parcel};

/// Returns the counted bytes with one more row that sends these mails, at most 2^64 - 1.
pub(crate) fn bytes_with<M: Parcel>(sent: &[M], before: u64) -> u64
    requires { before ≤ 2 ^ 30 }
    ensures { result ≡ min (before + (64 + sum_by (mail_bytes M.weighs) sent.now)) (2 ^ 64 - 1) }
{
    let mut total = before + 64;
    for mail in sent {
        total = total.saturating_add(256).saturating_add(mail.weight());
    }
    total
}

/// Counts an event: a delivery or a drop removes a copy of its mail, if there is one, and a repeat
/// adds one.
pub(crate) fn count_event<O>(counts: &mut Vec<u32>, event: &Event<O>)
    requires { (i : ℕ) → slice_index counts.old.items i < 2 ^ 32 - 1 }
    ensures items { counts.new.items ≡ counts_at counts.old.items event.now }
    ensures room { (vec_len counts.new ≡ vec_len counts.old)
        × (vec_capacity counts.new ≡ vec_capacity counts.old) }
{
    match event {
        Event::Deliver(number) | Event::Drop(number) => {
            let number = *number as usize;
            if number != 0 && number <= counts.len() {
                counts[number - 1] = counts[number - 1].saturating_sub(1);
            }
        }
        Event::Again(number) => {
            let number = *number as usize;
            if number != 0 && number <= counts.len() {
                counts[number - 1] += 1;
            }
        }
        _ => {}
    }
}

/// Appends a count of one copy for each of `n` new mails.
pub(crate) fn add_counts(counts: &mut Vec<u32>, n: usize)
    requires { vec_len counts.old + n ≤ vec_capacity counts.old }
    ensures { counts.new.items ≡ counts.old.items ++ replicate n 1 }
{
    for i in 0..n {
        let _ = i;
        counts.push_reserved(1);
    }
}

// Appends the place of their row for each of `n` new mails.
fn add_homes(homes: &mut Vec<u32>, home: u32, n: usize)
    requires { vec_len homes.old + n ≤ vec_capacity homes.old }
    ensures { homes.new.items ≡ homes.old.items ++ replicate n home }
{
    for i in 0..n {
        let _ = i;
        homes.push_reserved(home);
    }
}

/// Notes that a new row has the place `row`, that its `n` mails are in it, and that `before` mails
/// were sent before it.
pub(crate) fn note_home(
    homes: &mut Vec<u32>,
    firsts: &mut Vec<u32>,
    row: u32,
    before: u32,
    n: usize,
)
    requires homes { vec_len homes.old + n ≤ vec_capacity homes.old }
    requires firsts { vec_len firsts.old + 1 ≤ vec_capacity firsts.old }
    ensures homes { homes.new.items ≡ homes.old.items ++ replicate n row }
    ensures firsts { firsts.new.items ≡ firsts.old.items ++ before ∷ [] }
{
    add_homes(homes, row, n);
    firsts.push_reserved(before);
}

/// Appends the receivers of new mails.
pub(crate) fn add_receivers<M: Parcel>(receivers: &mut Vec<u32>, sent: &[M])
    requires { vec_len receivers.old + length sent.now ≤ vec_capacity receivers.old }
    ensures { receivers.new.items ≡ receivers.old.items ++ map M.receiver sent.now }
{
    for mail in sent {
        receivers.push_reserved(mail.to());
    }
}

/// Appends the actor `who` to the crashed ones, where the event is a crash.
pub(crate) fn add_crash<O>(crashed: &mut Vec<u32>, who: u32, event: &Event<O>)
    requires { vec_len crashed.old + 1 ≤ vec_capacity crashed.old }
    ensures { crashed.new.items
        ≡ crashed.old.items ++ (if is_crash event.now then who ∷ [] else []) }
{
    match event {
        Event::Crash => crashed.push_reserved(who),
        _ => {}
    }
}
