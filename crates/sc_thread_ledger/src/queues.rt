//! Pending mail per actor, so that the first of it is found at once.
ghost use Rattle.std.specs.Prelude.{◌≡◌, ◌<◌, ◌≤◌, ◌+◌, ◌-◌, ◌^◌, ◌++◌, ◌∷◌, [], ℕ, None, IfOk, OnOk, IsOk, IfSome, List, true, nat_eq, nat_lt, ◌&&◌, length, map, replicate, slice_index, slice_index_or, slice_set, vec_len, vec_capacity, if◌then◌else◌};
ghost use Rattle.sc_actor.specs.Mail.{one_less, one_more, counts_at, is_crash};
ghost use Rattle.sc_thread_ledger.specs.Kept.{counts_for};
ghost use Rattle.sc_actor.specs.System.{kth};
ghost use Rattle.sc_thread_ledger.specs.Queues.{Holds, copies_in, open_entries};

use crate::copies::{Copies, add_last, kth_in, numbers_in, recount};
use crate::counting::{add_counts, add_crash, add_receivers, count_event};
use crate::finding::runs;
use crate::picking::picked;
use crate::spots::Spot;
use sc_actor::{Event, Parcel, Row};
use sc_base::OutOfMemory;
use std::alloc::Global;

/// The queue of all pending mail, and one queue for each actor from 1 on.
#[derive(Drop)]
pub struct Queues {
    pub(crate) all: Copies,
    pub(crate) each: Vec<Copies>,
}

impl Queues {
    ghost use Rattle.sc_thread_ledger.specs.Queues.{Holds, kept, queue_of, recounted};
    ghost use Rattle.sc_thread_ledger.specs.Spots.{copies_for, picked_spot, spots_from};

    /// Returns empty queues for `actors` actors.
    pub(crate) fn new(alloc: Global, actors: u32) -> Result<Queues, OutOfMemory>
        ensures { IfOk result (λ q. Holds q actors [] [] []) }
    {
        let mut each = Vec::new(alloc);
        for i in 0..actors {
            let _ = i;
            each.push(Vec::new(alloc))?;
        }
        let all = Vec::new(alloc);
        Ok(Queues { all, each })
    }

    /// Returns the number of the k-th pending mail, counted from 1, of actor `who`, or of all where
    /// `who` is 0.
    pub(crate) fn kth(&self, who: u32, k: u32) -> Option<u32>
        requires who { who ≤ length self.now.each.items }
        requires first { 0 < k }
        ensures { result ≡ kth (copies_in (queue_of self.now who)) k }
    {
        if who == 0 {
            return kth_in(self.all.as_slice(), k);
        }
        kth_in(self.each[who as usize - 1].as_slice(), k)
    }

    /// Returns the numbers of all pending mail, each as often as it has copies.
    pub(crate) fn numbers(&self, alloc: Global) -> Result<Vec<u32>, OutOfMemory>
        ensures { IfOk result (λ found. found.items ≡ copies_in self.now.all.items) }
    {
        numbers_in(alloc, self.all.as_slice())
    }

    /// Returns, of the pending copies for the actors `whos`, the one at the place `word` modulo
    /// their number, if there is any.
    pub(crate) fn picked(
        &self,
        receivers: &[u32],
        whos: &[u32],
        word: u32,
    ) -> Result<Option<Spot>, OutOfMemory>
        ensures spot { IfOk result (λ spot. spot ≡ picked_spot
            (copies_for whos.now (spots_from receivers.now (copies_in self.now.all.items))) word) }
        ensures fits { length (copies_in self.now.all.items) < 2 ^ 32 → IsOk result }
    {
        picked(self.all.as_slice(), receivers, whos, word)
    }

    // Sets the number of copies of a mail to `receiver`, in the queue of all and in the receiver's.
    fn set_copies(
        &mut self,
        receiver: u32,
        number: u32,
        back: bool,
        count: u32,
    ) -> Result<(), OutOfMemory>
        requires receiver { (0 < receiver) × (receiver ≤ length self.old.each.items) }
        ensures all { OnOk result
            (self.new.all.items ≡ recounted self.old.all.items number back count) }
        ensures each { OnOk result
            (kept self.new
            ≡ slice_set (kept self.old) (receiver - 1)
            (recounted (slice_index_or (kept self.old) (receiver - 1) []) number back count)) }
    {
        recount(&mut self.all, number, back, count)?;
        let own = &mut self.each[receiver as usize - 1];
        recount(own, number, back, count)
    }

    // Appends a new mail to `receiver`, with one copy, to the queue of all and to the receiver's.
    fn add_copy(&mut self, receiver: u32, number: u32) -> Result<(), OutOfMemory>
        requires receiver { (0 < receiver) × (receiver ≤ length self.old.each.items) }
        ensures all { OnOk result (self.new.all.items ≡ self.old.all.items ++ (number, 1) ∷ []) }
        ensures each { OnOk result
            (kept self.new
            ≡ slice_set (kept self.old) (receiver - 1)
            (slice_index_or (kept self.old) (receiver - 1) [] ++ (number, 1) ∷ [])) }
    {
        add_last(&mut self.all, number, 1)?;
        let own = &mut self.each[receiver as usize - 1];
        add_last(own, number, 1)
    }

    // Adds a copy of the mail with this number, or with `more` false removes one where there is
    // any.
    fn change(
        &mut self,
        actors: u32,
        crashed: &[u32],
        receivers: &[u32],
        counts: &[u32],
        number: u32,
        more: bool,
    ) -> Result<(), OutOfMemory>
        requires holds { Holds self.old actors crashed.now receivers.now counts.now }
        requires same { length counts.now ≡ length receivers.now }
        requires small { (i : ℕ) → slice_index counts.now i < 2 ^ 32 - 1 }
        ensures { OnOk result
            (Holds self.new actors crashed.now receivers.now
            (if more then one_more counts.now number else one_less counts.now number)) }
    {
        if number == 0 || number as usize > counts.len() {
            return Ok(());
        }
        let place = number as usize - 1;
        let receiver = receivers[place];
        if !runs(actors, crashed, receiver) {
            return Ok(());
        }
        let before = counts[place];
        if more {
            self.set_copies(receiver, number, before == 0, before + 1)
        } else {
            self.set_copies(receiver, number, false, before.saturating_sub(1))
        }
    }

    // Adds the mail `number`, just sent to `receiver`, if the receiver is an actor that has not
    // crashed.
    fn add(
        &mut self,
        actors: u32,
        crashed: &[u32],
        number: u32,
        receiver: u32,
    ) -> Result<(), OutOfMemory>
        requires { length (kept self.old) ≡ actors }
        ensures { OnOk result
            ((receivers counts : List ℕ) → Holds self.old actors crashed.now receivers counts →
            length counts ≡ length receivers → number ≡ 1 + length receivers →
            Holds self.new actors crashed.now (receivers ++ receiver ∷ []) (counts ++ 1 ∷ [])) }
    {
        if !runs(actors, crashed, receiver) {
            return Ok(());
        }
        self.add_copy(receiver, number)
    }

    // Removes the mail of the actor `who`, which has crashed.
    fn crash(
        &mut self,
        alloc: Global,
        actors: u32,
        crashed: &[u32],
        receivers: &[u32],
        counts: &[u32],
        who: u32,
    ) -> Result<(), OutOfMemory>
        requires holds { Holds self.old actors crashed.now receivers.now counts.now }
        requires same { length counts.now ≡ length receivers.now }
        requires few { length receivers.now < 2 ^ 32 - 1 }
        ensures { OnOk result
            (Holds self.new actors (crashed.now ++ who ∷ []) receivers.now counts.now) }
    {
        self.all = without(alloc, actors, crashed, receivers, counts, who)?;
        if 0 < who && who <= actors {
            let own = &mut self.each[who as usize - 1];
            own.clear();
        }
        Ok(())
    }
}

/// Returns the queues after an event that is no crash. `None` where memory ran out.
pub(crate) fn after_event<O>(
    queues: Option<Queues>,
    actors: u32,
    crashed: &[u32],
    receivers: &[u32],
    counts: &[u32],
    event: &Event<O>,
) -> Option<Queues>
    requires holds { IfSome queues (λ q. Holds q actors crashed.now receivers.now counts.now) }
    requires same { length counts.now ≡ length receivers.now }
    requires small { (i : ℕ) → slice_index counts.now i < 2 ^ 32 - 1 }
    ensures { IfSome result
        (λ q. Holds q actors crashed.now receivers.now (counts_at counts.now event.now)) }
{
    let Some(mut queues) = queues else {
        return None;
    };
    let changed = match event {
        Event::Deliver(number) | Event::Drop(number) => {
            queues.change(actors, crashed, receivers, counts, *number, false)
        }
        Event::Again(number) => queues.change(actors, crashed, receivers, counts, *number, true),
        _ => Ok(()),
    };
    match changed {
        Ok(()) => Some(queues),
        Err(_) => None,
    }
}

// Returns whether mail with `count` copies to this receiver is pending once `who` has crashed.
fn stays(actors: u32, crashed: &[u32], who: u32, receiver: u32, count: u32) -> bool
    ensures { result ≡ (counts_for actors (crashed.now ++ who ∷ []) 0 receiver && nat_lt 0 count) }
{
    count > 0 && receiver != who && runs(actors, crashed, receiver)
}

// Returns all pending mail once `who` has crashed.
fn without(
    alloc: Global,
    actors: u32,
    crashed: &[u32],
    receivers: &[u32],
    counts: &[u32],
    who: u32,
) -> Result<Copies, OutOfMemory>
    requires same { length counts.now ≡ length receivers.now }
    requires few { length receivers.now < 2 ^ 32 - 1 }
    ensures { IfOk result
        (λ all.
        all.items
        ≡ open_entries (counts_for actors (crashed.now ++ who ∷ []) 0) 1 receivers.now counts.now) }
{
    let mut all = Vec::new(alloc);
    for i in 0..receivers.len() {
        if stays(actors, crashed, who, receivers[i], counts[i]) {
            add_last(&mut all, i as u32 + 1, counts[i])?;
        }
    }
    Ok(all)
}

/// Returns the queues after the event, where it is a crash of `who`, and else unchanged. `None`
/// where memory ran out.
pub(crate) fn after_crash<O>(
    queues: Option<Queues>,
    alloc: Global,
    actors: u32,
    crashed: &[u32],
    receivers: &[u32],
    counts: &[u32],
    who: u32,
    event: &Event<O>,
) -> Option<Queues>
    requires holds { IfSome queues (λ q. Holds q actors crashed.now receivers.now counts.now) }
    requires same { length counts.now ≡ length receivers.now }
    requires few { length receivers.now < 2 ^ 32 - 1 }
    ensures { IfSome result
        (λ q.
        Holds q actors (crashed.now ++ (if is_crash event.now then who ∷ [] else [])) receivers.now
        counts.now) }
{
    let Some(mut queues) = queues else {
        return None;
    };
    let Event::Crash = event else {
        return Some(queues);
    };
    match queues.crash(alloc, actors, crashed, receivers, counts, who) {
        Ok(()) => Some(queues),
        Err(_) => None,
    }
}

/// Returns the queues once these mails were sent. `None` where memory ran out.
pub(crate) fn after_sent<M: Parcel>(
    queues: Option<Queues>,
    actors: u32,
    crashed: &[u32],
    receivers: &[u32],
    counts: &[u32],
    sent: &[M],
) -> Option<Queues>
    requires holds { IfSome queues (λ q. Holds q actors crashed.now receivers.now counts.now) }
    requires same { length counts.now ≡ length receivers.now }
    requires few { length receivers.now + length sent.now < 2 ^ 32 - 1 }
    ensures { IfSome result
        (λ q.
        Holds q actors crashed.now (receivers.now ++ map M.receiver sent.now)
        (counts.now ++ replicate (length sent.now) 1)) }
{
    let Some(mut queues) = queues else {
        return None;
    };
    let mut number = receivers.len() as u32;
    for mail in sent {
        number += 1;
        if queues.add(actors, crashed, number, mail.to()).is_err() {
            return None;
        }
    }
    Some(queues)
}

// Notes an event in the counts, the crashed actors and the queues. `None`: memory for the queues
// ran out, and the others are noted all the same.
fn note_event<O>(
    queues: Option<Queues>,
    alloc: Global,
    actors: u32,
    receivers: &[u32],
    counts: &mut Vec<u32>,
    crashed: &mut Vec<u32>,
    who: u32,
    event: &Event<O>,
) -> Option<Queues>
    requires holds { IfSome queues
        (λ q. Holds q actors crashed.old.items receivers.now counts.old.items) }
    requires same { length counts.old.items ≡ length receivers.now }
    requires small { (i : ℕ) → slice_index counts.old.items i < 2 ^ 32 - 1 }
    requires few { length receivers.now < 2 ^ 32 - 1 }
    requires crashed { vec_len crashed.old + 1 ≤ vec_capacity crashed.old }
    ensures holds { IfSome result
        (λ q. Holds q actors crashed.new.items receivers.now counts.new.items) }
    ensures counts { counts.new.items ≡ counts_at counts.old.items event.now }
    ensures room { (vec_len counts.new ≡ vec_len counts.old)
        × (vec_capacity counts.new ≡ vec_capacity counts.old) }
    ensures crashed { crashed.new.items
        ≡ crashed.old.items ++ (if is_crash event.now then who ∷ [] else []) }
{
    let ended = crashed.as_slice();
    let queues = after_event(queues, actors, ended, receivers, counts.as_slice(), event);
    count_event(counts, event);
    let left = counts.as_slice();
    let queues = after_crash(queues, alloc, actors, ended, receivers, left, who, event);
    add_crash(crashed, who, event);
    queues
}

/// Notes a row in the counts, the receivers, the crashed actors and the queues. `None`: memory for
/// the queues ran out, and the others are noted all the same.
pub(crate) fn note_row<M: Parcel, O>(
    queues: Option<Queues>,
    alloc: Global,
    actors: u32,
    counts: &mut Vec<u32>,
    receivers: &mut Vec<u32>,
    crashed: &mut Vec<u32>,
    row: &Row<M, O>,
) -> Option<Queues>
    requires holds { IfSome queues
        (λ q. Holds q actors crashed.old.items receivers.old.items counts.old.items) }
    requires same { length counts.old.items ≡ length receivers.old.items }
    requires small { (i : ℕ) → slice_index counts.old.items i < 2 ^ 32 - 1 }
    requires few { length receivers.old.items + length row.now.sent < 2 ^ 32 - 1 }
    requires counts { vec_len counts.old + length row.now.sent ≤ vec_capacity counts.old }
    requires receivers { vec_len receivers.old + length row.now.sent
        ≤ vec_capacity receivers.old }
    requires crashed { vec_len crashed.old + 1 ≤ vec_capacity crashed.old }
    ensures holds { IfSome result
        (λ q. Holds q actors crashed.new.items receivers.new.items counts.new.items) }
    ensures counts { counts.new.items
        ≡ counts_at counts.old.items row.now.event ++ replicate (length row.now.sent) 1 }
    ensures receivers { receivers.new.items ≡ receivers.old.items ++ map M.receiver row.now.sent }
    ensures crashed { crashed.new.items
        ≡ crashed.old.items ++ (if is_crash row.now.event then row.now.who ∷ [] else []) }
{
    let (who, event, sent) = (row.who, &row.event, row.sent.as_slice());
    let to = receivers.as_slice();
    let queues = note_event(queues, alloc, actors, to, counts, crashed, who, event);
    let ended = crashed.as_slice();
    let queues = after_sent(queues, actors, ended, to, counts.as_slice(), sent);
    add_counts(counts, sent.len());
    add_receivers(receivers, sent);
    queues
}
