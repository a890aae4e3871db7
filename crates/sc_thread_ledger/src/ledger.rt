//! The ledger: the rows, and what is counted of them.
ghost use Rattle.std.specs.Prelude.{◌≡◌, ◌<◌, ◌≤◌, ◌+◌, ◌^◌, ◌++◌, ◌∷◌, [], map, length, Some, All, IfOk, OnOk, IsOk, IfErr, IfSome, IsSome, slice_get, vec_len, vec_capacity};
ghost use Rattle.std.specs.Option.{option_map};
ghost use Rattle.std.proofs.Props.{props};
ghost use Rattle.sc_actor.specs.Mail.{mails, copies, numbered, numbers};
ghost use Rattle.sc_actor.specs.System.{kth};
ghost use Rattle.sc_actor.specs.Counted.{row_bytes, journal_bytes};
ghost use Rattle.sc_thread_ledger.specs.PostErrors.{IsCause};
ghost use Rattle.sc_thread_ledger.specs.Kept.{crashed_in, counts_for};
ghost use Rattle.sc_thread_ledger.specs.Pending.{kth_pending, is_pending, may_repeat};
ghost use Rattle.sc_thread_ledger.specs.Homes.{homes_from, firsts_from};
ghost use Rattle.sc_thread_ledger.specs.Queues.{Holds};
ghost use Rattle.sc_thread_ledger.specs.Spots.{copies_for, picked_spot, spots_from, spots_of};

use crate::counting::{bytes_with, note_home};
use crate::errors::{PostError, Unkept};
use crate::finding::{has_copy, kth_open, open_numbers, runs};
use crate::picking::picked_of;
use crate::plain::kth_after;
use crate::queues::{Queues, note_row};
use crate::spots::{Glance, Look, Spot, spots_from};
use sc_actor::{Parcel, Row};
use sc_base::{Dup, OutOfMemory, Sequence};
use std::alloc::Global;

/// The rows of one exchange, with their counted bytes (at most 2^30) and their pending mail.
#[derive(Drop)]
pub struct Ledger<M: Parcel + Drop, O: Drop> {
    /// The rows, in the order in which they were appended.
    pub rows: Vec<Row<M, O>>,
    bytes: u64,
    counts: Vec<u32>,
    receivers: Vec<u32>,
    crashed: Vec<u32>,
    // For each mail the place of its row, and for each row the number of mails sent before it.
    homes: Vec<u32>,
    firsts: Vec<u32>,
    // The pending mail, by actor, for the actors from 1 to `actors`. `None` once there was no
    // memory for it; then pending mail is found by the receivers and counts.
    queues: Option<Queues>,
    actors: u32,
    alloc: Global,
    ghost small: { bytes ≤ 2 ^ 30 },
    ghost counted: { bytes ≡ journal_bytes M.weighs rows.items },
    ghost under_way: { counts.items ≡ copies rows.items },
    ghost sent_to: { receivers.items ≡ map M.receiver (mails rows.items) },
    ghost gone: { crashed.items ≡ crashed_in rows.items },
    ghost homed: { homes.items ≡ homes_from 0 rows.items },
    ghost begun: { firsts.items ≡ firsts_from 0 rows.items },
    ghost queued: { IfSome queues (λ q. Holds q actors crashed.items receivers.items counts.items) } by { Prim.hlevel props },
}

impl<M: Parcel + Drop, O: Drop> Ledger<M, O> {
    /// Returns the empty ledger of `actors` actors, which have the numbers from 1 to `actors`.
    /// Where there is no memory for the queues of pending mail it is a ledger without queues.
    pub fn new(alloc: Global, actors: u32) -> Ledger<M, O>
        ensures { result.rows.items ≡ [] }
    {
        Ledger {
            rows: Vec::new(alloc),
            bytes: 0,
            counts: Vec::new(alloc),
            receivers: Vec::new(alloc),
            crashed: Vec::new(alloc),
            homes: Vec::new(alloc),
            firsts: Vec::new(alloc),
            queues: new_queues(alloc, actors),
            actors,
            alloc,
        }
    }

    /// Returns the number of rows, at most 2^24.
    pub fn len(&self) -> usize
        ensures rows { result ≡ length self.now.rows.items }
        ensures few { result ≤ 2 ^ 24 }
    {
        self.rows.len()
    }

    /// Returns the number of mails that were sent.
    pub fn sent(&self) -> usize
        ensures { result ≡ length (mails self.now.rows.items) }
    {
        self.receivers.len()
    }

    /// Returns the counted bytes of the rows.
    pub fn bytes(&self) -> u64
        ensures { result ≡ journal_bytes M.weighs self.now.rows.items }
    {
        self.bytes
    }

    /// Returns the number of the k-th pending mail, counted from 1, of actor `who`, or of all where
    /// `who` is 0. Where `actors` is the number that the ledger was made with, it is read off a
    /// queue, unless there was no memory for the queues.
    pub fn kth(&self, actors: u32, who: u32, k: u32) -> Option<u32>
        requires { 0 < k }
        ensures kth { result ≡ kth_pending M.receiver actors self.now.rows.items who k }
        ensures sent { IfSome result
            (λ number. IsSome (numbered (mails self.now.rows.items) number)) }
    {
        self.find(actors, who, k)
    }

    /// Returns what `kth` returns, by a scan of all rows. It is the plain form of `kth`, for tests.
    /// `Err(OutOfMemory)`: the ledger is unchanged.
    pub fn kth_by_scan(
        &self,
        alloc: Global,
        actors: u32,
        who: u32,
        k: u32,
    ) -> Result<Option<u32>, OutOfMemory>
        requires { 0 < k }
        ensures kth { IfOk result
            (λ found. found ≡ kth_pending M.receiver actors self.now.rows.items who k) }
    {
        kth_after(alloc, self.rows.as_slice(), actors, who, k)
    }

    // Returns the k-th pending mail from the queues, where they are those of `actors` actors, and
    // else by the receivers and counts.
    fn find(&self, actors: u32, who: u32, k: u32) -> Option<u32>
        requires { 0 < k }
        ensures { result
            ≡ kth
            (numbers (counts_for actors self.now.crashed.items who) 1 self.now.receivers.items
            self.now.counts.items)
            k }
    {
        if let Some(queues) = &self.queues {
            if actors == self.actors && who <= actors {
                return queues.kth(who, k);
            }
        }
        kth_open(
            self.receivers.as_slice(),
            self.counts.as_slice(),
            actors,
            self.crashed.as_slice(),
            who,
            k,
        )
    }

    // Returns the numbers of all pending mail, each as often as it has copies.
    fn find_all(&self, alloc: Global, actors: u32) -> Result<Vec<u32>, OutOfMemory>
        ensures { IfOk result
            (λ found.
            found.items
            ≡ numbers (counts_for actors self.now.crashed.items 0) 1 self.now.receivers.items
            self.now.counts.items) }
    {
        if let Some(queues) = &self.queues {
            if actors == self.actors {
                return queues.numbers(alloc);
            }
        }
        open_numbers(
            alloc,
            self.receivers.as_slice(),
            self.counts.as_slice(),
            actors,
            self.crashed.as_slice(),
        )
    }

    /// Returns a copy of the mail with this number, or `None` where no such mail was sent.
    pub fn mail(&self, alloc: Global, number: u32) -> Result<Option<M>, OutOfMemory>
        ensures { IfOk result (λ found. found ≡ numbered (mails self.now.rows.items) number) }
    {
        if number == 0 || number as usize > self.homes.len() {
            return Ok(None);
        }
        Ok(Some(self.copy_at(alloc, number as usize - 1)?))
    }

    // Returns a copy of the mail at a place among all that was sent, from 0.
    fn copy_at(&self, alloc: Global, place: usize) -> Result<M, OutOfMemory>
        requires { place < length self.now.homes.items }
        ensures { IfOk result (λ mail. slice_get (mails self.now.rows.items) place ≡ Some mail) }
    {
        let home = self.homes[place] as usize;
        let first = self.firsts[home] as usize;
        let row = &self.rows[home];
        Ok(row.sent.at(place - first).dup(alloc)?)
    }

    /// Returns the receiver of the mail with this number, or `None` where no such mail was sent.
    pub fn receiver(&self, number: u32) -> Option<u32>
        ensures { result ≡ option_map M.receiver (numbered (mails self.now.rows.items) number) }
    {
        let number = number as usize;
        if number == 0 || number > self.receivers.len() {
            return None;
        }
        Some(self.receivers[number - 1])
    }

    /// Returns whether the mail with this number was sent to an actor that has not crashed.
    pub fn may_repeat(&self, actors: u32, number: u32) -> bool
        ensures { result ≡ may_repeat M.receiver actors self.now.rows.items number }
    {
        let number = number as usize;
        if number == 0 || number > self.receivers.len() {
            return false;
        }
        runs(actors, self.crashed.as_slice(), self.receivers[number - 1])
    }

    /// Returns whether a copy of the mail with this number is pending.
    pub fn is_pending(&self, actors: u32, number: u32) -> bool
        ensures { result ≡ is_pending M.receiver actors self.now.rows.items number }
    {
        self.may_repeat(actors, number) && has_copy(self.counts.as_slice(), number)
    }

    /// Returns the number of mails that were sent, and each pending copy of all mail, in ascending
    /// order of number.
    pub fn look(&self, alloc: Global, actors: u32) -> Result<Look, OutOfMemory>
        ensures sent { IfOk result (λ look. look.sent ≡ length (mails self.now.rows.items)) }
        ensures spots { IfOk result
            (λ look. look.pending ≡ spots_of M.receiver actors self.now.rows.items) }
        ensures each { IfOk result
            (λ look.
            All
            (λ spot.
            kth_pending M.receiver actors self.now.rows.items spot.who spot.k ≡ Some spot.number)
            look.pending) }
    {
        let numbers = self.find_all(alloc, actors)?;
        let receivers = self.receivers.as_slice();
        let pending = spots_from(alloc, actors, receivers, numbers.as_slice())?;
        let sent = receivers.len() as u32;
        Ok(Look { sent, pending })
    }

    // Returns, of the pending copies for the actors `whos`, the one that `word` picks: from the
    // queues, where they are those of `actors` actors, and else from a list of all pending copies.
    fn pick(
        &self,
        alloc: Global,
        actors: u32,
        whos: &[u32],
        word: u32,
    ) -> Result<Option<Spot>, OutOfMemory>
        ensures spot { IfOk result
            (λ spot.
            spot
            ≡ picked_spot
            (copies_for whos.now
            (spots_from self.now.receivers.items
            (numbers (counts_for actors self.now.crashed.items 0) 1 self.now.receivers.items
            self.now.counts.items)))
            word) }
        ensures queued { IsSome self.now.queues → actors ≡ self.now.actors →
            length
            (numbers (counts_for actors self.now.crashed.items 0) 1 self.now.receivers.items
            self.now.counts.items) < 2 ^ 32 → IsOk result }
    {
        let receivers = self.receivers.as_slice();
        if let Some(queues) = &self.queues {
            if actors == self.actors {
                return queues.picked(receivers, whos, word);
            }
        }
        let numbers = self.find_all(alloc, actors)?;
        picked_of(alloc, numbers.as_slice(), receivers, whos, word)
    }

    /// Returns the number of mails that were sent, and of the pending copies for the actors `whos`,
    /// in ascending order of number, the one at the place `word` modulo their number. It is fast
    /// where `whos` are all actors, in their order.
    pub fn glance(
        &self,
        alloc: Global,
        actors: u32,
        whos: &[u32],
        word: u32,
    ) -> Result<Glance, OutOfMemory>
        ensures sent { IfOk result (λ glance. glance.sent ≡ length (mails self.now.rows.items)) }
        ensures spot { IfOk result
            (λ glance.
            glance.spot
            ≡ picked_spot (copies_for whos.now (spots_of M.receiver actors self.now.rows.items))
            word) }
        ensures each { IfOk result
            (λ _.
            All
            (λ spot.
            kth_pending M.receiver actors self.now.rows.items spot.who spot.k ≡ Some spot.number)
            (spots_of M.receiver actors self.now.rows.items)) }
        ensures queued { IsSome self.now.queues → actors ≡ self.now.actors →
            length
            (numbers (counts_for actors self.now.crashed.items 0) 1 self.now.receivers.items
            self.now.counts.items) < 2 ^ 32 → IsOk result }
    {
        let spot = self.pick(alloc, actors, whos, word)?;
        let sent = self.receivers.len() as u32;
        Ok(Glance { sent, spot })
    }

    // Reserves room for one row with `n` mails. Rows and counted bytes stay as they are.
    fn make_room(&mut self, n: usize) -> Result<(), OutOfMemory>
        requires { n < 2 ^ 40 }
        ensures same { (self.new.rows.items ≡ self.old.rows.items)
            × (self.new.bytes ≡ self.old.bytes) }
        ensures rows { OnOk result (vec_len self.new.rows + 1 ≤ vec_capacity self.new.rows) }
        ensures counts { OnOk result (vec_len self.new.counts + n ≤ vec_capacity self.new.counts) }
        ensures receivers { OnOk result
            (vec_len self.new.receivers + n ≤ vec_capacity self.new.receivers) }
        ensures crashed { OnOk result
            (vec_len self.new.crashed + 1 ≤ vec_capacity self.new.crashed) }
        ensures homes { OnOk result (vec_len self.new.homes + n ≤ vec_capacity self.new.homes) }
        ensures firsts { OnOk result (vec_len self.new.firsts + 1 ≤ vec_capacity self.new.firsts) }
    {
        self.rows.reserve(1)?;
        self.counts.reserve(n)?;
        self.receivers.reserve(n)?;
        self.crashed.reserve(1)?;
        self.homes.reserve(n)?;
        self.firsts.reserve(1)?;
        Ok(())
    }

    // Appends a row for which there is room. `bytes` are the counted bytes with it.
    fn keep(&mut self, row: Row<M, O>, bytes: u64)
        requires bytes { (bytes
            ≡ journal_bytes M.weighs self.old.rows.items + row_bytes M.weighs row)
            × (bytes ≤ 2 ^ 30) }
        requires rows { vec_len self.old.rows + 1 ≤ vec_capacity self.old.rows }
        requires counts { vec_len self.old.counts + length row.sent ≤ vec_capacity self.old.counts }
        requires receivers { vec_len self.old.receivers + length row.sent
            ≤ vec_capacity self.old.receivers }
        requires crashed { vec_len self.old.crashed + 1 ≤ vec_capacity self.old.crashed }
        requires homes { vec_len self.old.homes + length row.sent ≤ vec_capacity self.old.homes }
        requires firsts { vec_len self.old.firsts + 1 ≤ vec_capacity self.old.firsts }
        ensures { self.new.rows.items ≡ self.old.rows.items ++ row ∷ [] }
    {
        let place = self.rows.len() as u32;
        let before = self.receivers.len() as u32;
        note_home(
            &mut self.homes,
            &mut self.firsts,
            place,
            before,
            row.sent.len(),
        );
        let queues = self.queues.take();
        self.queues = note_row(
            queues,
            self.alloc,
            self.actors,
            &mut self.counts,
            &mut self.receivers,
            &mut self.crashed,
            &row,
        );
        self.bytes = bytes;
        self.rows.push_reserved(trimmed(row));
    }

    /// Appends a row, unless the counted bytes would pass the limit with it. `Err`: the row is
    /// handed back with the cause, and the ledger's rows are unchanged.
    pub fn append(&mut self, row: Row<M, O>, limit: u64) -> Result<(), Unkept<M, O>>
        requires { limit ≤ 2 ^ 30 }
        ensures ok { OnOk result (self.new.rows.items ≡ self.old.rows.items ++ row ∷ []) }
        ensures fits { OnOk result
            (journal_bytes M.weighs self.old.rows.items + row_bytes M.weighs row ≤ limit) }
        ensures refused { IfErr result
            (λ e.
            (e.row ≡ row)
            × (self.new.rows.items ≡ self.old.rows.items)
            × IsCause e.why (journal_bytes M.weighs self.old.rows.items) (row_bytes M.weighs row)
            limit) }
    {
        let bytes = bytes_with(row.sent.as_slice(), self.bytes);
        if bytes > limit {
            let why = PostError::JournalFull { bytes: self.bytes };
            return Err(Unkept { why, row });
        }
        if self.make_room(row.sent.len()).is_err() {
            let why = PostError::OutOfMemory;
            return Err(Unkept { why, row });
        }
        self.keep(row, bytes);
        Ok(())
    }
}

// Returns the same row, with no more room for its mails than they need: most rows send one mail,
// and a list that grows takes room for four at first.
fn trimmed<M, O>(row: Row<M, O>) -> Row<M, O>
    ensures { result ≡ row }
{
    let Row { who, event, sent } = row;
    let mut mails = sent.into_vec();
    mails.shrink_to_fit();
    Row {
        who,
        event,
        sent: Sequence::from_vec(mails),
    }
}

// Returns empty queues, or `None` where there is no memory for them.
fn new_queues(alloc: Global, actors: u32) -> Option<Queues>
    ensures { IfSome result (λ q. Holds q actors [] [] []) }
{
    match Queues::new(alloc, actors) {
        Ok(queues) => Some(queues),
        Err(_) => None,
    }
}
