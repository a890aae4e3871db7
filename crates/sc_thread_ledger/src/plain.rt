//! The plain form of the search for pending mail, which goes through all rows.
ghost use Rattle.std.specs.Prelude.{◌≡◌, ◌<◌, ◌+◌, ◌^◌, ◌-◌, ◌++◌, ◌∷◌, [], ℕ, map, replicate, length, slice_index, IfOk, OnOk, if◌then◌else◌};
ghost use Rattle.sc_actor.specs.Mail.{mails, counts_at, is_crash};
ghost use Rattle.sc_thread_ledger.specs.Pending.{kth_pending};

use crate::counting::{add_counts, add_crash, add_receivers, count_event};
use crate::finding::kth_open;
use sc_actor::{Parcel, Row};
use sc_base::OutOfMemory;
use std::alloc::Global;

// Adds a row to the counts, the receivers and the crashed actors.
fn count_row<M: Parcel, O>(
    counts: &mut Vec<u32>,
    receivers: &mut Vec<u32>,
    crashed: &mut Vec<u32>,
    row: &Row<M, O>,
) -> Result<(), OutOfMemory>
    requires { (i : ℕ) → slice_index counts.old.items i < 2 ^ 32 - 1 }
    ensures counts { OnOk result
        (counts.new.items
        ≡ counts_at counts.old.items row.now.event ++ replicate (length row.now.sent) 1) }
    ensures receivers { OnOk result
        (receivers.new.items ≡ receivers.old.items ++ map M.receiver row.now.sent) }
    ensures crashed { OnOk result
        (crashed.new.items
        ≡ crashed.old.items ++ (if is_crash row.now.event then row.now.who ∷ [] else [])) }
{
    counts.reserve(row.sent.len())?;
    receivers.reserve(row.sent.len())?;
    crashed.reserve(1)?;
    count_event(counts, &row.event);
    add_counts(counts, row.sent.len());
    add_receivers(receivers, row.sent.as_slice());
    add_crash(crashed, row.who, &row.event);
    Ok(())
}

/// Returns the number of the k-th pending mail, counted from 1, after these rows, of actor `who`,
/// or of all where `who` is 0.
pub(crate) fn kth_after<M: Parcel, O>(
    alloc: Global,
    rows: &[Row<M, O>],
    actors: u32,
    who: u32,
    k: u32,
) -> Result<Option<u32>, OutOfMemory>
    requires first { 0 < k }
    requires rows { length rows.now < 2 ^ 32 - 1 }
    requires mails { length (mails rows.now) < 2 ^ 32 - 1 }
    ensures { IfOk result (λ found. found ≡ kth_pending M.receiver actors rows.now who k) }
{
    let mut counts = Vec::new(alloc);
    let mut receivers = Vec::new(alloc);
    let mut crashed = Vec::new(alloc);
    for row in rows {
        count_row(&mut counts, &mut receivers, &mut crashed, row)?;
    }
    Ok(kth_open(
        receivers.as_slice(),
        counts.as_slice(),
        actors,
        crashed.as_slice(),
        who,
        k,
    ))
}
