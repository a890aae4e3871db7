//! The rows that decide entries of logs, each with its entries.
ghost use Rattle.std.specs.Prelude.{◌≡◌, ◌++◌, [], IfOk, IsOk, OnOk};
ghost use Rattle.sc_meaning.specs.sound.Players.{as_nodes};
ghost use Rattle.sc_world_entries.specs.decided.Deciding.{deciding_from, with_entries};

use crate::decided::births::{Heard, groups_of, hear};
use crate::decided::entries::after_row;
use sc_actor::Row;
use sc_base::{OutOfMemory, Sequence};
use sc_mail::Mail;
use sc_meaning::LogEntry;
use sc_words::{Base, OrderLine};
use sc_world_logs::{accepted_in, add_mails};
use std::alloc::Global;

/// A row that decides entries of logs.
#[derive(Drop)]
pub struct DecidingRow {
    /// The number of the row, from 1.
    pub row: u64,
    /// The entries that it decides, at least one, by group and then by slot.
    pub entries: Sequence<LogEntry>,
}

// Adds a row with its entries, if it decides any.
fn add_row(
    deciding: &mut Vec<DecidingRow>,
    row: u64,
    entries: Vec<LogEntry>,
) -> Result<(), OutOfMemory>
    ensures deciding { OnOk result (deciding.new.items ≡
        deciding.old.items ++ with_entries row entries.items) }
    ensures none { entries.items ≡ [] → IsOk result }
{
    if entries.is_empty() {
        return Ok(());
    }
    deciding.push(DecidingRow {
        row,
        entries: Sequence::from_vec(entries),
    })?;
    Ok(())
}

/// Returns the rows that decide entries of logs, in their order, each with its number and its
/// entries. Fails only where it runs out of memory.
pub fn deciding_rows(
    alloc: Global,
    bases: &[Base],
    rows: &[Row<Mail, OrderLine>],
) -> Result<Vec<DecidingRow>, OutOfMemory>
    ensures deciding { IfOk result (λ deciding.
        deciding.items ≡ deciding_from as_nodes bases.now [] rows.now) }
    ensures none { bases.now ≡ [] → rows.now ≡ [] → IsOk result }
{
    let mut deciding = Vec::new(alloc);
    let mut sent = Vec::new(alloc);
    let mut heard = Heard {
        names: Vec::new(alloc),
        all: true,
    };
    let mut groups = groups_of(alloc, bases, &rows[..0])?;
    for i in 0..rows.len() {
        let row = &rows[i];
        let mails = sent.as_slice();
        let accepted = accepted_in(alloc, mails, row)?;
        hear(&mut heard, &accepted)?;
        let before = &rows[..i];
        let after = &rows[..i + 1];
        let mut entries = Vec::new(alloc);
        let next = after_row(
            alloc,
            &mut entries,
            bases,
            before,
            after,
            groups,
            &heard,
            accepted,
        )?;
        groups = next;
        add_row(&mut deciding, i as u64 + 1, entries)?;
        let more = row.sent.as_slice();
        add_mails(&mut sent, more)?;
    }
    Ok(deciding)
}
