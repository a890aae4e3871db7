//! The line of each fact.
ghost use Rattle.std.specs.Prelude.{◌≡◌, IfOk};
ghost use Rattle.std.specs.Option.{option_copied};
ghost use Rattle.sc_explain.specs.facts.Facts.{birth_line, entry_line, history_line, record_line, ring_group_line, ring_line};

use crate::facts::effects::add_effect;
use crate::facts::facts::{GroupRecord, RingGroup};
use crate::texts::{add_command, add_list, add_next, add_word};
use sc_base::{Draw, Members, OutOfMemory};
use sc_meaning::{Cut, LogEntry};
use sc_scenario::ReportLine;
use sc_words::{Effect, Entry};
use std::alloc::Global;

// The room that is made for a line at once, in bytes: most lines have fewer.
const USUAL: usize = 192;

/// Returns the line of the creation of a group with these members, which the row of this number
/// decided. Row 0 stands for the beginning.
pub fn birth_line(
    alloc: Global,
    row: u64,
    name: Draw,
    members: &Members,
) -> Result<ReportLine, OutOfMemory>
    ensures { IfOk result (λ line. line ≡ birth_line row name members.now) }
{
    let mut text = Vec::with_capacity(alloc, USUAL)?;
    add_next(&mut text, br#"{"birth":{"group":"#, &name)?;
    add_next(&mut text, br#","members":"#, members)?;
    add_next(&mut text, br#"},"row":"#, &row)?;
    add_word(&mut text, b"}\n")?;
    Ok(ReportLine::from_vec(text))
}

/// Returns the line of an entry of a log, which the row of this number decided, with the effect of
/// the entry, or `null` where there is none.
pub fn entry_line(
    alloc: Global,
    row: u64,
    entry: &LogEntry,
    effect: Option<&Effect>,
) -> Result<ReportLine, OutOfMemory>
    ensures { IfOk result (λ line. line ≡ entry_line row entry.now (option_copied effect.entry)) }
{
    let mut text = Vec::with_capacity(alloc, USUAL)?;
    add_word(&mut text, br#"{"entry":{"command":"#)?;
    add_command(alloc, &mut text, &entry.command)?;
    add_word(&mut text, br#","effect":"#)?;
    add_effect(alloc, &mut text, effect)?;
    add_next(&mut text, br#","group":"#, &entry.group)?;
    add_next(&mut text, br#","slot":"#, &entry.slot)?;
    add_next(&mut text, br#"},"row":"#, &row)?;
    add_word(&mut text, b"}\n")?;
    Ok(ReportLine::from_vec(text))
}

/// Returns the line of an entry of the history, which the row of this number decided.
pub fn history_line(alloc: Global, row: u64, entry: &Entry) -> Result<ReportLine, OutOfMemory>
    ensures { IfOk result (λ line. line ≡ history_line row entry.now) }
{
    let mut text = Vec::with_capacity(alloc, USUAL)?;
    add_next(&mut text, br#"{"history":{"client":"#, &entry.client)?;
    add_next(&mut text, br#","op":"#, &entry.op)?;
    add_next(&mut text, br#","reply":"#, &entry.reply)?;
    add_next(&mut text, br#","seq":"#, &entry.seq)?;
    add_next(&mut text, br#"},"row":"#, &row)?;
    add_word(&mut text, b"}\n")?;
    Ok(ReportLine::from_vec(text))
}

/// Returns the line of a group's record by its own log, as the row of this number left it.
pub fn record_line(alloc: Global, row: u64, group: &GroupRecord) -> Result<ReportLine, OutOfMemory>
    ensures { IfOk result (λ line. line ≡ record_line row group.now) }
{
    let mut text = Vec::with_capacity(alloc, USUAL)?;
    add_next(&mut text, br#"{"record":{"arc":"#, &group.arc)?;
    add_next(&mut text, br#","gone":"#, &group.gone)?;
    add_next(&mut text, br#","lock":"#, &group.lock)?;
    add_next(&mut text, br#","members":"#, &group.members)?;
    add_next(&mut text, br#","name":"#, &group.name)?;
    add_next(&mut text, br#","pred":"#, &group.pred)?;
    add_next(&mut text, br#","succ":"#, &group.succ)?;
    add_next(&mut text, br#"},"row":"#, &row)?;
    add_word(&mut text, b"}\n")?;
    Ok(ReportLine::from_vec(text))
}

/// Returns the line of a group of the ring, as the row of this number left it.
pub fn ring_group_line(
    alloc: Global,
    row: u64,
    group: &RingGroup,
) -> Result<ReportLine, OutOfMemory>
    ensures { IfOk result (λ line. line ≡ ring_group_line row group.now) }
{
    let mut text = Vec::with_capacity(alloc, USUAL)?;
    add_next(&mut text, br#"{"group":{"arc":"#, &group.arc)?;
    add_next(&mut text, br#","name":"#, &group.name)?;
    add_next(&mut text, br#","pairs":"#, &group.pairs)?;
    add_next(&mut text, br#","pred":"#, &group.pred)?;
    add_next(&mut text, br#","succ":"#, &group.succ)?;
    add_next(&mut text, br#"},"row":"#, &row)?;
    add_word(&mut text, b"}\n")?;
    Ok(ReportLine::from_vec(text))
}

/// Returns the line of the whole ring, as the row of this number left it.
pub fn ring_line(alloc: Global, row: u64, ring: &[Cut]) -> Result<ReportLine, OutOfMemory>
    ensures { IfOk result (λ line. line ≡ ring_line row ring.now) }
{
    let mut text = Vec::with_capacity(alloc, USUAL)?;
    add_word(&mut text, br#"{"ring":"#)?;
    add_list(&mut text, ring)?;
    add_next(&mut text, br#","row":"#, &row)?;
    add_word(&mut text, b"}\n")?;
    Ok(ReportLine::from_vec(text))
}
