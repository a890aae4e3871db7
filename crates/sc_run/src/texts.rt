//! Texts of one line.
ghost use Rattle.std.specs.Prelude.{◌≡◌, IfOk, length};
ghost use Rattle.sc_run.specs.Run.{IsLineText, IsFullText, IsRowsText, full_line, lawful_line, unlawful_line};

use crate::done::Text;
use sc_actor::Journal;
use sc_base::{OutOfMemory, Sequence};
use sc_mail::Mail;
use sc_scenario::ReportLine;
use sc_words::OrderLine;
use std::alloc::Global;

/// Returns a text of one line, about no journal.
pub(crate) fn line_text(alloc: Global, message: &[u8]) -> Result<Text, OutOfMemory>
    ensures { IfOk result (λ text. IsLineText message.now text) }
{
    let mut bytes = Vec::from_slice(alloc, message)?;
    bytes.push(b'\n')?;
    let mut lines = Sequence::new(alloc);
    lines.push(ReportLine::from_vec(bytes))?;
    Ok(Text {
        lines,
        journal: None,
        parties: Sequence::new(alloc),
    })
}

// Returns the line that a journal is full after this number of rows.
fn full_line(alloc: Global, rows: u64) -> Result<ReportLine, OutOfMemory>
    ensures { IfOk result (λ line. line ≡ full_line rows) }
{
    let text = format!(in alloc; "journal full after {rows} rows")?;
    let mut bytes = Vec::from_slice(alloc, text.as_bytes())?;
    bytes.push(b'\n')?;
    Ok(ReportLine::from_vec(bytes))
}

/// Returns the text about a journal that is full.
pub fn full_text(alloc: Global, journal: Journal<Mail, OrderLine>) -> Result<Text, OutOfMemory>
    ensures { IfOk result (λ text. IsFullText journal text) }
{
    let line = full_line(alloc, journal.len() as u64)?;
    let mut lines = Sequence::new(alloc);
    lines.push(line)?;
    Ok(Text {
        lines,
        journal: Some(journal),
        parties: Sequence::new(alloc),
    })
}

/// Returns the line that this number of rows is lawful.
pub(crate) fn lawful_line(alloc: Global, rows: u64) -> Result<ReportLine, OutOfMemory>
    ensures { IfOk result (λ line. line ≡ lawful_line rows) }
{
    let text = format!(in alloc; "lawful rows {rows}")?;
    let mut bytes = Vec::from_slice(alloc, text.as_bytes())?;
    bytes.push(b'\n')?;
    Ok(ReportLine::from_vec(bytes))
}

/// Returns the line that names the first row that is not lawful.
pub(crate) fn unlawful_line(alloc: Global, row: u32) -> Result<ReportLine, OutOfMemory>
    ensures { IfOk result (λ line. line ≡ unlawful_line row) }
{
    let text = format!(in alloc; "unlawful row {row}")?;
    let mut bytes = Vec::from_slice(alloc, text.as_bytes())?;
    bytes.push(b'\n')?;
    Ok(ReportLine::from_vec(bytes))
}

/// Returns a text of one line about the rows of a stored journal.
pub(crate) fn text_of_rows(
    alloc: Global,
    line: ReportLine,
    rows: Journal<Mail, OrderLine>,
) -> Result<Text, OutOfMemory>
    ensures { IfOk result (λ text. IsRowsText line rows text) }
{
    let mut lines = Sequence::new(alloc);
    lines.push(line)?;
    Ok(Text {
        lines,
        journal: Some(rows),
        parties: Sequence::new(alloc),
    })
}
