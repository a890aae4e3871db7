//! The lines of a stored journal, as they are printed.
ghost use Rattle.std.specs.Prelude.{◌≡◌, ◌∷◌, ◌++◌, false, map, IfOk, OnOk};
ghost use Rattle.sc_base.specs.Among.{Each};
ghost use Rattle.sc_texts.specs.lines.Lines.{lines_in};
ghost use Rattle.sc_json_text.specs.rows.RowText.{text_of, IsHeld};
ghost use Rattle.sc_json_journal.specs.file.Files.{fed};
ghost use Rattle.sc_json_journal.specs.file.Stored.{file_lines};

use crate::row::row_text;
use sc_actor::Row;
use sc_base::{OutOfMemory, Sequence};
use sc_mail::Mail;
use sc_scenario::ReportLine;
use sc_texts::next_line;
use sc_words::OrderLine;
use std::alloc::Global;

// Returns the line with its line feed.
fn fed(alloc: Global, line: &[u8]) -> Result<ReportLine, OutOfMemory>
    ensures { IfOk result (λ done. done ≡ fed line.now) }
{
    let mut bytes = Vec::from_slice(alloc, line)?;
    bytes.push(b'\n')?;
    Ok(ReportLine::from_vec(bytes))
}

// Returns the line of a row, with its line feed.
fn row_line(alloc: Global, row: &Row<Mail, OrderLine>) -> Result<ReportLine, OutOfMemory>
    ensures line { IfOk result (λ done. done ≡ fed (text_of row.now)) }
    ensures held { OnOk result (IsHeld row.now) }
{
    let mut bytes = row_text(alloc, row)?;
    bytes.push(b'\n')?;
    Ok(ReportLine::from_vec(bytes))
}

// Appends the lines of a text.
fn add_text(alloc: Global, lines: &mut Sequence<ReportLine>, text: &[u8]) -> Result<(), OutOfMemory>
    ensures { OnOk result (lines.new ≡ lines.old ++ map fed (lines_in false text.now)) }
{
    let mut rest = text;
    while !rest.is_empty() {
        let Some((line, behind)) = next_line(false, rest) else {
            unreachable!();
        };
        lines.push(fed(alloc, line)?)?;
        rest = behind;
    }
    Ok(())
}

// Appends the lines of rows.
fn add_rows(
    alloc: Global,
    lines: &mut Sequence<ReportLine>,
    rows: &[Row<Mail, OrderLine>],
) -> Result<(), OutOfMemory>
    ensures lines { OnOk result (lines.new ≡ lines.old ++ map fed (map text_of rows.now)) }
    ensures held { OnOk result (Each IsHeld rows.now) }
{
    for row in rows {
        lines.push(row_line(alloc, row)?)?;
    }
    Ok(())
}

/// Returns the lines of the file of a scenario's bytes and rows, each with its line feed: those of
/// the scenario, the line `journal`, and a line for each row.
pub fn file_lines(
    alloc: Global,
    bytes: &[u8],
    rows: &[Row<Mail, OrderLine>],
) -> Result<Sequence<ReportLine>, OutOfMemory>
    ensures lines { IfOk result (λ lines. lines ≡ file_lines bytes.now rows.now) }
    ensures held { OnOk result (Each IsHeld rows.now) }
{
    let mut lines = Sequence::new(alloc);
    add_text(alloc, &mut lines, bytes)?;
    lines.push(fed(alloc, b"journal")?)?;
    add_rows(alloc, &mut lines, rows)?;
    Ok(lines)
}
