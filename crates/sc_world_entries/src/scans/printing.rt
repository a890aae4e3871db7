//! The text of a scan.
ghost use Rattle.std.specs.Prelude.{◌≡◌, ◌≤◌, ◌+◌, ◌++◌, ◌∷◌, [], length, IfOk, OnOk};
ghost use Rattle.std.specs.Fmt.{decimal};
ghost use Rattle.sc_scenario.specs.report.Report.{count_line, with_line_feed};
ghost use Rattle.sc_world_entries.specs.scans.Scan.{all_pairs};
ghost use Rattle.sc_world_entries.specs.scans.Text.{ends_page, page_lines, pair_line, pair_lines, part_line, part_lines, scan_lines};

use crate::scans::scans::Shown;
use crate::scans::walking::Part;
use sc_base::{Key, OutOfMemory, Sequence, Value};
use sc_scenario::ReportLine;
use std::alloc::Global;

fn add_number(alloc: Global, line: &mut Vec<u8>, n: u64) -> Result<(), OutOfMemory>
    ensures { OnOk result (line.new.items ≡ line.old.items ++ decimal n) }
{
    let digits = format!(in alloc; "{n}")?;
    line.extend_from_slice(digits.as_bytes())?;
    Ok(())
}

fn add_text(line: &mut Vec<u8>, text: &[u8]) -> Result<(), OutOfMemory>
    ensures { OnOk result (line.new.items ≡ line.old.items ++ text.now) }
{
    line.extend_from_slice(text)?;
    Ok(())
}

fn ended(mut line: Vec<u8>) -> Result<ReportLine, OutOfMemory>
    ensures { IfOk result (λ done. done ≡ with_line_feed line.items) }
{
    line.push(b'\n')?;
    Ok(ReportLine::from_vec(line))
}

fn word_line(alloc: Global, word: &[u8]) -> Result<ReportLine, OutOfMemory>
    ensures { IfOk result (λ line. line ≡ with_line_feed word.now) }
{
    ended(Vec::from_slice(alloc, word)?)
}

fn count_line(alloc: Global, label: &[u8], n: u64) -> Result<ReportLine, OutOfMemory>
    ensures { IfOk result (λ line. line ≡ count_line label.now n) }
{
    let mut line = Vec::from_slice(alloc, label)?;
    add_number(alloc, &mut line, n)?;
    ended(line)
}

fn part_line(alloc: Global, part: &Part, slot: u64) -> Result<ReportLine, OutOfMemory>
    ensures { IfOk result (λ line. line ≡ part_line part.now slot) }
{
    let mut line = Vec::from_slice(alloc, b"part ")?;
    add_number(alloc, &mut line, part.arc.lo() as u64)?;
    add_text(&mut line, b" ")?;
    add_number(alloc, &mut line, part.arc.len())?;
    add_text(&mut line, b" group ")?;
    add_number(alloc, &mut line, part.group.node as u64)?;
    add_text(&mut line, b".")?;
    add_number(alloc, &mut line, part.group.count as u64)?;
    add_text(&mut line, b" slot ")?;
    add_number(alloc, &mut line, slot)?;
    ended(line)
}

fn pair_line(alloc: Global, pair: &(Key, Value)) -> Result<ReportLine, OutOfMemory>
    ensures { IfOk result (λ line. line ≡ pair_line pair.now) }
{
    let mut line = Vec::from_slice(alloc, b"pair ")?;
    add_text(&mut line, pair.0.bytes())?;
    add_text(&mut line, b" ")?;
    add_text(&mut line, pair.1.bytes())?;
    ended(line)
}

// Appends the line of a pair, and the line `page` where a page ends with the pair.
fn add_pair(
    alloc: Global,
    all: &mut Sequence<ReportLine>,
    ends: bool,
    pair: &(Key, Value),
) -> Result<(), OutOfMemory>
    ensures { OnOk result (all.new ≡ all.old ++ pair_line pair.now ∷ page_lines ends) }
{
    all.push(pair_line(alloc, pair)?)?;
    if ends {
        all.push(word_line(alloc, b"page")?)?;
    }
    Ok(())
}

fn ends_page(most: u32, total: u64, number: u64) -> bool
    requires { 1 ≤ most }
    ensures { result ≡ ends_page most total number }
{
    number % most as u64 == 0 && number < total
}

// Appends the lines of pairs, before which `number` pairs of all came. Returns how many came with
// these.
fn add_pairs(
    alloc: Global,
    all: &mut Sequence<ReportLine>,
    most: u32,
    total: u64,
    number: u64,
    pairs: &[(Key, Value)],
) -> Result<u64, OutOfMemory>
    requires some { 1 ≤ most }
    requires within { number + length pairs.now ≤ total }
    ensures count { IfOk result (λ n. n ≡ number + length pairs.now) }
    ensures lines { IfOk result (λ _. all.new ≡ all.old ++ pair_lines most total number pairs.now) }
{
    let mut count = number;
    for pair in pairs {
        count += 1;
        add_pair(alloc, all, ends_page(most, total, count), pair)?;
    }
    Ok(count)
}

fn add_part(
    alloc: Global,
    all: &mut Sequence<ReportLine>,
    most: u32,
    total: u64,
    number: u64,
    shown: &Shown,
) -> Result<u64, OutOfMemory>
    requires some { 1 ≤ most }
    requires within { number + length shown.now.pairs ≤ total }
    ensures count { IfOk result (λ n. n ≡ number + length shown.now.pairs) }
    ensures lines { IfOk result (λ _. all.new ≡ all.old
        ++ part_line shown.now.part shown.now.slot ∷ pair_lines most total number shown.now.pairs) }
{
    all.push(part_line(alloc, &shown.part, shown.slot)?)?;
    add_pairs(alloc, all, most, total, number, shown.pairs.as_slice())
}

fn add_parts(
    alloc: Global,
    all: &mut Sequence<ReportLine>,
    most: u32,
    total: u64,
    scan: &[Shown],
) -> Result<(), OutOfMemory>
    requires some { 1 ≤ most }
    requires total { length (all_pairs scan.now) ≤ total }
    ensures { OnOk result (all.new ≡ all.old ++ part_lines most total 0 scan.now) }
{
    let mut number = 0u64;
    for shown in scan {
        number = add_part(alloc, all, most, total, number, shown)?;
    }
    Ok(())
}

// Returns the number of pairs of all parts. It reports out of memory where a `u64` does not hold
// the number.
fn total_of(scan: &[Shown]) -> Result<u64, OutOfMemory>
    ensures { IfOk result (λ total. total ≡ length (all_pairs scan.now)) }
{
    let mut total = 0u64;
    for shown in scan {
        let Some(more) = total.checked_add(shown.pairs.len() as u64) else {
            return Err(OutOfMemory);
        };
        total = more;
    }
    Ok(total)
}

/// Returns the lines of a scan of the first `rows` rows: `scatter scan 1`; `rows R`; for each part
/// `part LO LEN group G slot N` and then `pair K V` for each pair; last `pairs T`. After every
/// `most` pairs of all parts comes the line `page`, where more pairs follow. The only error is out
/// of memory.
pub fn scan_lines(
    alloc: Global,
    most: u32,
    rows: u64,
    scan: &[Shown],
) -> Result<Sequence<ReportLine>, OutOfMemory>
    requires { 1 ≤ most }
    ensures { IfOk result (λ lines. lines ≡ scan_lines most rows scan.now) }
{
    let total = total_of(scan)?;
    let mut all = Sequence::new(alloc);
    all.push(word_line(alloc, b"scatter scan 1")?)?;
    all.push(count_line(alloc, b"rows ", rows)?)?;
    add_parts(alloc, &mut all, most, total, scan)?;
    all.push(count_line(alloc, b"pairs ", total)?)?;
    Ok(all)
}
