//! What is printed about a history, line by line.
ghost use Rattle.std.specs.Prelude.{◌≡◌, ◌++◌, ◌∷◌, [], codes, IfOk, OnOk, if◌then◌else◌};
ghost use Rattle.std.specs.Fmt.{decimal};
ghost use Rattle.sc_linear_answer.specs.Printed.{counted, ended, fault_lines, linearizable_lines, met_text, request_text, step_line, undecided_lines};

use sc_base::{Key, Op, OutOfMemory, Sequence, Value};
use sc_scenario::ReportLine;
use std::alloc::Global;

fn add_text(line: &mut Vec<u8>, text: &[u8]) -> Result<(), OutOfMemory>
    ensures { OnOk result (line.new.items ≡ line.old.items ++ text.now) }
{
    line.extend_from_slice(text)?;
    Ok(())
}

fn add_number(alloc: Global, line: &mut Vec<u8>, n: u64) -> Result<(), OutOfMemory>
    ensures { OnOk result (line.new.items ≡ line.old.items ++ decimal n) }
{
    let digits = format!(in alloc; "{n}")?;
    line.extend_from_slice(digits.as_bytes())?;
    Ok(())
}

// Appends a blank and a text.
fn add_word(line: &mut Vec<u8>, text: &[u8]) -> Result<(), OutOfMemory>
    ensures { OnOk result (line.new.items ≡ line.old.items ++ 32 ∷ text.now) }
{
    line.push(b' ')?;
    line.extend_from_slice(text)?;
    Ok(())
}

// Returns the line with this text.
fn ended(mut line: Vec<u8>) -> Result<ReportLine, OutOfMemory>
    ensures { IfOk result (λ done. done ≡ ended line.items) }
{
    line.push(b'\n')?;
    Ok(ReportLine::from_vec(line))
}

fn text_line(alloc: Global, text: &[u8]) -> Result<ReportLine, OutOfMemory>
    ensures { IfOk result (λ line. line ≡ ended text.now) }
{
    ended(Vec::from_slice(alloc, text)?)
}

fn counted(alloc: Global, label: &[u8], n: u64) -> Result<ReportLine, OutOfMemory>
    ensures { IfOk result (λ line. line ≡ counted label.now n) }
{
    let mut line = Vec::from_slice(alloc, label)?;
    add_number(alloc, &mut line, n)?;
    ended(line)
}

fn key_line(alloc: Global, key: &Key) -> Result<ReportLine, OutOfMemory>
    ensures { IfOk result (λ line. line ≡ ended (codes "key " ++ key.now)) }
{
    let mut line = Vec::from_slice(alloc, b"key ")?;
    add_text(&mut line, key.bytes())?;
    ended(line)
}

// Appends three lines to none.
fn three(
    alloc: Global,
    first: ReportLine,
    second: ReportLine,
    third: ReportLine,
) -> Result<Sequence<ReportLine>, OutOfMemory>
    ensures { IfOk result (λ lines. lines ≡ first ∷ second ∷ third ∷ []) }
{
    let mut lines = Sequence::new(alloc);
    lines.push(first)?;
    lines.push(second)?;
    lines.push(third)?;
    Ok(lines)
}

/// Returns the lines about a linearizable history with these numbers of requests and keys.
pub fn linearizable_lines(
    alloc: Global,
    requests: u64,
    keys: u64,
) -> Result<Sequence<ReportLine>, OutOfMemory>
    ensures { IfOk result (λ lines. lines ≡ linearizable_lines requests keys) }
{
    let first = text_line(alloc, b"linearizable")?;
    let second = counted(alloc, b"requests ", requests)?;
    let third = counted(alloc, b"keys ", keys)?;
    three(alloc, first, second, third)
}

/// Returns the lines about a history that is not linearizable, by its prefix that ends on a line,
/// because of the requests on a key. `exact` is whether all shorter prefixes are linearizable.
pub fn fault_lines(
    alloc: Global,
    line: u64,
    exact: bool,
    key: &Key,
) -> Result<Sequence<ReportLine>, OutOfMemory>
    ensures { IfOk result (λ lines. lines ≡ fault_lines line exact key.now) }
{
    let label: &[u8] = if exact { b"line " } else { b"line at most " };
    let first = text_line(alloc, b"not linearizable")?;
    let second = counted(alloc, label, line)?;
    let third = key_line(alloc, key)?;
    three(alloc, first, second, third)
}

/// Returns the lines about a history of which it is not known whether it is linearizable: the
/// requests on a key had too many places on a line.
pub fn undecided_lines(
    alloc: Global,
    line: u64,
    key: &Key,
) -> Result<Sequence<ReportLine>, OutOfMemory>
    ensures { IfOk result (λ lines. lines ≡ undecided_lines line key.now) }
{
    let first = text_line(alloc, b"undecided")?;
    let second = counted(alloc, b"line ", line)?;
    let third = key_line(alloc, key)?;
    three(alloc, first, second, third)
}

// Appends a blank and a request, as a history has it behind its process.
fn add_request(line: &mut Vec<u8>, op: &Op) -> Result<(), OutOfMemory>
    ensures { OnOk result (line.new.items ≡ line.old.items ++ request_text op.now) }
{
    match op {
        Op::Get { key } => {
            add_text(line, b"get ")?;
            add_text(line, key.bytes())
        }
        Op::Put { key, value } => {
            add_text(line, b"put ")?;
            add_text(line, key.bytes())?;
            add_word(line, value.bytes())
        }
        Op::Del { key } => {
            add_text(line, b"del ")?;
            add_text(line, key.bytes())
        }
        Op::Add { key, value } => {
            add_text(line, b"add ")?;
            add_text(line, key.bytes())?;
            add_word(line, value.bytes())
        }
        Op::Cas { key, expect, value } => {
            add_text(line, b"cas ")?;
            add_text(line, key.bytes())?;
            add_word(line, expect.bytes())?;
            add_word(line, value.bytes())
        }
    }
}

// Appends what a request met, as a history has it behind its process.
fn add_met(line: &mut Vec<u8>, old: &Option<Value>) -> Result<(), OutOfMemory>
    ensures { OnOk result (line.new.items ≡ line.old.items ++ met_text old.now) }
{
    match old {
        None => add_text(line, b"none"),
        Some(value) => {
            add_text(line, b"value ")?;
            add_text(line, value.bytes())
        }
    }
}

/// Returns the line of a request of a linearization: the line of the history on which it began,
/// its process, the request, and the value that it met.
pub fn step_line(
    alloc: Global,
    begun: u64,
    process: u32,
    op: &Op,
    old: &Option<Value>,
) -> Result<ReportLine, OutOfMemory>
    ensures { IfOk result (λ line. line ≡ step_line begun process op.now old.now) }
{
    let mut line = Vec::new(alloc);
    add_number(alloc, &mut line, begun)?;
    add_text(&mut line, b" ")?;
    add_number(alloc, &mut line, process as u64)?;
    add_text(&mut line, b" ")?;
    add_request(&mut line, op)?;
    add_text(&mut line, b" ")?;
    add_met(&mut line, old)?;
    ended(line)
}
