//! The pieces of lines.
ghost use Rattle.std.specs.Prelude.{◌≡◌, ◌++◌, ◌∷◌, [], IfOk, OnOk};
ghost use Rattle.std.specs.Fmt.{decimal};
ghost use Rattle.sc_scenario.specs.report.Report.{with_nodes, count_line, op_word};

use sc_base::{Op, OutOfMemory};
use std::alloc::Global;

/// Appends bytes to a line.
pub(crate) fn add_text(line: &mut Vec<u8>, text: &[u8]) -> Result<(), OutOfMemory>
    ensures { OnOk result (line.new.items ≡ line.old.items ++ text.now) }
{
    line.extend_from_slice(text)?;
    Ok(())
}

/// Appends a number in decimal digits to a line.
pub(crate) fn add_number(alloc: Global, line: &mut Vec<u8>, n: u64) -> Result<(), OutOfMemory>
    ensures { OnOk result (line.new.items ≡ line.old.items ++ decimal n) }
{
    let digits = format!(in alloc; "{n}")?;
    line.extend_from_slice(digits.as_bytes())?;
    Ok(())
}

/// Appends the line feed to a line.
pub(crate) fn add_end(line: &mut Vec<u8>) -> Result<(), OutOfMemory>
    ensures { OnOk result (line.new.items ≡ line.old.items ++ 10 ∷ []) }
{
    line.push(b'\n')?;
    Ok(())
}

/// Appends each node to a line, after a blank.
pub(crate) fn add_nodes(alloc: Global, line: &mut Vec<u8>, nodes: &[u16]) -> Result<(), OutOfMemory>
    ensures { OnOk result (line.new.items ≡ with_nodes line.old.items nodes.now) }
{
    for node in nodes {
        add_text(line, b" ")?;
        add_number(alloc, line, *node as u64)?;
    }
    Ok(())
}

/// Returns a line of a label and a number.
pub(crate) fn counted(alloc: Global, label: &[u8], n: u64) -> Result<Vec<u8>, OutOfMemory>
    ensures { IfOk result (λ line. line.items ≡ count_line label.now n) }
{
    let mut line = Vec::from_slice(alloc, label)?;
    add_number(alloc, &mut line, n)?;
    add_end(&mut line)?;
    Ok(line)
}

/// Returns the word for an operation.
pub(crate) fn op_word(op: &Op) -> &'static [u8]
    ensures { result.now ≡ op_word op.now }
{
    match op {
        Op::Get { .. } => b"get",
        Op::Put { .. } => b"put",
        Op::Del { .. } => b"del",
        Op::Add { .. } => b"add",
        Op::Cas { .. } => b"cas",
    }
}
