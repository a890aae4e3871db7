//! Prints lines, each by one call of the sink.
ghost use Rattle.std.specs.Prelude.{◌≤◌, ◌+◌, length, OnOk, OnErr};
ghost use Rattle.std.specs.List.{concat};
ghost use Rattle.std.specs.Io.KnownBytes.{Appends};
ghost use Rattle.sc_texts.specs.edges.Bytes.{AppendsPart};
ghost use Rattle.sc_texts.specs.edges.Causes.{HasCause};
ghost use Rattle.sc_cli.specs.Causes.{BringsLines, BringsFirst, Prints};

use crate::said::Said;
use sc_scenario::ReportLine;
use sc_texts::{Failed, Sink};

// Puts each line by one call of the sink. After a write error the sink has gained a prefix of the
// lines' bytes.
fn put_all<K: Sink>(sink: &mut K, lines: &[ReportLine]) -> Result<(), Failed>
    ensures whole { OnOk result (Appends (K.held sink.old) (K.held sink.new) (concat lines.now)) }
    ensures part { OnErr result
        (AppendsPart (K.held sink.old) (K.held sink.new) (concat lines.now)) }
    ensures cause { HasCause (K.errors sink.old) (K.errors sink.new) result }
    ensures calls { K.calls sink.new ≤ K.calls sink.old + length lines.now }
    ensures each { OnOk result (BringsLines (K.pieces sink.old) (K.pieces sink.new) lines.now) }
    ensures first { OnErr result (BringsFirst (K.pieces sink.old) (K.pieces sink.new) lines.now) }
{
    for line in lines {
        if let Err(Failed) = sink.put(line.bytes()) {
            return Err(Failed);
        }
    }
    Ok(())
}

/// Puts each line of a text by one call of the sink, and returns the status that the text belongs
/// to, or 5 after a write error.
pub fn print<K: Sink>(sink: &mut K, said: Said, lines: &[ReportLine]) -> u8
    ensures prints { Prints (record {
      held_before = K.held sink.old;
      held_after = K.held sink.new;
      pieces_before = K.pieces sink.old;
      pieces_after = K.pieces sink.new;
      errors_before = K.errors sink.old;
      errors_after = K.errors sink.new;
      calls_before = K.calls sink.old;
      calls_after = K.calls sink.new;
    })
        said lines.now result }
    ensures calls { K.calls sink.new ≤ K.calls sink.old + length lines.now }
{
    match put_all(sink, lines) {
        Ok(()) => said.status(),
        Err(Failed) => 5,
    }
}
