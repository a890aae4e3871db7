//! From the arguments and bytes that come in to the bytes that go out.
ghost use Rattle.std.specs.Prelude.{◌≡◌, ◌≤◌, ◌+◌, map, false, string_bytes};
ghost use Rattle.sc_cli.specs.Subcommands.{reads_input};
ghost use Rattle.sc_cli.specs.Inputs.{most_takes};
ghost use Rattle.sc_run.specs.Answers.{Runs};
ghost use Rattle.sc_run.specs.Run.{Ends};

use crate::done::{Done, Text};
use crate::saying::say;
use sc_actor::Gate;
use sc_base::{OutOfMemory, Sequence};
use sc_cli::print;
use sc_texts::{Sink, Source};
use std::alloc::Global;
use std::sync::Wait;
use std::thread::Threads;

// Begins the text that the arguments ask for, and prints it.
fn say_and_print<S: Source, K: Sink, G: Gate, R: Threads + Wait + Sync>(
    rt: &R,
    alloc: Global,
    words: &Vec<String>,
    input: &mut S,
    output: &mut K,
    gate: &G,
) -> Done
    ensures ends { Ends (map string_bytes words.now.items)
        (record {
          left = S.left input.old;
          errors_before = S.errors input.old;
          errors_after = S.errors input.new;
        })
        (record {
          held_before = K.held output.old;
          held_after = K.held output.new;
          pieces_before = K.pieces output.old;
          pieces_after = K.pieces output.new;
          errors_before = K.errors output.old;
          errors_after = K.errors output.new;
          calls_before = K.calls output.old;
          calls_after = K.calls output.new;
        })
        result }
    ensures unread { reads_input (map string_bytes words.now.items) ≡ false →
        input.new ≡ input.old }
    ensures takes { S.calls input.new ≤ S.calls input.old
        + most_takes (map string_bytes words.now.items) }
{
    let (said, text) = match say(rt, alloc, words.as_slice(), input, gate) {
        Ok(begun) => begun,
        Err(OutOfMemory) => {
            return Done {
                status: 8,
                journal: None,
                parties: Sequence::new(alloc),
            };
        }
    };
    let Text {
        lines,
        journal,
        parties,
    } = text;
    let status = print(output, said, lines.as_slice());
    Done {
        status,
        journal,
        parties,
    }
}

/// Reads a scenario or makes one, as the arguments ask, runs it and prints its report, or its
/// journal behind it, or what an arc holds; or reads a stored journal and prints whether it is
/// lawful, or what its rows decided.
///
/// The arguments are those behind the program's name. Each line of output is one call of the sink,
/// and the source is called 16,777,218 times at most, after `audit` and `explain` 268,435,458
/// times. A write error overrides the text's status. The gate is passed before each row that
/// delivers a mail.
///
/// Where the scenario that is read or made is plain and at its budget, no line is cut off, the
/// journal is not full, and every request of a client whose `go` line is followed by a line of
/// deliveries is answered; where it is calm and at its budget the same holds, but that the journal
/// may be full. So with no read and no write error the status of such a run is 0, or 8 where it
/// runs out of memory, and of a calm one 7 where its journal is full.
pub fn run<S: Source, K: Sink, G: Gate, R: Threads + Wait + Sync>(
    rt: &R,
    alloc: Global,
    words: &Vec<String>,
    input: &mut S,
    output: &mut K,
    gate: &G,
) -> Done
    ensures runs { Runs (map string_bytes words.now.items)
        (record {
          left = S.left input.old;
          errors_before = S.errors input.old;
          errors_after = S.errors input.new;
        })
        (record {
          held_before = K.held output.old;
          held_after = K.held output.new;
          pieces_before = K.pieces output.old;
          pieces_after = K.pieces output.new;
          errors_before = K.errors output.old;
          errors_after = K.errors output.new;
          calls_before = K.calls output.old;
          calls_after = K.calls output.new;
        })
        result }
    ensures unread { reads_input (map string_bytes words.now.items) ≡ false →
        input.new ≡ input.old }
    ensures takes { S.calls input.new ≤ S.calls input.old
        + most_takes (map string_bytes words.now.items) }
{
    say_and_print(rt, alloc, words, input, output, gate)
}
