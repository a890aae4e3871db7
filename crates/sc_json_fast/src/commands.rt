//! Commands, read from their texts: requests of clients, and the empty command.
ghost use Rattle.std.specs.Prelude.{IfSome};
ghost use Rattle.sc_json_text.specs.rows.Commands.{command_json, FitsCommand};
ghost use Rattle.sc_json_fast.specs.Prefixes.{TextBegins};

use crate::from_text::FromText;
use crate::parts::three_of;
use crate::words::behind;
use sc_words::Command;
use std::alloc::Global;

fn command_call(alloc: Global, bytes: &[u8]) -> Option<(Command, &[u8])>
    ensures { IfSome result
        (λ found. TextBegins command_json FitsCommand bytes.now found.0 found.1.now) }
{
    let (client, op, seq, rest) = three_of(
        alloc,
        bytes,
        br#"{"Call":{"client":"#,
        br#","op":"#,
        br#","seq":"#,
        b"}}",
    )?;
    Some((Command::Call { client, seq, op }, rest))
}

fn command_noop(bytes: &[u8]) -> Option<(Command, &[u8])>
    ensures { IfSome result
        (λ found. TextBegins command_json FitsCommand bytes.now found.0 found.1.now) }
{
    let rest = behind(bytes, br#""Noop""#)?;
    Some((Command::Noop, rest))
}

impl FromText for Command {
    ghost json_of = { command_json };

    ghost Fits = { FitsCommand };

    fn take(alloc: Global, bytes: &[u8]) -> Option<(Command, &[u8])> {
        if let Some(found) = command_call(alloc, bytes) {
            return Some(found);
        }
        command_noop(bytes)
    }
}
