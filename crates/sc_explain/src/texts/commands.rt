//! Commands, appended to a text: a request of a client piece by piece, any other by its JSON.
ghost use Rattle.std.specs.Prelude.{◌≡◌, ◌++◌, OnOk};
ghost use Rattle.serde_json.specs.Written.{compact_text};
ghost use Rattle.sc_json_text.specs.rows.Commands.{command_json};

use crate::texts::pieces::{add_json, add_next, add_word};
use sc_base::OutOfMemory;
use sc_json_write::ToJson;
use sc_words::Command;
use std::alloc::Global;

fn by_json(alloc: Global, text: &mut Vec<u8>, command: &Command) -> Result<(), OutOfMemory>
    ensures { OnOk result (text.new.items ≡
        text.old.items ++ compact_text (command_json command.now)) }
{
    let json = command.to_json(alloc)?;
    add_json(alloc, text, &json)
}

/// Appends a command.
pub(crate) fn add_command(
    alloc: Global,
    text: &mut Vec<u8>,
    command: &Command,
) -> Result<(), OutOfMemory>
    ensures { OnOk result (text.new.items ≡
        text.old.items ++ compact_text (command_json command.now)) }
{
    match command {
        Command::Call { client, seq, op } => {
            add_next(text, br#"{"Call":{"client":"#, client)?;
            add_next(text, br#","op":"#, op)?;
            add_next(text, br#","seq":"#, seq)?;
            add_word(text, b"}}")
        }
        _ => by_json(alloc, text, command),
    }
}
