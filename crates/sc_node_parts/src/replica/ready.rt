//! Ready commands by their slots, in an ordered map of std.
ghost use Rattle.std.specs.Prelude.{◌≡◌, OnOk};
ghost use Rattle.std.specs.Option.{option_copied};
ghost use Rattle.sc_node_table.specs.Slots.{at_slot, with_slot, without_slot};

use sc_base::OutOfMemory;
use sc_words::Command;
use std::collections::BTreeMap;

/// Returns the command that is ready at a slot.
pub fn ready_at(ready: &BTreeMap<u32, Command>, slot: u32) -> Option<&Command>
    ensures { option_copied result ≡ at_slot ready.now.entries slot }
{
    ready.get(&slot)
}

/// Sets the command that is ready at a slot.
pub fn put_ready(
    ready: &mut BTreeMap<u32, Command>,
    slot: u32,
    command: Command,
) -> Result<(), OutOfMemory>
    ensures { OnOk result (ready.new.entries ≡ with_slot ready.old.entries slot command) }
{
    let _old = ready.insert(slot, command)?;
    Ok(())
}

/// Takes out the command that is ready at a slot.
pub fn drop_ready(ready: &mut BTreeMap<u32, Command>, slot: u32)
    ensures { ready.new.entries ≡ without_slot ready.old.entries slot }
{
    let _old = ready.remove(&slot);
}
