//! Queued commands, in queues of std.
ghost use Rattle.std.specs.Prelude.{◌≡◌, ℕ, ◌<◌, ◌≤◌, ◌∷◌, ◌++◌, [], length, is_none, remove, OnOk, IsOk};
ghost use Rattle.std.specs.Option.{option_copied};
ghost use Rattle.sc_words.specs.declared.commands.commands.Command.TheVariants.{Call};
ghost use Rattle.sc_node_table.specs.Slots.{rest_of};
ghost use Rattle.sc_node_table.specs.Queues.{queued_number, is_request_of, without_request, request_before};
ghost use Rattle.sc_node_parts.specs.replica.Heads.{head_of};

use sc_base::{Dup, Op, OutOfMemory};
use sc_words::Command;
use std::alloc::Global;
use std::collections::VecDeque;

/// Returns whether the queue is empty.
pub fn is_empty(queue: &VecDeque<Command>) -> bool
    ensures { result ≡ is_none (head_of queue.now.items) }
{
    queue.is_empty()
}

/// Returns the head of the queue.
pub fn head(queue: &VecDeque<Command>) -> Option<&Command>
    ensures { option_copied result ≡ head_of queue.now.items }
{
    if queue.is_empty() {
        return None;
    }
    Some(&queue[0])
}

/// Takes the head of the queue out.
pub fn take_head(queue: &mut VecDeque<Command>) -> Option<Command>
    ensures head { result ≡ head_of queue.old.items }
    ensures rest { queue.new.items ≡ rest_of queue.old.items }
{
    queue.pop_front()
}

/// Inserts a command at the head of the queue.
pub fn push_front(queue: &mut VecDeque<Command>, command: Command) -> Result<(), OutOfMemory>
    ensures { OnOk result (queue.new.items ≡ command ∷ queue.old.items) }
{
    queue.push_front(command)?;
    Ok(())
}

/// Appends a command.
pub fn push_back(queue: &mut VecDeque<Command>, command: Command) -> Result<(), OutOfMemory>
    ensures { OnOk result (queue.new.items ≡ queue.old.items ++ command ∷ []) }
{
    queue.push_back(command)?;
    Ok(())
}

/// Appends a request to the queue.
pub fn add_request(
    alloc: Global,
    backlog: &mut VecDeque<Command>,
    client: u16,
    seq: u32,
    op: &Op,
) -> Result<(), OutOfMemory>
    ensures { OnOk result (backlog.new.items ≡ backlog.old.items ++ Call client seq op.now ∷ []) }
{
    let op = op.dup(alloc)?;
    push_back(backlog, Command::Call { client, seq, op })
}

/// Takes out the command at a place.
fn drop_at(queue: &mut VecDeque<Command>, i: usize)
    requires { i < length queue.old.items }
    ensures { queue.new.items ≡ remove queue.old.items i }
{
    let _gone = queue.remove(i);
}

/// Returns the number of a client's queued request, if there is one.
pub fn queued_number(commands: &VecDeque<Command>, client: u16) -> Option<u32>
    ensures { result ≡ queued_number commands.now.items client }
{
    for i in 0..commands.len() {
        if let Command::Call { client: c, seq, .. } = &commands[i] {
            if *c == client {
                return Some(*seq);
            }
        }
    }
    None
}

/// Returns whether a command is a request of this client.
fn is_request_of(client: u16, command: &Command) -> bool
    ensures { result ≡ is_request_of client command.now }
{
    match command {
        Command::Call { client: c, .. } => *c == client,
        _ => false,
    }
}

/// Removes a client's queued request, if there is one.
pub fn drop_request(backlog: &mut VecDeque<Command>, client: u16)
    ensures { backlog.new.items ≡ without_request backlog.old.items client }
{
    for i in 0..backlog.len() {
        if is_request_of(client, &backlog[i]) {
            drop_at(backlog, i);
            return;
        }
    }
}

/// Inserts a request at the head of the queue. Of two requests of a client that with the higher
/// number stays.
pub fn put_request(
    backlog: &mut VecDeque<Command>,
    client: u16,
    seq: u32,
    command: Command,
) -> Result<(), OutOfMemory>
    ensures backlog { OnOk result
        (backlog.new.items
        ≡ request_before (queued_number backlog.old.items client) client seq command backlog.old.items) }
    ensures later { (other : ℕ) → queued_number backlog.old.items client ≡ Some other → seq ≤ other →
        IsOk result }
{
    match queued_number(backlog, client) {
        None => push_front(backlog, command),
        Some(other) => {
            if other < seq {
                drop_request(backlog, client);
                push_front(backlog, command)
            } else {
                Ok(())
            }
        }
    }
}
