//! What a replica of a bound group sends at a tick.
ghost use Rattle.std.specs.Prelude.{◌≡◌, [], OnOk, IsOk, nat_le};
ghost use Rattle.sc_node_table.specs.Reminders.{one_tick_more, patience, reminders};

use crate::transactions::questions::ask_all;
use crate::transactions::votes::{send_watched_to_all, send_yes_to_all};
use sc_base::{OutOfMemory, Sequence};
use sc_group::Machine;
use sc_mail::Mail;
use sc_words::Lock;
use std::alloc::Global;

/// The number of ticks that a coordinator waits before it gives up.
const PATIENCE: u32 = 8;

/// Returns whether a coordinator that has waited for this number of ticks gives up.
pub fn has_waited(waits: u32) -> bool
    ensures { result ≡ nat_le patience waits }
{
    PATIENCE <= waits
}

/// Returns the count with one tick more. It stays at 2^32 - 1.
pub fn one_tick_more(waits: u32) -> u32
    ensures { result ≡ one_tick_more waits }
{
    if waits == u32::MAX {
        return waits;
    }
    waits + 1
}

/// Sends a coordinator's question to each member of the group that is asked, and the Yes of a
/// participant or watcher again to each member of the coordinator.
pub fn remind(
    alloc: Global,
    machine: &Machine,
    me: u16,
    out: &mut Sequence<Mail>,
) -> Result<(), OutOfMemory>
    ensures mails { OnOk result
        (out.new ≡ reminders machine.now.core.lock me machine.now out.old) }
    ensures none { reminders machine.now.core.lock me machine.now [] ≡ [] → IsOk result }
{
    let core = machine.core();
    match &core.lock {
        Lock::Free => Ok(()),
        Lock::Coordinating {
            tx,
            body,
            heard,
            ..
        } => ask_all(alloc, me, core, *tx, body, heard, out),
        Lock::Promised { tx, offer } => {
            send_yes_to_all(
                alloc,
                machine,
                me,
                offer.members.as_slice(),
                *tx,
                offer,
                out,
            )
        }
        Lock::Watching { tx, watch } => {
            send_watched_to_all(me, watch.members.as_slice(), *tx, watch, out)
        }
    }
}
